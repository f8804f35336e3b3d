// What connections send and get over HTTP, and listeners that have them.
use crate::drawn::{Connection, Plan};
use crate::nets;
use crate::serving::Listening;
use rv_answering::Answer;
use rv_base::Memory;
use rv_doubles::{MemoryConn, MemoryListen};
use std::alloc::Global;
use trial_stage::Part::{Number, Text};
use trial_stage::{append_parts, joined, text_of};

// The body of an answer whose status is 200.
fn body_of(answer: &Answer) -> &str {
    match answer {
        Answer::Pushed => "{}",
        Answer::Pulled(reply) => text_of(reply.text.as_slice()),
        _ => "other",
    }
}

/// Adds the response that an answer is over HTTP, where its status is 200.
pub fn add_response(alloc: Global, text: &mut String, answer: &Answer) -> Result<(), Memory> {
    let body = body_of(answer);
    append_parts(
        alloc,
        text,
        &[
            Text("HTTP/1.1 200 OK\r\nContent-Type: application/json\r\nContent-Length: "),
            Number(body.len() as u64),
            Text("\r\n\r\n"),
            Text(body),
        ],
    )
}

// A connection that sends its requests.
fn conn(alloc: Global, connection: &Connection) -> Result<MemoryConn, Memory> {
    let key = joined(alloc, &[Text("k-"), Text(connection.user)])?;
    let mut bytes = Vec::new(alloc);
    for request in &connection.requests {
        let body = request.body.as_str();
        let text = nets::request(alloc, key.as_str(), request.word, body)?;
        bytes.extend_from_slice(text.as_bytes())?;
    }
    Ok(nets::conn(alloc, bytes, 1000))
}

// The listener at a place, from 0, with its connections.
fn listener(
    alloc: Global,
    plan: &Plan,
    connections: &[Connection],
    place: usize,
) -> Result<MemoryListen<MemoryConn>, Memory> {
    let from = place.wrapping_mul(plan.connections);
    let mut conns = Vec::new(alloc);
    for after in 0..plan.connections {
        if let Some(connection) = connections.get(from.wrapping_add(after)) {
            conns.push(conn(alloc, connection)?)?;
        }
    }
    MemoryListen::new(alloc, conns)
}

/// The listeners of a plan, with these connections.
pub fn net(alloc: Global, plan: &Plan, connections: &[Connection]) -> Result<Listening, Memory> {
    let mut listeners = Vec::new(alloc);
    for place in 0..plan.workers {
        listeners.push(listener(alloc, plan, connections, place)?)?;
    }
    Ok(Listening {
        listeners,
        pokes: Vec::new(alloc),
    })
}

/// Whether the connections that came back were answered so, each in its place.
pub fn are_answered(net: &Listening, responses: &[String]) -> bool {
    let mut left = responses.iter();
    for listener in &net.listeners {
        for conn in &listener.came_back {
            match left.next() {
                Some(text) if text.as_bytes() == conn.sink.bytes.as_slice() => {}
                _ => return false,
            }
        }
    }
    left.next().is_none()
}
