// Drawn requests of connections, served by workers side by side, beside the same requests in one order: asked of a desk, and of the plain
// slow server.
use crate::cells::hold_the_same;
use crate::drawn::{Connection, Plan, connections_of, plan_of};
use crate::order::{Turn, turns_of};
use crate::sending::{add_response, are_answered, net};
use crate::serving::{LIMIT, Served, serve_by_threads, serve_in_turn};
use json::Scratch;
use rv_answering::{Line, line_of, serve_asked};
use rv_base::Memory;
use rv_desk::Desk;
use rv_keeper::MemoryKeeper;
use rv_plain::PlainDesk;
use rv_turns::Turns;
use std::alloc::Global;
use std::sync::Wait;
use std::thread::Threads;
use trial_stage::Part::{Number, Text};
use trial_stage::{Stage, calls, first_word, joined};

// The line that asks a request; an empty one where there is no such request.
fn line_in(alloc: Global, connections: &[Connection], turn: Turn) -> Result<String, Memory> {
    let mut line = String::new(alloc);
    if let Some(connection) = connections.get(turn.connection) {
        if let Some(request) = connection.requests.get(turn.request) {
            let body = request.body.as_str();
            calls::add_line(alloc, &mut line, connection.user, request.word, body)?;
        }
    }
    Ok(line)
}

// Adds what a request gets to its connection's responses.
fn respond_to<T: Turns>(
    alloc: Global,
    turns: &mut T,
    line: &str,
    text: &mut String,
) -> Result<(), Memory>
    requires { T.closes }
{
    match line_of(alloc, line.trim_end().as_bytes(), &mut Scratch::new(alloc))? {
        Some(Line::Asks(read)) => add_response(alloc, text, &serve_asked(turns, read)),
        _ => Err(Memory),
    }
}

// A response for each connection, which is empty yet.
fn empty_responses(alloc: Global, connections: &[Connection]) -> Result<Vec<String>, Memory> {
    let mut responses = Vec::new(alloc);
    for _ in connections {
        responses.push(String::new(alloc))?;
    }
    Ok(responses)
}

// The responses that each connection gets, where requests are asked in this order.
fn responses_of<T: Turns>(
    alloc: Global,
    turns: &mut T,
    connections: &[Connection],
    order: &[Turn],
) -> Result<Vec<String>, Memory>
    requires { T.closes }
{
    let mut responses = empty_responses(alloc, connections)?;
    for turn in order {
        let line = line_in(alloc, connections, *turn)?;
        if let Some(text) = responses.get_mut(turn.connection) {
            respond_to(alloc, turns, line.as_str(), text)?;
        }
    }
    Ok(responses)
}

// What a desk of a new book answers in this order, and its keeper.
fn asked_in_order(
    alloc: Global,
    connections: &[Connection],
    order: &[Turn],
) -> Result<(Vec<String>, MemoryKeeper), Memory> {
    match Desk::open(alloc, MemoryKeeper::new(alloc, Vec::new(alloc)), LIMIT) {
        Ok(desk) => {
            let mut desk = desk;
            let responses = responses_of(alloc, &mut desk, connections, order);
            let keeper = desk.close();
            Ok((responses?, keeper))
        }
        Err(_) => Err(Memory),
    }
}

// Whether the connections were answered as in this order by a desk and by the plain server, and the store holds what the desk's does.
fn fits(
    alloc: Global,
    connections: &[Connection],
    order: &[Turn],
    served: &Served,
) -> Result<&'static str, Memory> {
    let mut plain = PlainDesk::new(alloc, LIMIT);
    let told = responses_of(alloc, &mut plain, connections, order)?;
    let (responses, keeper) = asked_in_order(alloc, connections, order)?;
    if !are_answered(&served.net, &told) || !are_answered(&served.net, &responses) {
        return Ok("other answers");
    }
    if !hold_the_same(alloc, &served.keeper, &keeper)? {
        return Ok("other cells");
    }
    Ok("one history")
}

// What was served, with so many answers, and how they fit.
fn told_text<'x>(
    alloc: Global,
    line: &'x str,
    answers: usize,
    fits: &'x str,
) -> Result<String, Memory> {
    joined(
        alloc,
        &[
            Text(line),
            Text(", "),
            Number(answers as u64),
            Text(" answers, "),
            Text(fits),
            Text("\n"),
        ],
    )
}

// What was served, how many answers there are, and how they fit.
fn told(alloc: Global, connections: &[Connection], served: &Served) -> Result<String, Memory> {
    let cells = served.keeper.shelves.cells(alloc)?;
    let order = turns_of(alloc, connections, cells.as_slice())?;
    let fits = fits(alloc, connections, &order, served)?;
    let line = served.line(alloc)?;
    told_text(alloc, line.as_str(), order.len(), fits)
}

// What comes of a plan, by threads or one after the other.
fn played<R: Threads + Wait + Sync>(
    stage: &Stage<'_, R>,
    has_threads: bool,
    plan: &Plan,
) -> Result<String, Memory> {
    let alloc = stage.host.alloc();
    let connections = connections_of(alloc, plan)?;
    let net = net(alloc, plan, &connections)?;
    let served = if has_threads {
        serve_by_threads(stage, net)?
    } else {
        serve_in_turn(stage, net)?
    };
    told(alloc, &connections, &served)
}

/// `threads WORKERS CONNECTIONS REQUESTS SEED`, or `serial ..`: what comes of so many drawn requests on each of so many connections to each
/// of so many workers. The entries of the book tell one order of all requests. In that order they are asked of a desk over another store,
/// and of the plain server: the answers must be those that the connections got, and the stores hold the same.
pub fn answer<R: Threads + Wait + Sync>(
    stage: &Stage<'_, R>,
    line: &str,
) -> Result<Option<String>, Memory> {
    let (word, words) = first_word(line);
    let has_threads = word == "threads";
    match plan_of(words) {
        Some(plan) => Ok(Some(played(stage, has_threads, &plan)?)),
        None => Ok(None),
    }
}
