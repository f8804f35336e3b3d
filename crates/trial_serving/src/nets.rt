// Connections in memory, and what came back to them.
use crate::serving::Listening;
use rv_base::Memory;
use rv_doubles::{MemoryConn, MemoryListen, MemorySink, MemorySource};
use rv_net::Conn;
use std::alloc::Global;
use trial_stage::Part::{Number, Text};
use trial_stage::joined;

/// The most bytes of a read and of a write, and the read and the write that fail, by their numbers from 1; 0 is none.
#[derive(Clone, Copy)]
pub struct Pieces {
    /// The most bytes.
    pub most: usize,
    /// The read that fails.
    pub read: u64,
    /// The write that fails.
    pub write: u64,
}

/// The calls that fail: the one of this number, from 1, or none.
pub fn failing(alloc: Global, call: u64) -> Result<Vec<u64>, Memory> {
    let mut calls = Vec::new(alloc);
    if call > 0 {
        calls.push(call)?;
    }
    Ok(calls)
}

/// The text of a request with this key, at this path without its slash, with this body.
pub fn request<'x>(
    alloc: Global,
    key: &'x str,
    path: &'x str,
    body: &'x str,
) -> Result<String, Memory> {
    joined(
        alloc,
        &[
            Text("POST /"),
            Text(path),
            Text(" HTTP/1.1\r\nAuthorization: "),
            Text(key),
            Text("\r\nContent-Length: "),
            Number(body.len() as u64),
            Text("\r\n\r\n"),
            Text(body),
        ],
    )
}

/// A connection that sends these bytes, and whose reads and writes are of at most so many.
pub fn conn(alloc: Global, bytes: Vec<u8>, most: usize) -> MemoryConn {
    Conn {
        source: MemorySource::new(bytes, most, Vec::new(alloc)),
        sink: MemorySink::new(alloc, most, Vec::new(alloc)),
    }
}

/// A connection that sends these bytes, and whose reads and writes are of such pieces.
pub fn conn_in(alloc: Global, bytes: Vec<u8>, pieces: Pieces) -> Result<MemoryConn, Memory> {
    let reads = failing(alloc, pieces.read)?;
    let writes = failing(alloc, pieces.write)?;
    Ok(Conn {
        source: MemorySource::new(bytes, pieces.most, reads),
        sink: MemorySink::new(alloc, pieces.most, writes),
    })
}

/// One listener, to which this connection is to come.
pub fn listening(alloc: Global, conn: MemoryConn) -> Result<Listening, Memory> {
    let mut conns = Vec::new(alloc);
    conns.push(conn)?;
    let mut listeners = Vec::new(alloc);
    listeners.push(MemoryListen::new(alloc, conns)?)?;
    Ok(Listening {
        listeners,
        pokes: Vec::new(alloc),
    })
}

// The first connection that was served and came back.
fn served(net: &Listening) -> Option<&MemoryConn> {
    net.listeners.first()?.came_back.first()
}

/// What was written to the first connection.
pub fn written(net: &Listening) -> &[u8] {
    match served(net) {
        Some(conn) => &conn.sink.bytes,
        None => b"",
    }
}

/// How many reads and how many writes of the first connection failed.
pub fn faults_of(net: &Listening) -> (u64, u64) {
    match served(net) {
        Some(conn) => (conn.source.faults, conn.sink.faults),
        None => (0, 0),
    }
}

/// How many answers begin in these bytes.
pub fn answers_in(bytes: &[u8]) -> u64 {
    let mut answers: u64 = 0;
    for part in bytes.windows(9) {
        if part == b"HTTP/1.1 ".as_slice() {
            answers = answers.saturating_add(1);
        }
    }
    answers
}
