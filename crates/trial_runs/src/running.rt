// Runs of the program over a place, and an input and an output in memory.
use rv_base::Memory;
use rv_cli::run;
use rv_doubles::{MemoryConn, MemoryListen, MemoryNet, MemorySink, MemorySource};
use rv_keeper::Place;
use rv_net::Conn;
use rv_workers::{Bells, Threaded};
use std::alloc::Global;
use std::sync::Wait;
use std::thread::Threads;
use trial_stage::Part::{Number, Text};
use trial_stage::{Stage, joined, text_of};

/// The most bytes of a read and of a write, and the read and the write that fail, by their numbers from 1; 0 is none.
#[derive(Clone, Copy)]
pub struct Pieces {
    /// The most bytes.
    pub most: usize,
    /// The read that fails.
    pub read: u64,
    /// The write that fails.
    pub write: u64,
}

impl Pieces {
    /// Pieces of at most so many bytes, of which none fails.
    pub fn of(most: usize) -> Pieces {
        Pieces {
            most,
            read: 0,
            write: 0,
        }
    }
}

/// How a run ended, and what it wrote.
#[derive(Drop)]
pub struct Finished {
    /// The status.
    pub status: u8,
    /// What was written.
    pub written: Vec<u8>,
    /// How many faults of the input and of the output rose.
    pub faults: (u64, u64),
}

impl Finished {
    /// What was written, and the status.
    pub fn joined(&self, alloc: Global) -> Result<String, Memory> {
        let status = u64::from(self.status);
        joined(
            alloc,
            &[
                Text(self.text()),
                Text("status "),
                Number(status),
                Text("\n"),
            ],
        )
    }

    /// What was written.
    pub fn text(&self) -> &str {
        text_of(&self.written)
    }

    /// The same in one line.
    pub fn line(&self, alloc: Global) -> Result<String, Memory> {
        let text = self.text().trim_end();
        let status = u64::from(self.status);
        joined(alloc, &[Text(text), Text(", status "), Number(status)])
    }

    /// Both runs wrote the same, and have the same status.
    pub fn is_as(&self, other: &Finished) -> bool {
        self.status == other.status && self.written.as_slice() == other.written.as_slice()
    }
}

/// The calls that fail: the one of this number, from 1, or none.
pub fn failing(alloc: Global, call: u64) -> Result<Vec<u64>, Memory> {
    let mut calls = Vec::new(alloc);
    if call > 0 {
        calls.push(call)?;
    }
    Ok(calls)
}

// The input of these bytes.
fn source(alloc: Global, bytes: &[u8], pieces: Pieces) -> Result<MemorySource, Memory> {
    let bytes = Vec::from_slice(alloc, bytes)?;
    let fails = failing(alloc, pieces.read)?;
    Ok(MemorySource::new(bytes, pieces.most, fails))
}

// The output.
fn sink(alloc: Global, pieces: Pieces) -> Result<MemorySink, Memory> {
    let fails = failing(alloc, pieces.write)?;
    Ok(MemorySink::new(alloc, pieces.most, fails))
}

/// Runs words over a place, these bytes as the input, and a net, by the program's crew.
pub fn run_over<R: Threads + Wait + Sync, P: Place>(
    stage: &Stage<'_, R>,
    words: &[String],
    place: &mut P,
    bytes: &[u8],
    pieces: Pieces,
    net: &mut MemoryNet,
) -> Result<Finished, Memory> {
    let alloc = stage.host.alloc();
    let mut input = source(alloc, bytes, pieces)?;
    let mut out = sink(alloc, pieces)?;
    let bells = Bells::new();
    let status = run(
        alloc,
        stage.threads,
        words,
        place,
        &mut input,
        &mut out,
        net,
        &mut Threaded::new(stage.threads, &bells),
    );
    Ok(Finished {
        status,
        written: out.bytes,
        faults: (input.faults, out.faults),
    })
}

/// A connection that sends these bytes.
pub fn conn_of(alloc: Global, bytes: &[u8], pieces: Pieces) -> Result<MemoryConn, Memory> {
    Ok(Conn {
        source: source(alloc, bytes, pieces)?,
        sink: sink(alloc, pieces)?,
    })
}

// A net of one listener, to which a connection comes that sends these bytes; or none does.
fn net_of(alloc: Global, bytes: Option<&[u8]>, pieces: Pieces) -> Result<MemoryNet, Memory> {
    let mut conns = Vec::new(alloc);
    if let Some(bytes) = bytes {
        conns.push(conn_of(alloc, bytes, pieces)?)?;
    }
    let mut listeners = Vec::new(alloc);
    listeners.push(MemoryListen::new(alloc, conns)?)?;
    MemoryNet::new(alloc, listeners, Vec::new(alloc), Vec::new(alloc))
}

// What was written to the connections that came back to a net, and then to the output, with the faults of all.
fn with_conns(alloc: Global, net: &MemoryNet, finished: &Finished) -> Result<Finished, Memory> {
    let mut written = Vec::new(alloc);
    let (mut read_faults, mut write_faults) = finished.faults;
    for listener in &net.listeners.came_back {
        for conn in &listener.came_back {
            written.extend_from_slice(&conn.sink.bytes)?;
            read_faults = read_faults.saturating_add(conn.source.faults);
            write_faults = write_faults.saturating_add(conn.sink.faults);
        }
    }
    written.extend_from_slice(&finished.written)?;
    Ok(Finished {
        status: finished.status,
        written,
        faults: (read_faults, write_faults),
    })
}

/// Runs words over a place, no input, and a net of one listener, to which a connection comes that sends these bytes; or none does. What
/// is written to it comes first.
pub fn run_connected<R: Threads + Wait + Sync, P: Place>(
    stage: &Stage<'_, R>,
    words: &[String],
    place: &mut P,
    bytes: Option<&[u8]>,
    pieces: Pieces,
) -> Result<Finished, Memory> {
    let alloc = stage.host.alloc();
    let mut net = net_of(alloc, bytes, pieces)?;
    let finished = run_over(stage, words, place, b"", pieces, &mut net)?;
    with_conns(alloc, &net, &finished)
}

/// Runs words over a place and these bytes as the input, and a net that has no listener.
pub fn run_alone<R: Threads + Wait + Sync, P: Place>(
    stage: &Stage<'_, R>,
    words: &[String],
    place: &mut P,
    bytes: &[u8],
    pieces: Pieces,
) -> Result<Finished, Memory> {
    let alloc = stage.host.alloc();
    let mut net = MemoryNet::new(alloc, Vec::new(alloc), Vec::new(alloc), Vec::new(alloc))?;
    run_over(stage, words, place, bytes, pieces, &mut net)
}
