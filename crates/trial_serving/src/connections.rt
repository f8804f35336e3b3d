// Connections that are served in threads. The bytes of a connection are in the file NAME.in of the folder, and what must come is in
// NAME.out.
use crate::nets::{Pieces, answers_in, conn_in, faults_of, listening, written};
use crate::serving::{Listening, serve_by_threads};
use rv_base::Memory;
use std::fs;
use std::sync::Wait;
use std::thread::Threads;
use trial_stage::Part::{Number, Text};
use trial_stage::{Stage, append_parts, first_word, joined, named, number_in};

#[derive(Clone, Copy)]
enum Command {
    Serves,
    FailingReads,
    FailingWrites,
}

static COMMANDS: [(&str, Command); 3] = [
    ("serves", Command::Serves),
    ("failing-reads", Command::FailingReads),
    ("failing-writes", Command::FailingWrites),
];

// The bytes of the file NAME.END, none where it can't be read.
fn bytes_of(rt: &HostRuntime, name: &str, end: &str) -> Result<Vec<u8>, Memory> {
    let path = joined(rt.alloc(), &[Text(name), Text(end)])?;
    match fs::read(rt, path.as_str()) {
        Ok(bytes) => Ok(bytes),
        Err(_) => Ok(joined(rt.alloc(), &[Text("no file "), Text(path.as_str())])?.into_bytes()),
    }
}

// A listener whose connection sends what NAME.in has, in such pieces.
fn net_that_sends(rt: &HostRuntime, name: &str, pieces: Pieces) -> Result<Listening, Memory> {
    let bytes = bytes_of(rt, name, ".in")?;
    listening(rt.alloc(), conn_in(rt.alloc(), bytes, pieces)?)
}

// Whether what was written to a connection is what NAME.out has, how many answers there are, and what the program told.
fn compared<'x>(
    rt: &HostRuntime,
    name: &'x str,
    most: u64,
    text: &[u8],
    line: &'x str,
) -> Result<String, Memory> {
    let is_same = text == bytes_of(rt, name, ".out")?.as_slice();
    joined(
        rt.alloc(),
        &[
            Text(name),
            Text(" "),
            Number(most),
            Text(if is_same {
                ": the same, "
            } else {
                ": other bytes, "
            }),
            Number(answers_in(text)),
            Text(" answers, "),
            Text(line),
            Text("\n"),
        ],
    )
}

// `serves NAME MOST`: the connection NAME in pieces of at most so many bytes. Prints whether what was written is what must come, how
// many answers there are, and how many entries the book has.
fn serves<R: Threads + Wait + Sync>(stage: &Stage<'_, R>, rest: &str) -> Result<String, Memory> {
    let (name, most) = first_word(rest);
    let most = number_in(most).unwrap_or(0);
    let pieces = Pieces {
        most: most as usize,
        read: 0,
        write: 0,
    };
    let served = serve_by_threads(stage, net_that_sends(stage.host, name, pieces)?)?;
    let line = served.line(stage.host.alloc())?;
    compared(stage.host, name, most, written(&served.net), line.as_str())
}

// Adds what came of the connection NAME where the call of this number was to fail.
fn add_cut(
    rt: &HostRuntime,
    text: &mut String,
    name: &str,
    call: u64,
    net: &Listening,
    line: &str,
) -> Result<(), Memory> {
    let written = written(net);
    let is_front = bytes_of(rt, name, ".out")?.as_slice().starts_with(written);
    let front = if is_front { "a front" } else { "no front" };
    let (reads, writes) = faults_of(net);
    append_parts(
        rt.alloc(),
        text,
        &[
            Number(call),
            Text(": "),
            Number(answers_in(written)),
            Text(" answers, "),
            Text(front),
            Text(", faults "),
            Number(reads),
            Text(" and "),
            Number(writes),
            Text(", "),
            Text(line),
            Text("\n"),
        ],
    )
}

// Pieces of 20 bytes, of which the read or the write of this number fails.
fn cut(call: u64, is_read: bool) -> Pieces {
    Pieces {
        most: 20,
        read: if is_read { call } else { 0 },
        write: if is_read { 0 } else { call },
    }
}

// Adds what comes of the connection NAME where this call fails. Tells whether there was no fault, since there is no such call.
fn add_failing<R: Threads + Wait + Sync>(
    stage: &Stage<'_, R>,
    text: &mut String,
    name: &str,
    (call, is_read): (u64, bool),
) -> Result<bool, Memory> {
    let net = net_that_sends(stage.host, name, cut(call, is_read))?;
    let served = serve_by_threads(stage, net)?;
    let line = served.line(stage.host.alloc())?;
    add_cut(stage.host, text, name, call, &served.net, line.as_str())?;
    Ok(faults_of(&served.net) == (0, 0))
}

// `failing-reads NAME` and `failing-writes NAME`: the connection NAME in pieces of 20 bytes, with each read or write failing in turn, and
// then once with none. Prints how many answers begin in what was written, whether it is a front of what must come where none fails, the
// faults, and how many entries the book has.
fn each_failing<R: Threads + Wait + Sync>(
    stage: &Stage<'_, R>,
    name: &str,
    is_read: bool,
) -> Result<String, Memory> {
    let mut text = String::new(stage.host.alloc());
    for call in 1..100 {
        if add_failing(stage, &mut text, name, (call, is_read))? {
            break;
        }
    }
    Ok(text)
}

// What a command prints.
fn played<R: Threads + Wait + Sync>(
    stage: &Stage<'_, R>,
    command: Command,
    rest: &str,
) -> Result<String, Memory> {
    match command {
        Command::Serves => serves(stage, rest),
        Command::FailingReads => each_failing(stage, rest, true),
        Command::FailingWrites => each_failing(stage, rest, false),
    }
}

/// What a command on connections prints, where it is one.
pub fn answer<R: Threads + Wait + Sync>(
    stage: &Stage<'_, R>,
    line: &str,
) -> Result<Option<String>, Memory> {
    let (word, rest) = first_word(line);
    match named(&COMMANDS, word) {
        Some(command) => Ok(Some(played(stage, command, rest)?)),
        None => Ok(None),
    }
}
