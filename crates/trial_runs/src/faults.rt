// Runs in which one read or one write fails.
use crate::case::Case;
use crate::running::{Finished, Pieces};
use rv_base::Memory;
use std::alloc::Global;
use std::sync::Wait;
use std::thread::Threads;
use trial_stage::Part::{Number, Text};
use trial_stage::{Stage, joined};

// How many lines were written.
fn lines_in(written: &[u8]) -> u64 {
    let mut lines: u64 = 0;
    for byte in written {
        if *byte == b'\n' {
            lines = lines.saturating_add(1);
        }
    }
    lines
}

// The status, the number of lines that were written, whether they are a front of the whole output, and the faults.
fn line_of(alloc: Global, call: u64, whole: &Finished, some: &Finished) -> Result<String, Memory> {
    let text = some
        .written
        .strip_suffix(b"read\n")
        .unwrap_or(&some.written);
    let front = if whole.written.starts_with(text) {
        " lines, a front, faults "
    } else {
        " lines, no front, faults "
    };
    let (read, write) = some.faults;
    joined(
        alloc,
        &[
            Number(call),
            Text(": status "),
            Number(u64::from(some.status)),
            Text(", "),
            Number(lines_in(&some.written)),
            Text(front),
            Number(read),
            Text(" and "),
            Number(write),
            Text("\n"),
        ],
    )
}

// Pieces of 20 bytes, of which the read or the write of this number fails.
fn failing(call: u64, is_read: bool) -> Pieces {
    Pieces {
        most: 20,
        read: if is_read { call } else { 0 },
        write: if is_read { 0 } else { call },
    }
}

// Adds what comes of the run in which this call fails. Tells whether the run had no fault, since there is no such call.
fn add_run<R: Threads + Wait + Sync>(
    stage: &Stage<'_, R>,
    case: &Case,
    whole: &Finished,
    (call, is_read): (u64, bool),
    text: &mut String,
) -> Result<bool, Memory> {
    let some = case.run(stage, failing(call, is_read))?;
    let line = line_of(stage.host.alloc(), call, whole, &some)?;
    text.push_str(line.as_str())?;
    Ok(some.faults == (0, 0))
}

/// `failing-reads` and `failing-writes` run the case, in pieces of 20 bytes, with each read or write failing in turn, and
/// then once with none.
pub fn each<R: Threads + Wait + Sync>(
    stage: &Stage<'_, R>,
    case: &Case,
    is_read: bool,
) -> Result<String, Memory> {
    let mut text = String::new(stage.host.alloc());
    let whole = case.run(stage, failing(0, is_read))?;
    for call in 1..100 {
        if add_run(stage, case, &whole, (call, is_read), &mut text)? {
            break;
        }
    }
    Ok(text)
}
