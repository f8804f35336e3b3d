//! Stores that are stopped at each of their steps, and what a crash leaves of them.
//!
//! A store is a SQLite database over two disks in memory, one for its file and one for its log. In the input a line `== NAME` begins a
//! script, a line that begins with `{` is one of its lines, and a line that begins with `#` is a comment. `whole` answers the script,
//! and prints what comes of it. `log N` answers it again and again, with a log that goes to the file once it has N pages: the first
//! time no call of the log's disk passes, the next time one call does, then two, until all do. Each time the script ends at the first
//! call that is told to fail, the machine crashes, and for each pair of the contents that are tried of the two disks (all that was
//! written, what was synced, and two between), the store is opened and the rest of the script answered. `file N` does so with the
//! file's disk.
#![tactic(auto)]

mod disks;
mod held;
mod playing;
mod running;
mod stopping;

use disks::Which;
use rv_base::Memory;
use std::alloc::Global;
use std::io;
use trial_stage::{Line, echoed, first_word, kind_of, named, number_in, print_answer, silent};

static DISKS: [(&str, Which); 2] = [("log", Which::Log), ("file", Which::File)];

// Adds a line to a script.
fn add_line(alloc: Global, script: &mut Vec<String>, line: &str) -> Result<(), Memory> {
    script.push(String::from_str(alloc, line)?)?;
    Ok(())
}

// What a command prints, where it is one.
fn play(alloc: Global, script: &[String], line: &str) -> Result<Option<String>, Memory> {
    let (word, rest) = first_word(line);
    if word == "whole" {
        return Ok(Some(stopping::whole(alloc, script)?));
    }
    match (named(&DISKS, word), number_in(rest)) {
        (Some(which), Some(pages)) => Ok(Some(stopping::each(
            alloc,
            script,
            line,
            which,
            pages as usize,
        )?)),
        _ => Ok(None),
    }
}

// What a line prints.
fn answer(alloc: Global, script: &mut Vec<String>, line: &str) -> Result<Option<String>, Memory> {
    match kind_of(line) {
        Line::Subject(_) => echoed(alloc, line, Ok(())),
        Line::Case => {
            script.clear();
            echoed(alloc, line, Ok(()))
        }
        Line::Note => silent(alloc, Ok(())),
        Line::Input => silent(alloc, add_line(alloc, script, line)),
        Line::Command => play(alloc, script, line),
    }
}

fn main(rt: HostRuntime) -> io::Result<()> {
    let alloc = rt.alloc();
    let mut script = Vec::new(alloc);
    for line in rt.lines(alloc) {
        let line = line?;
        let answered = answer(alloc, &mut script, line.as_str());
        print_answer(&rt, line.as_str(), answered)?;
    }
    Ok(())
}
