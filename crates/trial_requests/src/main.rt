//! Requests beside a plain slow server, which answers them by the rules: written by hand, drawn by a seed, and answered with stops over
//! keepers that fail.
//!
//! A desk answers them over a keeper in memory, and over a SQLite database. In the input a line `== NAME` begins a case, a line that begins
//! with `{` is one of its lines, and a line that begins with `#` is a comment. `feed` answers the lines of its case where nothing was kept
//! before; every other command has its rule at the function that plays it.
#![tactic(auto)]

mod answering;
mod book_cells;
mod databases;
mod drawing;
mod failing;
mod feeding;
mod marks;
mod plain_answers;
mod plain_server;
mod schedules;
mod script;
mod story;
mod tally;
mod troubles;

use rv_base::Memory;
use std::alloc::Global;
use std::io;
use trial_stage::{Line, echoed, first_word, kind_of, named, print_answer, silent};

// What a command is of.
#[derive(Clone, Copy)]
enum Item {
    Feed,
    Databases,
    Drawn,
    DrawnDatabase,
    Troubles,
    Marks,
}

static ITEMS: [(&str, Item); 6] = [
    ("feed", Item::Feed),
    ("databases", Item::Databases),
    ("drawn", Item::Drawn),
    ("drawn-database", Item::DrawnDatabase),
    ("troubles", Item::Troubles),
    ("marks", Item::Marks),
];

// What a command prints, over the lines of its case, where it is one.
fn play(alloc: Global, lines: &str, line: &str) -> Result<Option<String>, Memory> {
    let (word, rest) = first_word(line);
    match named(&ITEMS, word) {
        Some(Item::Feed) => feeding::told_of_lines(alloc, lines, rest),
        Some(Item::Databases) => databases::compared(alloc, lines, rest),
        Some(Item::Drawn) => feeding::generated(alloc, rest),
        Some(Item::DrawnDatabase) => databases::generated(alloc, rest),
        Some(Item::Troubles) => troubles::told(alloc, lines),
        Some(Item::Marks) => marks::compared(alloc, rest),
        None => Ok(None),
    }
}

// Adds a line to those of a case.
fn add_line(lines: &mut String, line: &str) -> Result<(), Memory> {
    lines.push_str(line)?;
    lines.push_str("\n")?;
    Ok(())
}

// What a line prints.
fn answer(alloc: Global, lines: &mut String, line: &str) -> Result<Option<String>, Memory> {
    match kind_of(line) {
        Line::Subject(_) => echoed(alloc, line, Ok(())),
        Line::Case => {
            lines.clear();
            echoed(alloc, line, Ok(()))
        }
        Line::Note => silent(alloc, Ok(())),
        Line::Input => silent(alloc, add_line(lines, line)),
        Line::Command => play(alloc, lines.as_str(), line),
    }
}

fn main(rt: HostRuntime) -> io::Result<()> {
    let alloc = rt.alloc();
    let mut lines = String::new(alloc);
    for line in rt.lines(alloc) {
        let line = line?;
        let answered = answer(alloc, &mut lines, line.as_str());
        print_answer(&rt, line.as_str(), answered)?;
    }
    Ok(())
}
