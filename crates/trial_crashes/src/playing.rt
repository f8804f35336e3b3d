// Lines that a desk answers, over any store.
use crate::held::Held;
use json::Scratch;
use rv_answering::{Answer, Line, line_of, serve_asked};
use rv_base::Memory;
use rv_book::BOOK_LIMIT;
use rv_desk::{Desk, OpenFault};
use rv_keeper::Keeper;
use rv_sqlite::SqliteKeeper;
use sqlite::{Alter, Connection};
use std::alloc::Global;

// The status of an answer that tells a trouble.
const TROUBLE: u16 = 503;

/// How far lines were answered.
#[derive(Clone, Copy, PartialEq, Eq)]
pub enum End {
    /// Each line has an answer that tells no trouble.
    Done,
    /// The disks, the database or the book could not be opened.
    NotOpened,
    /// An answer told a trouble.
    Trouble,
    /// A line is none, memory was refused, or the store is damaged.
    Wrong,
}

/// What lines were answered.
#[derive(Drop)]
pub struct Told {
    /// The status of each answer that tells no trouble.
    pub statuses: Vec<u16>,
    /// The texts of the pulls among them, each with LF.
    pub pulls: Vec<u8>,
    /// The length of the book after them.
    pub length: u64,
    /// How far the lines were answered.
    pub end: End,
}

impl Told {
    /// Nothing was answered.
    pub fn nothing(alloc: Global, end: End) -> Told {
        Told {
            statuses: Vec::new(alloc),
            pulls: Vec::new(alloc),
            length: 0,
            end,
        }
    }

    // Notes an answer that tells no trouble.
    fn note(&mut self, answer: &Answer) -> Result<(), Memory> {
        self.statuses.push(answer.status())?;
        if let Answer::Pulled(reply) = answer {
            self.pulls.extend_from_slice(reply.text.as_slice())?;
            self.pulls.push(b'\n')?;
        }
        Ok(())
    }

    // Notes an answer.
    fn hear(&mut self, answer: &Answer) -> End {
        if answer.status() == TROUBLE {
            return End::Trouble;
        }
        match self.note(answer) {
            Ok(()) => End::Done,
            Err(Memory) => End::Wrong,
        }
    }
}

// Answers a line.
fn answer_line<K: Keeper>(alloc: Global, desk: &mut Desk<K>, line: &str, told: &mut Told) -> End {
    match line_of(alloc, line.as_bytes(), &mut Scratch::new(alloc)) {
        Ok(Some(Line::Asks(read))) => told.hear(&serve_asked(desk, read)),
        _ => End::Wrong,
    }
}

// Answers lines up to the first answer that tells a trouble.
fn answer_lines<K: Keeper>(alloc: Global, desk: &mut Desk<K>, lines: &[String], told: &mut Told) {
    for line in lines {
        told.end = answer_line(alloc, desk, line.as_str(), told);
        if told.end != End::Done {
            return;
        }
    }
}

// What a desk answers to lines, and its keeper.
fn told_by<K: Keeper>(alloc: Global, desk: Desk<K>, lines: &[String]) -> (Told, K) {
    let mut desk = desk;
    let mut told = Told::nothing(alloc, End::Done);
    answer_lines(alloc, &mut desk, lines, &mut told);
    told.length = u64::from(desk.book().len());
    (told, desk.close())
}

// What an opening that failed comes to.
fn end_of(fault: &OpenFault) -> End {
    match fault {
        OpenFault::Keeper => End::NotOpened,
        OpenFault::Damaged(_) => End::Wrong,
        OpenFault::Memory => End::Wrong,
    }
}

/// Opens the book of a database, and answers lines by a desk.
pub fn play<S: Alter>(
    alloc: Global,
    connection: Connection<S>,
    lines: &[String],
) -> (Told, Connection<S>) {
    match Desk::open(alloc, SqliteKeeper::adopt(alloc, connection), BOOK_LIMIT) {
        Ok(desk) => {
            let (told, keeper) = told_by(alloc, desk, lines);
            (told, keeper.into_connection())
        }
        Err((fault, keeper)) => (
            Told::nothing(alloc, end_of(&fault)),
            keeper.into_connection(),
        ),
    }
}

/// What the store of a database holds, where it can be read.
pub fn look<S: Alter>(alloc: Global, connection: Connection<S>) -> (Option<Held>, Connection<S>) {
    let mut keeper = SqliteKeeper::adopt(alloc, connection);
    let held = match keeper.load() {
        Ok(loaded) => Held::of(alloc, &loaded).ok(),
        Err(_) => None,
    };
    (held, keeper.into_connection())
}
