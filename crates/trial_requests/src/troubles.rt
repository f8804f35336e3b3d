// A script with a trouble at each of its commits, beside the same script without.
use crate::answering::fed;
use crate::script::{Sent, send_all};
use rv_base::{Memory, Sequence};
use rv_book::Entry;
use rv_keeper::{Cell, Fails, MemoryKeeper, Schedule};
use std::alloc::Global;
use trial_stage::Part::{Number, Text};
use trial_stage::{append_parts, count_lines, text_of};

// What befalls a commit: it fails before its changes or after them, memory is refused to it, or the server is stopped after the line
// that it was made for.
#[derive(Clone, Copy)]
enum Kind {
    Before,
    After,
    Memory,
    Stop,
}

static KINDS: [(&str, Kind); 4] = [
    ("before", Kind::Before),
    ("after", Kind::After),
    ("memory", Kind::Memory),
    ("stop", Kind::Stop),
];

// How many looks an entry is.
fn looks(entry: &Entry) -> u64 {
    match entry {
        Entry::Look { .. } => 1,
        Entry::Act { .. } => 0,
        Entry::Retire { .. } => 0,
    }
}

// What befalls the commit of this number, from 1, where it is not 0.
#[derive(Clone, Copy)]
struct Trouble {
    kind: Kind,
    commit: usize,
}

impl Trouble {
    // The schedule of the keeper.
    fn schedule(self, alloc: Global) -> Result<Schedule, Memory> {
        let commit = self.commit as u64;
        let mut schedule = Sequence::new(alloc);
        match self.kind {
            Kind::Before => schedule.push(Fails::Before(commit))?,
            Kind::After => schedule.push(Fails::After(commit))?,
            Kind::Memory => schedule.push(Fails::Memory(commit))?,
            Kind::Stop => {}
        }
        Ok(schedule)
    }

    // The place of the entry that a stop follows, or 0.
    fn stop(self) -> usize {
        match self.kind {
            Kind::Stop => self.commit,
            _ => 0,
        }
    }

    // How many entries it adds, where this is the entry of its commit: a pull that was kept and is sent again looks twice.
    fn looks_more(self, entry: &Entry) -> u64 {
        match self.kind {
            Kind::After => looks(entry),
            _ => 0,
        }
    }
}

// What a script comes to.
#[derive(Drop)]
struct Played {
    sent: Sent,
    // Whether a desk answers the lines as the plain server does.
    is_answered: bool,
    // The rows without their versions, and the clients with their last ids.
    rows: String,
    entries: u64,
}

// The body of a row's cell without the version.
fn without_version(body: &str) -> &str {
    match body.split_once(',') {
        Some((_, row)) => row,
        None => body,
    }
}

// Adds a row without its version, or a client with its last id. Nothing else is added.
fn add_cell(alloc: Global, text: &mut String, cell: &Cell) -> Result<(), Memory> {
    let key = text_of(cell.key.as_slice());
    let body = text_of(cell.body.as_slice());
    match cell.shelf {
        2 => append_parts(
            alloc,
            text,
            &[
                Text(key),
                Text(" "),
                Text(without_version(body)),
                Text("\n"),
            ],
        ),
        3 => append_parts(alloc, text, &[Text(key), Text(" "), Text(body), Text("\n")]),
        _ => Ok(()),
    }
}

// The rows and the clients of these cells.
fn rows_of(alloc: Global, cells: &[Cell]) -> Result<String, Memory> {
    let mut text = String::new(alloc);
    for cell in cells {
        add_cell(alloc, &mut text, cell)?;
    }
    Ok(text)
}

// What a script comes to with a trouble.
fn play_with(alloc: Global, script: &str, trouble: Trouble) -> Result<Played, Memory> {
    let sent = send_all(alloc, script, trouble.schedule(alloc)?, trouble.stop())?;
    let schedule = trouble.schedule(alloc)?.into_vec();
    let (told, keeper) = fed(
        alloc,
        MemoryKeeper::new(alloc, schedule),
        sent.lines.as_str(),
    );
    let told = told?;
    let cells = keeper.shelves.cells(alloc)?;
    Ok(Played {
        is_answered: told.as_str() == sent.answers.as_str(),
        rows: rows_of(alloc, cells.as_slice())?,
        entries: keeper.generation,
        sent,
    })
}

// How a script with a trouble that adds so many entries differs from the one without. An empty text is that it does not.
fn difference(without: &Played, with: &Played, more: u64) -> &'static str {
    if !with.is_answered {
        return "other answers";
    }
    if with.rows.as_str() != without.rows.as_str() {
        return "other rows or clients";
    }
    if with.entries != without.entries.saturating_add(more) {
        return "another number of entries";
    }
    ""
}

// What came of the troubles of a kind.
#[derive(Clone, Copy)]
struct Counts {
    tried: u64,
    keeper: u64,
    memory: u64,
    looks_more: u64,
}

impl Counts {
    // Counts one more, which adds so many entries.
    fn add(&mut self, answers: &str, more: u64) {
        self.tried = self.tried.saturating_add(1);
        self.looks_more = self.looks_more.saturating_add(more);
        let keeper = count_lines(answers, "503 {\"error\":\"keeper\"}");
        self.keeper = self.keeper.saturating_add(keeper);
        let memory = count_lines(answers, "503 {\"error\":\"memory\"}");
        self.memory = self.memory.saturating_add(memory);
    }

    // Adds them to a text, as a line.
    fn add_to(&self, alloc: Global, text: &mut String, name: &str) -> Result<(), Memory> {
        append_parts(
            alloc,
            text,
            &[
                Text(name),
                Text(": "),
                Number(self.tried),
                Text(" tried, answered keeper "),
                Number(self.keeper),
                Text(" and memory "),
                Number(self.memory),
                Text(", with a look more "),
                Number(self.looks_more),
                Text("\n"),
            ],
        )
    }
}

// Adds how a trouble of a kind differs, as a line, where it does.
fn add_difference<'x>(
    alloc: Global,
    text: &mut String,
    name: &'x str,
    commit: usize,
    difference: &'x str,
) -> Result<(), Memory> {
    if difference.is_empty() {
        return Ok(());
    }
    append_parts(
        alloc,
        text,
        &[
            Text(name),
            Text(" "),
            Number(commit as u64),
            Text(": "),
            Text(difference),
            Text("\n"),
        ],
    )
}

// Adds what comes of a script with a trouble of a kind at each of its commits.
fn add_kind(
    alloc: Global,
    script: &str,
    without: &Played,
    (name, kind): (&str, Kind),
    text: &mut String,
) -> Result<(), Memory> {
    let mut counts = Counts {
        tried: 0,
        keeper: 0,
        memory: 0,
        looks_more: 0,
    };
    let mut commit: usize = 0;
    for entry in without.sent.plain.book().entries() {
        commit = commit.saturating_add(1);
        let trouble = Trouble { kind, commit };
        let more = trouble.looks_more(entry);
        let with = play_with(alloc, script, trouble)?;
        counts.add(with.sent.answers.as_str(), more);
        add_difference(alloc, text, name, commit, difference(without, &with, more))?;
    }
    counts.add_to(alloc, text, name)
}

/// `troubles`: what comes of a script where one of its commits fails before its changes, or after them, or is refused memory, or where a
/// stop follows the line that it was made for, each commit in turn. The script sends again each line that is answered 503, and in place
/// of `"answered"` the cookie that it was answered last. The plain server says what must be answered. Without the trouble the rows but for
/// their versions, the clients' last ids and the number of entries are the same, but for a look that was kept and is made again.
pub fn told(alloc: Global, script: &str) -> Result<Option<String>, Memory> {
    let none = Trouble {
        kind: Kind::Stop,
        commit: 0,
    };
    let without = play_with(alloc, script, none)?;
    let mut text = String::new(alloc);
    add_difference(
        alloc,
        &mut text,
        "none",
        0,
        difference(&without, &without, 0),
    )?;
    for (name, kind) in &KINDS {
        add_kind(alloc, script, &without, (*name, *kind), &mut text)?;
    }
    Ok(Some(text))
}
