// Scripts over stores in memory.
use crate::case::{Case, Way};
use crate::running::Pieces;
use crate::{faults, stores, views};
use rv_base::Memory;
use rv_keeper::Fails;
use std::alloc::Global;
use std::sync::Wait;
use std::thread::Threads;
use trial_stage::Part::Text;
use trial_stage::{Stage, first_word, joined, named, number_in};

// What runs the case.
#[derive(Clone, Copy)]
enum Play {
    Run,
    Once,
    Stops,
    FailingReads,
    FailingWrites,
    Length,
    Keep,
    Cells,
    Retire,
    Next,
    Held,
    View,
}

// What changes the case.
#[derive(Clone, Copy)]
enum Change {
    Words,
    Word,
    Text,
    Line,
    Byte,
    Blanks,
    Cell,
    Remove,
    Generation,
    Open,
    LoadFails,
    GenerationFails,
    BeforeFails,
    AfterFails,
    MemoryRefused,
    Comes(Way),
}

// What a command does.
#[derive(Clone, Copy)]
enum Command {
    Plays(Play),
    Changes(Change),
}

static COMMANDS: [(&str, Command); 29] = [
    ("run", Command::Plays(Play::Run)),
    ("once", Command::Plays(Play::Once)),
    ("stops", Command::Plays(Play::Stops)),
    ("failing-reads", Command::Plays(Play::FailingReads)),
    ("failing-writes", Command::Plays(Play::FailingWrites)),
    ("length", Command::Plays(Play::Length)),
    ("keep", Command::Plays(Play::Keep)),
    ("cells", Command::Plays(Play::Cells)),
    ("retire", Command::Plays(Play::Retire)),
    ("next", Command::Plays(Play::Next)),
    ("held", Command::Plays(Play::Held)),
    ("view", Command::Plays(Play::View)),
    ("words", Command::Changes(Change::Words)),
    ("word", Command::Changes(Change::Word)),
    ("text", Command::Changes(Change::Text)),
    ("line", Command::Changes(Change::Line)),
    ("byte", Command::Changes(Change::Byte)),
    ("blanks", Command::Changes(Change::Blanks)),
    ("cell", Command::Changes(Change::Cell)),
    ("remove", Command::Changes(Change::Remove)),
    ("generation-is", Command::Changes(Change::Generation)),
    ("open", Command::Changes(Change::Open)),
    ("load", Command::Changes(Change::LoadFails)),
    ("generation", Command::Changes(Change::GenerationFails)),
    ("before", Command::Changes(Change::BeforeFails)),
    ("after", Command::Changes(Change::AfterFails)),
    ("memory", Command::Changes(Change::MemoryRefused)),
    (
        "connection",
        Command::Changes(Change::Comes(Way::Connection)),
    ),
    (
        "no-connection",
        Command::Changes(Change::Comes(Way::NoConnection)),
    ),
];

// Runs the case in pieces of 1, 7 and 100,000 bytes, and prints what comes where it is the same.
fn run_in_pieces<R: Threads + Wait + Sync>(
    stage: &Stage<'_, R>,
    case: &Case,
) -> Result<String, Memory> {
    let whole = case.run(stage, Pieces::of(100_000))?;
    let sevens = case.run(stage, Pieces::of(7))?;
    let ones = case.run(stage, Pieces::of(1))?;
    if whole.is_as(&sevens) && whole.is_as(&ones) {
        whole.joined(stage.host.alloc())
    } else {
        joined(stage.host.alloc(), &[Text("differs\n")])
    }
}

// Runs the case with a stop after each line.
fn run_with_stops<R: Threads + Wait + Sync>(
    stage: &Stage<'_, R>,
    case: &Case,
) -> Result<String, Memory> {
    let alloc = stage.host.alloc();
    let stopped = case.with_stops(alloc)?;
    case.run_on(stage, &stopped, Pieces::of(100_000))?
        .joined(alloc)
}

// Runs the case.
fn run_once<R: Threads + Wait + Sync>(stage: &Stage<'_, R>, case: &Case) -> Result<String, Memory> {
    case.run(stage, Pieces::of(100_000))?
        .joined(stage.host.alloc())
}

// Runs the case, and prints what it is asked for.
fn played<R: Threads + Wait + Sync>(
    stage: &Stage<'_, R>,
    case: &mut Case,
    play: Play,
    rest: &str,
) -> Result<String, Memory> {
    match play {
        Play::Run => run_in_pieces(stage, case),
        Play::Once => run_once(stage, case),
        Play::Stops => run_with_stops(stage, case),
        Play::FailingReads => faults::each(stage, case, true),
        Play::FailingWrites => faults::each(stage, case, false),
        Play::Length => stores::length(stage, case),
        Play::Keep => stores::keep(stage, case),
        Play::Cells => stores::cells(stage, case),
        Play::Retire => stores::retire(stage, case, rest),
        Play::Next => stores::next(stage, case),
        Play::Held => stores::held(stage.host.alloc(), case, rest),
        Play::View => views::read(stage.host.alloc(), &case.input),
    }
}

// Changes the case. `words WORD ..` takes other words, `word TEXT` adds one more; `text TEXT` adds a text to the input that no LF
// ends, `line TEXT` one that LF ends, `byte N` a byte, `blanks N` so many blanks. `cell SHELF KEY BODY` writes a cell of the store, over
// one at its place, `remove SHELF KEY` takes one away, and `generation-is N` sets its generation. `open N` fails the Nth call for a keeper; `load N`,
// `generation N`, `before N` and `after N` the keeper's Nth load, its Nth question for the generation, and its Nth commit, before
// its changes and after them; `memory N` has memory refused to its Nth commit. After `connection` the lines come over a connection, and
// what is written to it is told before what is written to the output; after `no-connection` no connection comes.
fn make_change(alloc: Global, case: &mut Case, change: Change, rest: &str) -> Result<(), Memory> {
    let number = number_in(rest).unwrap_or(0);
    match change {
        Change::Words => case.say(alloc, rest),
        Change::Word => case.add_word(alloc, rest),
        Change::Text => case.add_bytes(rest.as_bytes()),
        Change::Line => case.add_line(rest),
        Change::Byte => case.add_bytes(&[number.min(255) as u8]),
        Change::Blanks => case.add_blanks(number),
        Change::Cell => case.put(alloc, rest),
        Change::Remove => case.remove(alloc, rest),
        Change::Generation => case.set_generation(alloc, number),
        Change::Open => case.fail_opening(number),
        Change::LoadFails => case.fail(Fails::Load(number)),
        Change::GenerationFails => case.fail(Fails::Generation(number)),
        Change::BeforeFails => case.fail(Fails::Before(number)),
        Change::AfterFails => case.fail(Fails::After(number)),
        Change::MemoryRefused => case.fail(Fails::Memory(number)),
        Change::Comes(way) => case.come(way),
    }
}

/// What a command of a script prints, where it is one.
pub fn answer<R: Threads + Wait + Sync>(
    stage: &Stage<'_, R>,
    case: &mut Case,
    line: &str,
) -> Result<Option<String>, Memory> {
    let (word, rest) = first_word(line);
    match named(&COMMANDS, word) {
        Some(Command::Plays(play)) => Ok(Some(played(stage, case, play, rest)?)),
        Some(Command::Changes(change)) => {
            let alloc = stage.host.alloc();
            make_change(alloc, case, change, rest)?;
            Ok(Some(String::new(alloc)))
        }
        None => Ok(None),
    }
}
