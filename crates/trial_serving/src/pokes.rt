// Links in memory whose clients are poked, served beside connections; and the bells alone.
mod coming;
mod told;

use crate::bells;
use crate::crew::{Counts, WatchingCrew};
use crate::serving::{serve_by_threads, serve_in_turn, serve_over};
use coming::{add_line, net_of};
use rv_base::Memory;
use rv_keeper::{Fails, MemoryKeeper};
use std::alloc::Global;
use std::sync::Wait;
use std::sync::atomic::Ordering;
use std::thread::Threads;
use told::told;
use trial_stage::Part::{Number, Text};
use trial_stage::{Stage, first_word, joined, named, number_in, silent};

#[derive(Clone, Copy)]
enum Command {
    Serial,
    Threads,
    Gates,
    Bell,
}

static COMMANDS: [(&str, Command); 4] = [
    ("serial", Command::Serial),
    ("threads", Command::Threads),
    ("gates", Command::Gates),
    ("bell", Command::Bell),
];

// Serves what comes by these lines one after the other, where a session looks once.
fn serial<R: Threads + Wait + Sync>(stage: &Stage<'_, R>, lines: &str) -> Result<String, Memory> {
    let alloc = stage.host.alloc();
    told(alloc, &serve_in_turn(stage, net_of(alloc, lines)?)?, 1)
}

// Serves by threads, where a session looks as often as it happens to hear the bell. Of each link's pokes is told how many they are, or
// that they are 1 to `most`.
fn threaded<R: Threads + Wait + Sync>(
    stage: &Stage<'_, R>,
    lines: &str,
    most: &str,
) -> Result<String, Memory> {
    let alloc = stage.host.alloc();
    let most = number_in(most).unwrap_or(1);
    told(
        alloc,
        &serve_by_threads(stage, net_of(alloc, lines)?)?,
        most,
    )
}

// The calls that fail of a keeper whose commit of this number fails after its changes; 0 is none.
fn fails_after(alloc: Global, commit: u64) -> Result<Vec<Fails>, Memory> {
    let mut schedule = Vec::new(alloc);
    if commit > 0 {
        schedule.push(Fails::After(commit))?;
    }
    Ok(schedule)
}

// Serves one after the other, over a keeper whose commit of this number fails after its changes, and tells at how many answers of the
// second worker its gate heard that something was entered.
fn gated<R: Threads + Wait + Sync>(
    stage: &Stage<'_, R>,
    lines: &str,
    commit: &str,
) -> Result<String, Memory> {
    let alloc = stage.host.alloc();
    let schedule = fails_after(alloc, number_in(commit).unwrap_or(0))?;
    let keeper = MemoryKeeper::new(alloc, schedule);
    let counts = Counts::new();
    let mut crew: WatchingCrew<'_, R> = WatchingCrew::new(None, false, &counts);
    let served = serve_over(
        alloc,
        stage.threads,
        &mut crew,
        net_of(alloc, lines)?,
        keeper,
    )?;
    let line = served.line(alloc)?;
    joined(
        alloc,
        &[
            Text("entered at "),
            Number(counts.answers.load(Ordering::SeqCst)),
            Text(" answers, "),
            Text(line.as_str()),
            Text("\n"),
        ],
    )
}

// What a command prints.
fn played<R: Threads + Wait + Sync>(
    stage: &Stage<'_, R>,
    lines: &str,
    command: Command,
    rest: &str,
) -> Result<Option<String>, Memory> {
    match command {
        Command::Serial => Ok(Some(serial(stage, lines)?)),
        Command::Threads => Ok(Some(threaded(stage, lines, rest)?)),
        Command::Gates => Ok(Some(gated(stage, lines, rest)?)),
        Command::Bell => bells::heard(stage.threads, stage.host.alloc(), rest),
    }
}

/// What a line on pokes prints, where it is one. `serial` and `threads MOST` serve what the lines of the case before it say that comes (see
/// `coming`): one after the other, or by threads. Printed are, for each link, what was sent to it and how many of its calls failed; how many
/// connections and links were served and are still to come, and how often their listeners told that none is; and how many entries the book
/// has. By threads it is left open how many pokes a link gets where several acts concern its user: from 1 to MOST are told as that. `gates COMMIT` serves
/// them one after the other over a keeper whose commit of this number fails after its changes, and prints at how many answers of status 200
/// of the second worker, which has the last listener but one, its gate heard that something was entered, and the entries. `bell
/// WORKERS EVENTS` is told at the function that plays it.
pub fn answer<R: Threads + Wait + Sync>(
    stage: &Stage<'_, R>,
    lines: &mut String,
    line: &str,
) -> Result<Option<String>, Memory> {
    let (word, rest) = first_word(line);
    match named(&COMMANDS, word) {
        Some(command) => played(stage, lines.as_str(), command, rest),
        None => silent(stage.host.alloc(), add_line(lines, line)),
    }
}
