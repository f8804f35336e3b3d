// Runs over the files of the folder.
use crate::case::Case;
use crate::machine::{accounts_here, run_here};
use crate::running::Pieces;
use rv_base::{Fault, Memory};
use rv_doubles::MemoryNet;
use rv_keeper::Place;
use rv_place::{FileOpener, RunPlace, Start, Unknown, end_run};
use std::alloc::Global;
use std::sync::Wait;
use std::thread::Threads;
use std::{fs, mem};
use trial_stage::Part::{Number, Text};
use trial_stage::{Stage, first_word, joined, named, text_of};

#[derive(Clone, Copy)]
enum Command {
    Run,
    Accounts,
    WhileOpen,
    Remember,
    Is,
    Line,
}

static COMMANDS: [(&str, Command); 6] = [
    ("rv", Command::Run),
    ("accounts", Command::Accounts),
    ("while-open", Command::WhileOpen),
    ("remember", Command::Remember),
    ("is", Command::Is),
    ("line", Command::Line),
];

// `remember FILE`: the file's bytes, which `is FILE` compares. Prints whether the file can be read.
fn remember(rt: &HostRuntime, case: &mut Case, path: &str) -> Result<String, Memory> {
    match fs::read(rt, path) {
        Ok(bytes) => {
            case.remembered = bytes;
            Ok(String::new(rt.alloc()))
        }
        Err(_) => joined(rt.alloc(), &[Text("no file\n")]),
    }
}

// Whether the bytes are those that were remembered.
fn sameness(case: &Case, bytes: &[u8]) -> &'static str {
    if bytes == case.remembered.as_slice() {
        "as it was\n"
    } else {
        "changed\n"
    }
}

// `is FILE`: whether the file has the bytes that were remembered.
fn compare(rt: &HostRuntime, case: &Case, path: &str) -> Result<String, Memory> {
    let text = match fs::read(rt, path) {
        Ok(bytes) => sameness(case, &bytes),
        Err(_) => "no file\n",
    };
    joined(rt.alloc(), &[Text(text)])
}

// `line TEXT`: one more line of the input, of any text.
fn add_line(alloc: Global, case: &mut Case, text: &str) -> Result<String, Memory> {
    case.add_line(text)?;
    Ok(String::new(alloc))
}

// `rv WORD ..`: runs these words over the lines since the last run, and prints what was written and the status.
fn run_words<R: Threads + Wait + Sync>(
    stage: &Stage<'_, R>,
    case: &mut Case,
    line: &str,
) -> Result<String, Memory> {
    let alloc = stage.host.alloc();
    case.say(alloc, line)?;
    let input = mem::replace(&mut case.input, Vec::new(alloc));
    let mut net = MemoryNet::new(alloc, Vec::new(alloc), Vec::new(alloc), Vec::new(alloc))?;
    run_here(
        stage,
        &case.words,
        &input,
        Pieces::of(100_000),
        &mut net,
        Unknown,
    )?
    .joined(alloc)
}

// `while-open STORE`: feeds the store while its keeper is out elsewhere.
fn run_beside<R: Threads + Wait + Sync, S: Start + Send>(
    stage: &Stage<'_, R>,
    case: &mut Case,
    store: &str,
    start: S,
) -> Result<String, Memory> {
    let alloc = stage.host.alloc();
    let line = joined(alloc, &[Text("rv feed "), Text(store)])?;
    let mut beside = RunPlace::new(alloc, FileOpener::new(stage.host), start);
    let text = match beside.open_keeper(store) {
        Ok(kept) => {
            let text = run_words(stage, case, line.as_str());
            beside.close_keeper(store, kept);
            text
        }
        Err(_) => joined(alloc, &[Text("no keeper\n")]),
    };
    end_run(beside);
    text
}

// What is printed where no file is read.
fn fault_text(fault: Fault) -> &'static str {
    match fault {
        Fault::Failed => "the keeper failed",
        Fault::Memory => "out of memory",
    }
}

// `accounts FILE`: what a place reads of an accounts file; or why it reads none, and how many faults it counts for that.
fn read_accounts(rt: &HostRuntime, path: &str) -> Result<String, Memory> {
    let alloc = rt.alloc();
    let (read, faults) = accounts_here(rt, path, Unknown);
    match read {
        Ok(bytes) => {
            let count = bytes.len() as u64;
            let text = text_of(bytes.as_slice());
            joined(alloc, &[Number(count), Text(" bytes\n"), Text(text)])
        }
        Err(fault) => {
            let text = fault_text(fault);
            Ok(format!(in alloc; "{text}, faults {faults}\n")?)
        }
    }
}

// What a command prints.
fn played<R: Threads + Wait + Sync>(
    stage: &Stage<'_, R>,
    case: &mut Case,
    command: Command,
    line: &str,
    rest: &str,
) -> Result<String, Memory> {
    match command {
        Command::Run => run_words(stage, case, line),
        Command::Accounts => read_accounts(stage.host, rest),
        Command::WhileOpen => run_beside(stage, case, rest, Unknown),
        Command::Remember => remember(stage.host, case, rest),
        Command::Is => compare(stage.host, case, rest),
        Command::Line => add_line(stage.host.alloc(), case, rest),
    }
}

/// What a command on files prints, where it is one.
pub fn answer<R: Threads + Wait + Sync>(
    stage: &Stage<'_, R>,
    case: &mut Case,
    line: &str,
) -> Result<Option<String>, Memory> {
    let (word, rest) = first_word(line);
    match named(&COMMANDS, word) {
        Some(command) => Ok(Some(played(stage, case, command, line, rest)?)),
        None => Ok(None),
    }
}
