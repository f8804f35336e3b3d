//! Connections, links and workers over a desk that keeps its book in memory.
//!
//! The subject `connections` serves connections whose bytes stand in files, `workers` has workers serve several, `pokes` serves links
//! beside them, and rings bells; `histories` has workers serve connections that are drawn, and compares them with one order of their
//! requests.
#![tactic(auto)]

mod bells;
mod cells;
mod connections;
mod crew;
mod drawn;
mod history;
mod nets;
mod order;
mod pokes;
mod sending;
mod serving;
mod workers;

use rv_base::Memory;
use std::alloc::Global;
use std::io;
use std::sync::Wait;
use std::thread::Threads;
use trial_stage::{Line, Stage, echoed, kind_of, named, print_answer, silent};

// What the commands are of.
#[derive(Clone, Copy)]
enum Subject {
    Connections,
    Workers,
    Pokes,
    Histories,
}

static SUBJECTS: [(&str, Subject); 4] = [
    ("connections", Subject::Connections),
    ("workers", Subject::Workers),
    ("pokes", Subject::Pokes),
    ("histories", Subject::Histories),
];

// The subject, and the lines of the case that say what comes.
#[derive(Drop)]
struct Trial {
    subject: Subject,
    lines: String,
}

impl Trial {
    // Begins a case.
    fn begin(&mut self, alloc: Global, line: &str) -> Result<Option<String>, Memory> {
        self.lines.clear();
        echoed(alloc, line, Ok(()))
    }

    // Begins the cases of a subject.
    fn begin_subject(
        &mut self,
        alloc: Global,
        line: &str,
        name: &str,
    ) -> Result<Option<String>, Memory> {
        self.subject = named(&SUBJECTS, name).unwrap_or(self.subject);
        self.begin(alloc, line)
    }

    // What a command prints, where it is one.
    fn play<R: Threads + Wait + Sync>(
        &mut self,
        stage: &Stage<'_, R>,
        line: &str,
    ) -> Result<Option<String>, Memory> {
        match self.subject {
            Subject::Connections => connections::answer(stage, line),
            Subject::Workers => workers::answer(stage, line),
            Subject::Pokes => pokes::answer(stage, &mut self.lines, line),
            Subject::Histories => history::answer(stage, line),
        }
    }

    // What a line prints.
    fn answer<R: Threads + Wait + Sync>(
        &mut self,
        stage: &Stage<'_, R>,
        line: &str,
    ) -> Result<Option<String>, Memory> {
        let alloc = stage.host.alloc();
        match kind_of(line) {
            Line::Subject(name) => self.begin_subject(alloc, line, name),
            Line::Case => self.begin(alloc, line),
            Line::Note => silent(alloc, Ok(())),
            Line::Input => Ok(None),
            Line::Command => self.play(stage, line),
        }
    }
}

// Plays the lines of the input, one after another.
fn play_lines<R: Threads + Wait + Sync>(stage: &Stage<'_, R>) -> io::Result<()> {
    let mut trial = Trial {
        subject: Subject::Connections,
        lines: String::new(stage.host.alloc()),
    };
    for line in stage.host.lines(stage.host.alloc()) {
        let line = line?;
        let answer = trial.answer(stage, line.as_str());
        print_answer(stage.host, line.as_str(), answer)?;
    }
    Ok(())
}

fn main(rt: HostRuntime) -> io::Result<()> {
    play_lines(&Stage {
        host: &rt,
        threads: &rt,
    })
}
