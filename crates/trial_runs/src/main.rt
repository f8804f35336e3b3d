//! Runs of the program, case by case.
//!
//! The subject `scripts` feeds and reports over an input, an output and a place in memory: a case begins with the words `rv feed memory`,
//! no input, and a keeper that fails at no call. Once what a store holds is stated or kept, that store is
//! `kept`, and the words are `rv feed kept`. `files` runs words over the files of the folder, `serving` runs them over a net in memory,
//! and `words` tells what words ask for. A line that begins with `{` is a line of the input.
#![tactic(auto)]

mod case;
mod cells;
mod faults;
mod files;
mod machine;
mod running;
mod scripts;
mod serving;
mod stores;
mod views;
mod words;

use case::Case;
use rv_base::Memory;
use std::alloc::Global;
use std::io;
use std::sync::Wait;
use std::thread::Threads;
use trial_stage::{Line, Stage, echoed, kind_of, named, print_answer, silent};

// What the commands are of.
#[derive(Clone, Copy)]
enum Subject {
    Scripts,
    Files,
    Serving,
    Words,
}

static SUBJECTS: [(&str, Subject); 4] = [
    ("scripts", Subject::Scripts),
    ("files", Subject::Files),
    ("serving", Subject::Serving),
    ("words", Subject::Words),
];

// The case that is played.
#[derive(Drop)]
struct Runs {
    subject: Subject,
    case: Case,
}

impl Runs {
    // Begins a case, with nothing left of those before it.
    fn begin(&mut self, alloc: Global) -> Result<(), Memory> {
        self.case = Case::new(alloc);
        self.case.say(alloc, "rv feed memory")
    }

    // Begins the cases of a subject.
    fn begin_subject(&mut self, alloc: Global, subject: &str) -> Result<(), Memory> {
        self.subject = named(&SUBJECTS, subject).unwrap_or(self.subject);
        self.begin(alloc)
    }

    // What a command prints, where it is one.
    fn play<R: Threads + Wait + Sync>(
        &mut self,
        stage: &Stage<'_, R>,
        line: &str,
    ) -> Result<Option<String>, Memory> {
        match self.subject {
            Subject::Scripts => scripts::answer(stage, &mut self.case, line),
            Subject::Files => files::answer(stage, &mut self.case, line),
            Subject::Serving => serving::answer(stage, line),
            Subject::Words => words::asked(stage.host.alloc(), line),
        }
    }

    // What a line prints.
    fn answer<R: Threads + Wait + Sync>(
        &mut self,
        stage: &Stage<'_, R>,
        line: &str,
    ) -> Result<Option<String>, Memory> {
        let alloc = stage.host.alloc();
        match kind_of(line) {
            Line::Subject(name) => echoed(alloc, line, self.begin_subject(alloc, name)),
            Line::Case => echoed(alloc, line, self.begin(alloc)),
            Line::Note => silent(alloc, Ok(())),
            Line::Input => silent(alloc, self.case.add_line(line)),
            Line::Command => self.play(stage, line),
        }
    }
}

// Plays the lines of the input, one after another.
fn play_lines<R: Threads + Wait + Sync>(stage: &Stage<'_, R>, runs: &mut Runs) -> io::Result<()> {
    for line in stage.host.lines(stage.host.alloc()) {
        let line = line?;
        let answer = runs.answer(stage, line.as_str());
        print_answer(stage.host, line.as_str(), answer)?;
    }
    Ok(())
}

fn main(rt: HostRuntime) -> io::Result<()> {
    let stage = Stage {
        host: &rt,
        threads: &rt,
    };
    let mut runs = Runs {
        subject: Subject::Scripts,
        case: Case::new(rt.alloc()),
    };
    play_lines(&stage, &mut runs)
}
