// The bells of the crew by threads, alone: gates ring them, and a bell is asked what it has heard.
use rv_base::Memory;
use rv_poke::{Bell, Waited};
use rv_serve::Gate;
use rv_workers::{Bells, RingingGate, WordBell};
use std::alloc::Global;
use std::sync::Wait;
use std::sync::atomic::AtomicU64;
use std::thread;
use std::thread::Threads;
use std::time::Duration;
use trial_stage::{first_word, number_in};

// How long a gate waits before it rings beside a wait, in milliseconds: mostly until the wait sleeps.
const PAUSE: u64 = 5;

// What a bell can know, so that no wait is begun that would not end.
#[derive(Clone, Copy)]
struct Known {
    // After how many leaves it is over.
    workers: u64,
    // How often something was entered.
    rings: u64,
    // Of how many of these it was told, or knew when it was made.
    heard: u64,
    // How many workers have left.
    leaves: u64,
}

impl Known {
    // Whether a wait ends at once.
    fn ends_at_once(&self) -> bool {
        self.rings != self.heard || self.leaves >= self.workers
    }

    // Whether a wait sleeps, and ends with the next leave.
    fn ends_with_a_leave(&self) -> bool {
        !self.ends_at_once() && self.leaves.saturating_add(1) == self.workers
    }
}

// What a wait that has ended prints.
fn letter(waited: Waited) -> &'static str {
    match waited {
        Waited::Rung => "R",
        Waited::Quiet => "Q",
        Waited::Over => "O",
    }
}

// Sleeps a little: nobody wakes the word.
fn pause<R: Wait>(rt: &R) {
    AtomicU64::new(0).park_timeout(rt, 0, Duration::from_millis(PAUSE));
}

// What a wait ends with, while beside it a gate rings a little later, or its worker leaves. Where no thread can be had for the wait, it
// begins after that.
fn wait_beside<R: Threads + Wait + Sync>(
    rt: &R,
    bell: &mut WordBell<'_>,
    bells: &Bells,
    rings: bool,
) -> Waited {
    let mut wait = || bell.wait(rt);
    let mut ring = || {
        pause(rt);
        let mut gate = RingingGate::new(bells);
        if rings {
            gate.after(200, true);
        } else {
            gate.leave();
        }
    };
    let (waited, ()) = thread::join_mut(rt, &mut wait, &mut ring);
    waited
}

// Bells, and one bell that hears them.
#[derive(Drop)]
struct Tower<'x> {
    bells: &'x Bells,
    bell: WordBell<'x>,
    workers: u32,
    known: Known,
}

impl<'x> Tower<'x> {
    fn new(bells: &'x Bells, workers: u32) -> Tower<'x> {
        Tower {
            bells,
            bell: WordBell::new(bells, workers),
            workers,
            known: Known {
                workers: u64::from(workers),
                rings: 0,
                heard: 0,
                leaves: 0,
            },
        }
    }

    // A request was read, and passes its gate.
    fn pass(&mut self) -> &'static str {
        RingingGate::new(self.bells).before(1);
        "-"
    }

    // A request was answered.
    fn answer(&mut self, entered: bool) -> &'static str {
        RingingGate::new(self.bells).after(200, entered);
        if entered {
            self.known.rings = self.known.rings.saturating_add(1);
        }
        "-"
    }

    // A worker leaves.
    fn leave(&mut self) -> &'static str {
        RingingGate::new(self.bells).leave();
        self.known.leaves = self.known.leaves.saturating_add(1);
        "-"
    }

    // Another bell takes the place of this one.
    fn replace(&mut self) -> &'static str {
        self.bell = WordBell::new(self.bells, self.workers);
        self.known.heard = self.known.rings;
        "-"
    }

    // What a wait ends with, if it ends.
    fn wait<R: Wait>(&mut self, rt: &R) -> &'static str {
        if !self.known.ends_at_once() {
            return "?";
        }
        self.known.heard = self.known.rings;
        letter(self.bell.wait(rt))
    }

    // What a wait ends with that sleeps until something acts.
    fn wait_for_an_act<R: Threads + Wait + Sync>(&mut self, rt: &R) -> &'static str {
        if self.known.ends_at_once() {
            return "?";
        }
        self.known.rings = self.known.rings.saturating_add(1);
        self.known.heard = self.known.rings;
        letter(wait_beside(rt, &mut self.bell, self.bells, true))
    }

    // What a wait ends with that sleeps until the last worker leaves.
    fn wait_for_the_end<R: Threads + Wait + Sync>(&mut self, rt: &R) -> &'static str {
        if !self.known.ends_with_a_leave() {
            return "?";
        }
        self.known.leaves = self.known.leaves.saturating_add(1);
        letter(wait_beside(rt, &mut self.bell, self.bells, false))
    }

    // Whether the bell says that all is over.
    fn ask(&self) -> &'static str {
        if self.bell.is_over() { "y" } else { "n" }
    }

    // What an event prints.
    fn play<R: Threads + Wait + Sync>(&mut self, rt: &R, event: char) -> &'static str {
        match event {
            'b' => self.pass(),
            'a' => self.answer(true),
            'n' => self.answer(false),
            'l' => self.leave(),
            'm' => self.replace(),
            'o' => self.ask(),
            'w' => self.wait(rt),
            'A' => self.wait_for_an_act(rt),
            'L' => self.wait_for_the_end(rt),
            _ => "!",
        }
    }
}

// What these events print.
fn played<R: Threads + Wait + Sync>(
    rt: &R,
    alloc: Global,
    workers: u32,
    events: &str,
) -> Result<String, Memory> {
    let bells = Bells::new();
    let mut tower = Tower::new(&bells, workers);
    let mut text = String::new(alloc);
    for event in events.chars() {
        text.push_str(tower.play(rt, event))?;
    }
    text.push_str("\n")?;
    Ok(text)
}

/// What `WORKERS EVENTS` prints, a character for each event, over a bell that is over once so many workers have left: `b` a request was
/// read, `a` it was answered and something was entered, `n` it was and nothing did, `l` a worker leaves, and `m` another bell takes the place
/// of this one (`-` each); `w` the bell is waited for (`R` where it was rung, `O` where all is over, `?` where the wait would not end); `A`
/// and `L` it is waited for while beside that something acts, or the last worker leaves, a little later (the same letters, `?` where the
/// wait would end before that, or would not end); `o` it is asked whether all is over (`y` or `n`).
pub fn heard<R: Threads + Wait + Sync>(
    rt: &R,
    alloc: Global,
    words: &str,
) -> Result<Option<String>, Memory> {
    let (workers, events) = first_word(words);
    let Some(workers) = number_in(workers) else {
        return Ok(None);
    };
    match u32::try_from(workers) {
        Ok(workers) => Ok(Some(played(rt, alloc, workers, events)?)),
        Err(_) => Ok(None),
    }
}
