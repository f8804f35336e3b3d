// The bells of a run, and the gates that ring them.
ghost use Rattle.std.specs.Prelude.{◌≡◌, IfNone, IfSome};
ghost use Rattle.rv_poke.specs.Bells.{HasWaited, unasked};
ghost use Rattle.rv_workers.specs.Ringing.{word_bell_state};

use rv_poke::{Bell, Waited};
use rv_serve::Gate;
use std::sync::Wait;
use std::sync::atomic::{AtomicU64, Ordering};
use std::time::Duration;

// What one ring adds to the word: below it there is space for as many workers as may leave.
const RING: u64 = 256;

// A wait sleeps while these bits of the word are as they were.
const LOW: u64 = 1 << 32;

// A wait sleeps so many times, for so many seconds at most, and then the bell was silent. A sleep may end early, as where the ring of which a
// wait has told wakes it once more: so it is a minute, or a little less.
const SLEEPS: u32 = 12;

const SLEEP_SECONDS: u64 = 5;

/// What the workers of one run tell its poke jobs, in one word: in its low 8 bits how many workers have left, and above them how often
/// something was entered that others may have to be told of. A change of it wakes all who wait.
#[derive(Drop)]
pub struct Bells {
    word: AtomicU64,
}

impl Bells {
    /// Nothing was entered, and no worker has left.
    pub fn new() -> Bells {
        Bells {
            word: AtomicU64::new(0),
        }
    }

    // Adds to the word, and wakes all who wait for it.
    fn add(&self, more: u64) {
        self.word.fetch_add(more, Ordering::SeqCst);
        self.word.wake_all();
    }

    // The word as it is now.
    fn word(&self) -> u64 {
        self.word.load(Ordering::SeqCst)
    }
}

/// A gate that holds no request, rings all bells after each one in which something was entered, and tells them that its worker leaves. It tells
/// nothing of what it has heard.
#[derive(Drop)]
pub struct RingingGate<'r> {
    bells: &'r Bells,
}

impl<'r> RingingGate<'r> {
    /// A gate that rings these bells.
    pub fn new(bells: &'r Bells) -> RingingGate<'r> {
        RingingGate { bells }
    }
}

impl Gate for RingingGate<'_> {
    ghost use Rattle.std.specs.Prelude.{None};

    ghost heard = { λ gate. None };

    fn before(&mut self, _number: u32) {}

    fn after(&mut self, _status: u16, entered: bool) {
        if entered {
            self.bells.add(RING);
        }
    }

    fn leave(&mut self) {
        self.bells.add(1);
    }
}

/// A bell that is rung where something was entered since it was asked last, and over once so many workers have left. A ring that is not yet
/// heard comes before the end. It was silent where it was not rung for about a minute.
#[derive(Drop)]
pub struct WordBell<'r> {
    bells: &'r Bells,
    workers: u64,
    // How many rings there were when it was asked last.
    heard: u64,
    /// How often a wait ended as it was rung. It stands still at 2^64 - 1.
    pub rungs: u64,
    /// How often a wait ended as it was silent. It stands still at 2^64 - 1.
    pub quiets: u64,
    /// How often a wait ended as all was over. It stands still at 2^64 - 1.
    pub overs: u64,
}

impl<'r> WordBell<'r> {
    /// A bell that is over once so many workers have left. Of what was entered before it knows already.
    pub fn new(bells: &'r Bells, workers: u32) -> WordBell<'r>
        ensures { word_bell_state result ≡ unasked }
    {
        WordBell {
            bells,
            workers: u64::from(workers),
            heard: bells.word() / RING,
            rungs: 0,
            quiets: 0,
            overs: 0,
        }
    }

    // What the word tells, if it tells anything yet.
    fn hear(&mut self, word: u64) -> Option<Waited>
        ensures told { IfSome result (HasWaited (word_bell_state self.old) (word_bell_state self.new)) }
        ensures same { IfNone result (self.new ≡ self.old) }
    {
        let rings = word / RING;
        if rings != self.heard {
            self.heard = rings;
            self.rungs = self.rungs.saturating_add(1);
            return Some(Waited::Rung);
        }
        if word % RING >= self.workers {
            self.overs = self.overs.saturating_add(1);
            return Some(Waited::Over);
        }
        None
    }
}

impl Bell for WordBell<'_> {
    ghost state = { word_bell_state };

    fn wait<R: Wait>(&mut self, rt: &R) -> Waited {
        let most = Duration::from_secs(SLEEP_SECONDS);
        for _sleep in 0..SLEEPS {
            let word = self.bells.word();
            if let Some(waited) = self.hear(word) {
                return waited;
            }
            self.bells.word.park_timeout(rt, (word % LOW) as u32, most);
        }
        if let Some(waited) = self.hear(self.bells.word()) {
            return waited;
        }
        self.quiets = self.quiets.saturating_add(1);
        Waited::Quiet
    }

    fn is_over(&self) -> bool {
        self.bells.word() % RING >= self.workers
    }
}
