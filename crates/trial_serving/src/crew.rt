// A crew whose gates look at what they hear, and may hold the first worker's requests until the second has answered one.
use rv_base::Memory;
use rv_doubles::MemoryBell;
use rv_serve::Gate;
use rv_workers::Crew;
use std::sync::atomic::{AtomicU64, Ordering};
use std::thread;
use std::thread::Threads;

// How often the first worker's gate spins until the second has answered.
const SPINS: u32 = 1_000_000;

/// What the gates of a run count.
#[derive(Drop)]
pub struct Counts {
    /// The answers of status 200 of the second worker, in whose turns something was entered.
    pub answers: AtomicU64,
    /// How often the first worker's gate gave up.
    pub given_up: AtomicU64,
    /// How often a gate heard what should not come then.
    pub misheard: AtomicU64,
}

impl Counts {
    /// Nothing was counted.
    pub fn new() -> Counts {
        Counts {
            answers: AtomicU64::new(0),
            given_up: AtomicU64::new(0),
            misheard: AtomicU64::new(0),
        }
    }
}

/// The gate of a worker. It must hear the requests of each connection by their numbers, from 1 on, and after each of them its end; and
/// last, once, that the worker leaves.
#[derive(Drop)]
pub struct WatchingGate<'x> {
    holds: bool,
    is_second: bool,
    last: u32,
    is_open: bool,
    has_left: bool,
    counts: &'x Counts,
}

impl WatchingGate<'_> {
    // Counts a call that should not come now. After the worker has left none should.
    fn hear(&self, is_right: bool) {
        if self.has_left || !is_right {
            self.counts.misheard.fetch_add(1, Ordering::SeqCst);
        }
    }

    // Waits until the second worker has answered a request.
    fn hold(&self) {
        for _ in 0..SPINS {
            if self.counts.answers.load(Ordering::SeqCst) > 0 {
                return;
            }
            thread::yield_now();
        }
        self.counts.given_up.fetch_add(1, Ordering::SeqCst);
    }
}

impl Gate for WatchingGate<'_> {
    ghost use Rattle.std.specs.Prelude.{None};

    ghost heard = { λ gate. None };

    fn before(&mut self, number: u32) {
        self.hear(!self.is_open && (number == 1 || number == self.last.wrapping_add(1)));
        self.last = number;
        self.is_open = true;
        if self.holds {
            self.hold();
        }
    }

    fn after(&mut self, status: u16, entered: bool) {
        self.hear(self.is_open);
        self.is_open = false;
        if self.is_second && status == 200 && entered {
            self.counts.answers.fetch_add(1, Ordering::SeqCst);
        }
    }

    fn leave(&mut self) {
        self.hear(!self.is_open);
        self.has_left = true;
    }
}

/// A crew with such gates, and with threads or without. To its bells all is over.
#[derive(Drop)]
pub struct WatchingCrew<'x, R: Threads + Sync> {
    runtime: Option<&'x R>,
    holds: bool,
    counts: &'x Counts,
}

impl<'x, R: Threads + Sync> WatchingCrew<'x, R> {
    /// A crew with threads or without. The first worker's gate may hold its requests.
    pub fn new(runtime: Option<&'x R>, holds: bool, counts: &'x Counts) -> WatchingCrew<'x, R> {
        WatchingCrew {
            runtime,
            holds,
            counts,
        }
    }
}

impl<'x, R: Threads + Sync> Crew for WatchingCrew<'x, R> {
    type Runtime = R;

    type Gate = WatchingGate<'x>;

    type Bell = MemoryBell;

    fn runtime(&self) -> Option<&R> {
        self.runtime
    }

    fn gate(&mut self, worker: u32) -> Result<WatchingGate<'x>, Memory> {
        Ok(WatchingGate {
            holds: self.holds && worker == 1,
            is_second: worker == 2,
            last: 0,
            is_open: false,
            has_left: false,
            counts: self.counts,
        })
    }

    fn bell(&mut self, _workers: u32) -> Result<MemoryBell, Memory> {
        Ok(MemoryBell::new(0, 0))
    }
}
