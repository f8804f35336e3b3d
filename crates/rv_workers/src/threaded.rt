use crate::bells::{Bells, RingingGate, WordBell};
use crate::crew::Crew;
use rv_base::Memory;
use std::thread::Threads;

/// Runs jobs in threads. Its gates hold no request, and ring its bells. It is for one run of jobs.
#[derive(Drop)]
pub struct Threaded<'r, R: Threads + Sync> {
    runtime: &'r R,
    bells: &'r Bells,
}

impl<'r, R: Threads + Sync> Threaded<'r, R> {
    /// A crew with threads and these bells.
    pub fn new(runtime: &'r R, bells: &'r Bells) -> Threaded<'r, R> {
        Threaded { runtime, bells }
    }
}

impl<'r, R: Threads + Sync> Crew for Threaded<'r, R> {
    type Runtime = R;

    type Gate = RingingGate<'r>;

    type Bell = WordBell<'r>;

    fn runtime(&self) -> Option<&R> {
        Some(self.runtime)
    }

    fn gate(&mut self, _worker: u32) -> Result<RingingGate<'r>, Memory> {
        Ok(RingingGate::new(self.bells))
    }

    fn bell(&mut self, workers: u32) -> Result<WordBell<'r>, Memory> {
        Ok(WordBell::new(self.bells, workers))
    }
}
