use crate::memory_bell::MemoryBell;
use rv_base::Memory;
use rv_serve::OpenGate;
use rv_workers::Crew;
use std::marker::PhantomData;
use std::thread::Threads;

/// Runs jobs one after the other, the workers first. Its gates hold no request, and to its bells all is over.
#[derive(Drop)]
pub struct Serial<R: Threads + Sync> {
    runtime: PhantomData<R>,
}

impl<R: Threads + Sync> Serial<R> {
    /// A crew without threads.
    pub fn new() -> Self {
        Serial {
            runtime: PhantomData,
        }
    }
}

impl<R: Threads + Sync> Crew for Serial<R> {
    type Runtime = R;

    type Gate = OpenGate;

    type Bell = MemoryBell;

    fn runtime(&self) -> Option<&R> {
        None
    }

    fn gate(&mut self, _worker: u32) -> Result<OpenGate, Memory> {
        Ok(OpenGate)
    }

    fn bell(&mut self, _workers: u32) -> Result<MemoryBell, Memory> {
        Ok(MemoryBell::new(0, 0))
    }
}
