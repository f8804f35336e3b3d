use std::sync::Wait;
use std::thread::Threads;

/// The machine's runtime, and what its threads are started and waited for by.
#[derive(Drop)]
pub struct Stage<'a, R: Threads + Wait + Sync> {
    /// The runtime.
    pub host: &'a HostRuntime,
    /// The same, as what starts threads and waits.
    pub threads: &'a R,
}
