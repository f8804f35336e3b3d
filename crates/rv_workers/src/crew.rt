ghost use Rattle.std.specs.Prelude.{◌≡◌, IfOk};
ghost use Rattle.rv_poke.specs.Bells.{unasked};

use rv_base::Memory;
use rv_poke::Bell;
use rv_serve::Gate;
use std::thread::Threads;

/// Who runs jobs, the gates of those who serve requests, and the bells of those who poke.
pub trait Crew {
    /// What can start threads.
    type Runtime: Threads + Sync;

    /// Where the requests of a worker pass.
    type Gate: Gate + Send;

    /// What a poke job waits for.
    type Bell: Bell + Send + Drop;

    /// What starts the threads in which jobs run; or none, where they run one after the other.
    fn runtime(&self) -> Option<&Self::Runtime>;

    /// The gate of the worker with this number, from 1.
    fn gate(&mut self, worker: u32) -> Result<Self::Gate, Memory>;

    /// The bell of a poke job, which is over once so many workers have left. No wait for it has ended yet.
    fn bell(&mut self, workers: u32) -> Result<Self::Bell, Memory>
        ensures { IfOk result (λ bell. Self.Bell.state bell ≡ unasked) };
}
