// The stores of the machine.
use crate::running::{Finished, Pieces, run_over};
use rv_base::{Bytes, Fault, Memory};
use rv_doubles::MemoryNet;
use rv_keeper::Place;
use rv_place::{FileOpener, RunPlace, Start, end_run};
use std::sync::Wait;
use std::thread::Threads;
use trial_stage::Stage;

/// Runs words over the stores of the machine, these bytes as the input, and a net.
pub fn run_here<R: Threads + Wait + Sync, S: Start + Send>(
    stage: &Stage<'_, R>,
    words: &[String],
    bytes: &[u8],
    pieces: Pieces,
    net: &mut MemoryNet,
    start: S,
) -> Result<Finished, Memory> {
    let mut place = RunPlace::new(stage.host.alloc(), FileOpener::new(stage.host), start);
    let finished = run_over(stage, words, &mut place, bytes, pieces, net);
    end_run(place);
    finished
}

/// The bytes of an accounts file, or why it can't be read; and how many faults the stores of the machine count then.
pub fn accounts_here<S: Start + Send>(
    rt: &HostRuntime,
    path: &str,
    start: S,
) -> (Result<Bytes, Fault>, u64) {
    let mut place = RunPlace::new(rt.alloc(), FileOpener::new(rt), start);
    let read = place.read_accounts(path);
    let faults = place.fault_count();
    end_run(place);
    (read, faults)
}
