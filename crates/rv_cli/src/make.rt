// The command `make`.
ghost use Rattle.std.specs.Prelude.{◌≢◌, ◌⊎◌, Contains, IfOk};
ghost use Rattle.rv_base.specs.Causes.{Rose};
ghost use Rattle.rv_cli.specs.Headline.{RunsMake, TellsRun};
ghost use Rattle.rv_cli.specs.MakePromise.{make_statuses};

use crate::reports::write_report;
use rv_base::{Bytes, Memory, Sink};
use rv_make::play;
use std::alloc::Global;

// The summary of a run of the first requests that a seed makes, as a line.
fn summary_of_run(alloc: Global, seed: u32, requests: u32) -> Result<Bytes, Memory>
    ensures { IfOk result (TellsRun seed requests) }
{
    let summary = play(alloc, seed, requests)?;
    summary.text(alloc)
}

/// Runs the first requests that a seed makes over a fresh store in memory, and writes the summary of the run as one line, as
/// [`Summary::text`](rv_make::Summary::text): the command `make SEED N`. The status is 0, 7 or 8.
pub fn run_make<O: Sink>(alloc: Global, seed: u32, requests: u32, out: &mut O) -> u8
    ensures make { RunsMake seed requests (O.state out.old) (O.state out.new) result }
    ensures complete { Contains make_statuses result }
    ensures steady { O.fails_no_more out.old → O.fails_no_more out.new × (Rose (O.state out.old).refusals (O.state out.new).refusals ⊎ (result ≢ 7)) }
{
    let summary = summary_of_run(alloc, seed, requests);
    write_report(out, &summary).status()
}
