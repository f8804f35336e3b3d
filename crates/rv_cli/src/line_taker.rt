ghost use Rattle.rv_cli.specs.LineTaking.{Taker, TakesLater, TakesLine};
ghost use Rattle.rv_cli.specs.Steadiness.{LineIsSteady, LineKeepsSteady};

use crate::ending::Ending;
use json::Scratch;
use rv_base::Sink;
use std::alloc::Global;

/// Who takes lines, one after another: each is taken at the state that the one before it left.
pub(crate) trait LineTaker {
    /// What is seen of it.
    ghost taker: { Taker Self };

    /// Takes a line: answers it, and writes its answer. Where the lines end with it, it gives the ending.
    fn take<O: Sink>(
        &mut self,
        alloc: Global,
        line: &[u8],
        number: u64,
        scratch: &mut Scratch,
        out: &mut O,
    ) -> Result<(), Ending>
        ensures takes { TakesLine taker self.old line.now number result self.new (O.state out.old) (O.state out.new) }
        ensures steady { O.fails_no_more out.old → LineIsSteady (O.fails_no_more out.new) (O.state out.old).refusals (O.state out.new).refusals result }
        ensures steady_taker { taker.fails_no_more self.old → LineKeepsSteady (taker.fails_no_more self.new) (taker.faults self.old) (taker.faults self.new) result };

    /// What a line does where it told more, it does where it tells less.
    ghost takes_later: { (old new : Self) → (taker.tells new → taker.tells old) → TakesLater taker.lines (taker.tells old) (taker.tells new) };

    /// It stands as its state.
    ghost stands_now: { (this : Self) → taker.Stands (taker.state this) this };
}
