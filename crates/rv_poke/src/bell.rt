ghost use Rattle.rv_poke.specs.Bells.{BellState, HasWaited};

use crate::waited::Waited;
use std::sync::Wait;

/// What a session waits for. An answer is a hint: nothing is claimed of when it comes.
pub trait Bell {
    /// How often a wait ended as it was rung, how often as it was silent, and how often as all was over. The counts stand still at 2^64 - 1.
    ghost state: { Self → BellState };

    /// Waits until the bell is rung, or all is over, but not for ever where nothing happens.
    fn wait<R: Wait>(&mut self, rt: &R) -> Waited
        ensures { HasWaited (state self.old) (state self.new) result };

    /// Whether all is over by now: a hint too.
    fn is_over(&self) -> bool;
}
