use crate::asked::Asked;
use crate::pushing::Outcome;

/// Who takes turns, one after another: each is taken at the state that the one before it left.
pub trait Turns {
    ghost use Rattle.rv_turns.specs.Asks.{Ask, IsClosing, ask_of};
    ghost use Rattle.rv_turns.specs.declared.pushing.Outcome.{Outcome};

    /// A turn: a state, what is asked, what comes of it, and the next state.
    ghost takes: { Self → Ask → Outcome → Self → Type 0 };

    /// Whether the book is closed where that is asked. Who shares a book with others does not close it.
    ghost closes: { Type 0 };

    /// Takes a turn.
    fn take(&mut self, asked: Asked<'_>) -> Outcome
        requires { IsClosing (ask_of asked) → closes }
        ensures { takes self.old (ask_of asked.entry) result self.new };
}
