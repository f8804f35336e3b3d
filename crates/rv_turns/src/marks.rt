use rv_base::User;

/// Who tells marks of users. A mark is a number; one that is above an earlier mark of the user says that something may have changed
/// for the user since.
pub trait Marks {
    ghost use Rattle.std.specs.Prelude.{ℕ, List};

    /// A look: a state, a user, the mark that is told, and the next state.
    ghost marks: { Self → List ℕ → ℕ → Self → Type 0 };

    /// Tells the mark of a user.
    fn mark(&mut self, user: &User) -> u32
        ensures { marks self.old user.now result self.new };
}
