/// Who counts what its turns have entered of what had been in doubt: an entry that a turn before could not tell whether it was kept, and
/// that was found to be kept as a later turn began, whatever that turn asked.
pub trait CountsSettled {
    ghost use Rattle.std.specs.Prelude.{◌≡◌, ℕ};

    /// How many entries that had been in doubt its turns have entered.
    ghost settled: { Self → ℕ };

    /// How many entries that had been in doubt its turns have entered.
    fn settled_count(&self) -> u32
        ensures { result ≡ settled self.now };
}
