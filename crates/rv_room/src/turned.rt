use rv_turns::Outcome;

/// What comes of a turn of a seat, and what it settled.
#[derive(Drop)]
pub(crate) struct Turned {
    /// What comes of what was asked.
    pub(crate) outcome: Outcome,
    /// How many entries that had been in doubt the turn entered.
    pub(crate) settled: u32,
}
