/// What a wait for a bell ended with.
#[derive(Clone, Copy, Debug, PartialEq, Eq)]
pub enum Waited {
    /// The bell was rung: something may have changed.
    Rung,
    /// The bell was silent for some time.
    Quiet,
    /// All is over: nothing will change any more.
    Over,
}
