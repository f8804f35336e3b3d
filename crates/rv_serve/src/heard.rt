/// What a gate has heard.
#[derive(Clone, Copy, Debug, PartialEq, Eq)]
pub enum Heard {
    /// A request was read, a connection's so many-th, from 1.
    Before(u32),
    /// The request was answered with this status; and a mutation was run for it, or what had been in doubt was entered in its turns, or
    /// neither was.
    After(u16, bool),
    /// The worker has served all its connections, and leaves.
    Left,
}
