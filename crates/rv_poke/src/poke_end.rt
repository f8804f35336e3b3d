/// How a poke session ended.
#[derive(Clone, Copy, Debug, PartialEq, Eq)]
pub enum PokeEnd {
    /// All is over, or a limit was reached. So many pokes were sent.
    Done(u32),
    /// The first message was no account's key. A close with 1008 was tried.
    Denied,
    /// The link failed or its client has left, and the link's count of faults rose.
    LinkFault,
    /// Memory was refused before a first message was taken. Nothing was done.
    Memory,
}
