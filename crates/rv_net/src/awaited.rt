/// What a listener of links answers.
#[derive(Drop)]
pub enum Awaited<C> {
    /// The next link.
    Link(C),
    /// None came for a while.
    Nobody,
    /// No link is to come.
    End,
}
