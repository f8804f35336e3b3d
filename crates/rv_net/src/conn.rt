use rv_base::{Sink, Source};

/// A connection: where its bytes come from, and where the answers go.
#[derive(Drop)]
pub struct Conn<S: Source, O: Sink> {
    /// Where its bytes come from.
    pub source: S,
    /// Where the answers go.
    pub sink: O,
}
