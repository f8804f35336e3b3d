use rv_rows::{Clients, Keys};

/// What has changed from one view to a later one.
#[derive(Debug, Drop)]
pub struct Diff {
    /// Whether everything goes first: there was no base.
    pub clear: bool,
    /// The keys that were seen and are not seen now, in order.
    pub dels: Keys,
    /// The keys that are seen now and were not, or whose rows were written since, in order.
    pub puts: Keys,
    /// The clients that are new or have a new last mutation id, in order.
    pub ids: Clients,
}
