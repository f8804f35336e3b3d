use crate::cell::Cell;
use rv_base::Sequence;

/// Cells.
pub type Cells = Sequence<Cell>;

/// What a keeper holds, as it was loaded.
#[derive(Debug, Drop)]
pub struct Loaded {
    /// The cells.
    pub cells: Cells,
    /// The generation.
    pub generation: u64,
}
