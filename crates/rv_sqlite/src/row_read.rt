use rv_keeper::Cell;

/// What a row of the table stands for.
#[derive(Debug, Drop)]
pub(crate) enum RowRead {
    /// A cell.
    Cell(Cell),
    /// The generation.
    Generation(u64),
}
