// Cells of stores as texts.
use crate::texts::Part::{Number, Text};
use crate::texts::{joined, text_of};
use rv_base::Memory;
use rv_keeper::Cell;
use std::alloc::Global;

// A cell as `SHELF KEY BODY`.
fn line_of(alloc: Global, cell: &Cell) -> Result<String, Memory> {
    joined(
        alloc,
        &[
            Number(u64::from(cell.shelf)),
            Text(" "),
            Text(text_of(cell.key.as_slice())),
            Text(" "),
            Text(text_of(cell.body.as_slice())),
            Text("\n"),
        ],
    )
}

/// Cells, a line each, and the generation.
pub fn store_text(alloc: Global, cells: &[Cell], generation: u64) -> Result<String, Memory> {
    let mut lines = String::new(alloc);
    for cell in cells {
        lines.push_str(line_of(alloc, cell)?.as_str())?;
    }
    joined(
        alloc,
        &[
            Text(lines.as_str()),
            Text("generation "),
            Number(generation),
            Text("\n"),
        ],
    )
}
