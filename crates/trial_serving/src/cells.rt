// Cells of stores.
use rv_base::Memory;
use rv_keeper::{Cell, MemoryKeeper};
use std::alloc::Global;

fn is_same(one: &Cell, other: &Cell) -> bool {
    one.shelf == other.shelf
        && one.key.as_slice() == other.key.as_slice()
        && one.body.as_slice() == other.body.as_slice()
}

fn are_same(cells: &[Cell], others: &[Cell]) -> bool {
    let mut others = others.iter();
    for cell in cells {
        match others.next() {
            Some(other) if is_same(cell, other) => {}
            _ => return false,
        }
    }
    others.next().is_none()
}

/// Whether two keepers hold the same.
pub fn hold_the_same(
    alloc: Global,
    one: &MemoryKeeper,
    other: &MemoryKeeper,
) -> Result<bool, Memory> {
    let cells = one.shelves.cells(alloc)?;
    let others = other.shelves.cells(alloc)?;
    Ok(one.generation == other.generation && are_same(cells.as_slice(), others.as_slice()))
}
