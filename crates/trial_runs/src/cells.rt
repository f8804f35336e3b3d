// Cells, as a case writes them.
use rv_base::{Bytes, Memory};
use rv_keeper::{Cell, Change, Shelves};
use std::alloc::Global;
use trial_stage::{first_word, number_in};

// The bytes of a text.
fn bytes_of(alloc: Global, text: &str) -> Result<Bytes, Memory> {
    Ok(Bytes::from_vec(text.as_bytes().to_vec(alloc)?))
}

// A cell of texts.
fn cell_of(alloc: Global, shelf: u8, key: &str, body: &str) -> Result<Cell, Memory> {
    let key = bytes_of(alloc, key)?;
    let body = bytes_of(alloc, body)?;
    Ok(Cell { shelf, key, body })
}

// The number of a shelf, 0 where it is none, and the text after it.
fn shelf_in(text: &str) -> (u8, &str) {
    let (shelf, rest) = first_word(text);
    let number = number_in(shelf).unwrap_or(0).min(255);
    (number as u8, rest)
}

/// Writes the cell of `SHELF KEY BODY`, over one at its place. Shelf 0 has none.
pub fn put(alloc: Global, shelves: &mut Shelves, text: &str) -> Result<(), Memory> {
    let (shelf, rest) = shelf_in(text);
    let (key, body) = first_word(rest);
    let cell = cell_of(alloc, shelf, key, body)?;
    if cell.shelf == 0 {
        return Ok(());
    }
    let mut changes = Vec::new(alloc);
    changes.push(Change::Put(cell))?;
    shelves.make(alloc, &changes)
}

/// Takes away the cell at `SHELF KEY`, if it is there.
pub fn remove(alloc: Global, shelves: &mut Shelves, text: &str) -> Result<(), Memory> {
    let (shelf, key) = shelf_in(text);
    if shelf == 0 {
        return Ok(());
    }
    let mut changes = Vec::new(alloc);
    changes.push(Change::Remove(shelf, bytes_of(alloc, key)?))?;
    shelves.make(alloc, &changes)
}

/// The same cells, in memory of their own.
pub fn copied(alloc: Global, shelves: &Shelves) -> Result<Shelves, Memory> {
    let cells = shelves.cells(alloc)?;
    Shelves::from_vec(alloc, cells.into_vec())
}
