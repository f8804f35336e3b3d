// The cells that a plain book is kept as.
use rv_base::Memory;
use rv_book::{Entry, Page};
use rv_keeper::Cell;
use rv_plain::{PlainBook, PlainDesk};
use rv_record::{cell_of_client, cell_of_entry, cell_of_group, cell_of_page, cell_of_row};
use rv_turns::Outcome;
use std::alloc::Global;
use trial_stage::store_text;

// How the line of a record of a kept look begins.
const VIEW: &str = "5 ";

// Adds a cell, on this shelf.
fn add(cells: &mut Vec<Cell>, shelf: u8, cell: Cell) -> Result<(), Memory> {
    let mut cell = cell;
    cell.shelf = shelf;
    cells.push(cell)?;
    Ok(())
}

// Adds the cells of entries that stand after a place.
fn add_entries(
    alloc: Global,
    cells: &mut Vec<Cell>,
    entries: &[Entry],
    after: u32,
) -> Result<(), Memory> {
    let mut place = after;
    for entry in entries {
        place = place.saturating_add(1);
        cells.push(cell_of_entry(alloc, place, entry)?)?;
    }
    Ok(())
}

// Adds the cells of a page's rows, on this shelf, of its clients, on the next, and of its groups, on the one after.
fn add_page(alloc: Global, cells: &mut Vec<Cell>, page: &Page, shelf: u8) -> Result<(), Memory> {
    for (row, version) in page.rows.as_slice() {
        add(cells, shelf, cell_of_row(alloc, row, *version)?)?;
    }
    for (client, group, last) in page.clients.as_slice() {
        let cell = cell_of_client(alloc, client, group, *last)?;
        add(cells, shelf.wrapping_add(1), cell)?;
    }
    for (group, user, order, retired) in page.groups.as_slice() {
        let cell = cell_of_group(alloc, group, user, *order, *retired)?;
        add(cells, shelf.wrapping_add(2), cell)?;
    }
    Ok(())
}

// Adds the cells of a book's rows, clients and groups, each as the page has it that closing the book would leave.
fn add_present(alloc: Global, cells: &mut Vec<Cell>, book: &PlainBook) -> Result<(), Memory> {
    let mut desk = PlainDesk::with(alloc, book.copy(alloc)?, u32::MAX);
    match desk.close_book() {
        Outcome::Closed(_) => add_page(alloc, cells, desk.book().page(), 2),
        _ => Err(Memory),
    }
}

// The cells of a book, but for those of the records of kept looks: of its entries, of what follows from it, and of the page that it
// opens with, where it has one.
fn cells_of(alloc: Global, book: &PlainBook) -> Result<Vec<Cell>, Memory> {
    let page = book.page();
    let mut cells = Vec::new(alloc);
    add_entries(alloc, &mut cells, book.entries(), page.at)?;
    add_present(alloc, &mut cells, book)?;
    if page.at > 0 {
        cells.push(cell_of_page(alloc, page.at)?)?;
        add_page(alloc, &mut cells, page, 7)?;
    }
    Ok(cells)
}

// Whether these are the lines of a text, beside those of records of kept looks.
fn has_lines(held: &str, wanted: &str) -> bool {
    let mut left = wanted.lines();
    for line in held.lines() {
        if line.starts_with(VIEW) {
            continue;
        }
        match left.next() {
            Some(other) if line == other => {}
            _ => return false,
        }
    }
    left.next().is_none()
}

/// Whether what a store holds is a book: its cells, beside the records of kept looks, and its length as generation.
pub fn is_book(alloc: Global, held: &str, book: &PlainBook) -> Result<bool, Memory> {
    let cells = cells_of(alloc, book)?;
    let wanted = store_text(alloc, &cells, u64::from(book.len()))?;
    Ok(has_lines(held, wanted.as_str()))
}
