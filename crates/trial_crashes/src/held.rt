// What a store holds.
use rv_base::Memory;
use rv_keeper::{Cell, Loaded};
use std::alloc::Global;

// The shelf of entries, that of rows and that of clients.
const ENTRIES: u8 = 1;

const ROWS: u8 = 2;

const CLIENTS: u8 = 3;

// The first and the last shelf of the page that a book opens with.
const PAGE: u8 = 6;

const LAST_OF_PAGE: u8 = 9;

/// The book of a store, and what it comes to.
#[derive(Drop)]
pub struct Held {
    /// The page that it opens with, each cell's key and body with LF; empty where there is none.
    pub page: Vec<u8>,
    /// The entries in order, each with LF.
    pub entries: Vec<u8>,
    /// How long it is.
    pub length: u64,
    /// Each row without its version, and each client with its last mutation id, in the order of their keys.
    pub rows: Vec<u8>,
    /// How many rows and clients there are.
    pub count: u64,
}

// Adds a text and LF.
fn add_line(text: &mut Vec<u8>, line: &[u8]) -> Result<(), Memory> {
    text.extend_from_slice(line)?;
    text.push(b'\n')?;
    Ok(())
}

// Adds a key and a body, each with LF.
fn add_pair(text: &mut Vec<u8>, key: &[u8], body: &[u8]) -> Result<(), Memory> {
    add_line(text, key)?;
    add_line(text, body)
}

// The body of a row's cell from the comma on that ends its version.
fn without_version(body: &[u8]) -> &[u8] {
    for at in 0..body.len() {
        if body[at] == b',' {
            return &body[at..];
        }
    }
    body
}

impl Held {
    // Adds what stands under a key.
    fn add_row(&mut self, key: &[u8], body: &[u8]) -> Result<(), Memory> {
        self.count = self.count.saturating_add(1);
        add_pair(&mut self.rows, key, body)
    }

    // Adds what a cell says.
    fn add_cell(&mut self, cell: &Cell) -> Result<(), Memory> {
        let key = cell.key.as_slice();
        let body = cell.body.as_slice();
        match cell.shelf {
            ENTRIES => add_line(&mut self.entries, body),
            ROWS => self.add_row(key, without_version(body)),
            CLIENTS => self.add_row(key, body),
            PAGE..=LAST_OF_PAGE => add_pair(&mut self.page, key, body),
            _ => Ok(()),
        }
    }

    /// What cells say.
    pub fn of(alloc: Global, loaded: &Loaded) -> Result<Held, Memory> {
        let mut held = Held {
            page: Vec::new(alloc),
            entries: Vec::new(alloc),
            length: loaded.generation,
            rows: Vec::new(alloc),
            count: 0,
        };
        for cell in loaded.cells.as_slice() {
            held.add_cell(cell)?;
        }
        Ok(held)
    }
}
