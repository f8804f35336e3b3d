ghost use Rattle.std.specs.Prelude.{◌≡◌, ◌<◌, [], IfOk, OnOk, OnErr};
ghost use Rattle.rv_base.specs.Sorted.{put_by};
ghost use Rattle.rv_keeper.specs.Cells.{AreCells, AreChanges, cell_key, changed};

use crate::cell::Cell;
use crate::change::Change;
use crate::changing::{count_puts, make_all, put};
use crate::loaded::Cells;
use rv_base::{Memory, Sequence};
use rv_chunks::Chunks;
use std::alloc::Global;
use std::marker::Model;

// How many cells a chunk has at most: a cell that comes moves some 1,000 bytes of its chunk.
const CHUNK: usize = 64;

/// Cells in the order of their shelves and then of their keys, each place once. They stand in chunks, so a change moves the
/// cells of a chunk at most.
///
/// A contract sees the list of the cells.
#[derive(Debug, Drop)]
pub struct Shelves {
    cells: Chunks<Cell>,
}

impl Model for Shelves {
    ghost use Rattle.std.specs.Prelude.{List};
    ghost use Rattle.rv_chunks.specs.Chunking.{items};
    ghost use Rattle.rv_keeper.specs.declared.cell.Cell.{Cell};
    ghost use Rattle.rv_keeper.specs.Cells.{AreCells};

    ghost Value = { List Cell };

    ghost view = { λ s. items s.cells.chunks };

    ghost invariant = { λ s. AreCells (items s.cells.chunks) };
}

impl Shelves {
    /// No cell. Takes no memory.
    pub fn new(alloc: Global) -> Shelves
        ensures { result ≡ [] }
    {
        Shelves {
            cells: Chunks::new(alloc, CHUNK),
        }
    }

    /// The cells of a vector. `Err` is want of memory.
    pub fn from_vec(alloc: Global, cells: Vec<Cell>) -> Result<Shelves, Memory>
        requires { AreCells cells.items }
        ensures { IfOk result (λ shelves. shelves ≡ cells.items) }
    {
        let mut shelves = Shelves::new(alloc);
        for cell in cells {
            shelves.put(cell)?;
        }
        Ok(shelves)
    }

    // Writes a cell, over the one at its place.
    #[tactic(auto, using(crate::proofs::Changed::are_cells_put))]
    fn put(&mut self, cell: Cell) -> Result<(), Memory>
        requires { 0 < cell.shelf }
        ensures ok { OnOk result (self.new ≡ put_by cell_key cell self.old) }
        ensures err { OnErr result (self.new ≡ self.old) }
    {
        self.cells.reserve(1)?;
        put(&mut self.cells, cell);
        Ok(())
    }

    /// The cells in order, in memory of their own.
    pub fn cells(&self, alloc: Global) -> Result<Cells, Memory>
        ensures cells { IfOk result (λ cells. cells ≡ self.now) }
        ensures order { AreCells self.now }
    {
        let mut cells = Sequence::new(alloc);
        for cell in self.cells.iter() {
            cells.push(cell.copy(alloc)?)?;
        }
        Ok(cells)
    }

    /// Makes all the changes, or at want of memory none. A change costs a binary search, and a move of cells of one chunk;
    /// other cells are not touched.
    pub fn make(&mut self, alloc: Global, changes: &[Change]) -> Result<(), Memory>
        requires { AreChanges changes.now }
        ensures ok { OnOk result (self.new ≡ changed self.old changes.now) }
        ensures err { OnErr result (self.new ≡ self.old) }
    {
        let changes = copies_of_changes(alloc, changes)?;
        self.cells.reserve(count_puts(&changes))?;
        make_all(&mut self.cells, changes);
        Ok(())
    }
}

// The changes, in memory of their own.
fn copies_of_changes(alloc: Global, changes: &[Change]) -> Result<Vec<Change>, Memory>
    ensures { IfOk result (λ copies. copies.items ≡ changes.now) }
{
    let mut copies = Vec::new(alloc);
    for change in changes {
        copies.push(change.copy(alloc)?)?;
    }
    Ok(copies)
}
