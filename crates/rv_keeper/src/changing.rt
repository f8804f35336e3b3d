// Changes of cells in chunks, which can't fail where there is space for the cells that they write.
ghost use Rattle.std.specs.Prelude.{◌≡◌, ◌≤◌, ◌<◌, ◌+◌, [], ◌∷◌, MatchResult};
ghost use Rattle.std.specs.Ordering.{nat_cmp};
ghost use Rattle.std.specs.Cmp.Lexicographic.{slice_cmp};
ghost use Rattle.std.specs.List.{AllByRecursion};
ghost use Rattle.rv_base.specs.Sorted.{InOrder, IsPositionOf, put_by, without};
ghost use Rattle.rv_chunks.specs.Chunking.{items, index_found, IsItem, IsGap};
ghost use Rattle.rv_keeper.specs.Cells.{AreCells, cell_key, change_shelf, changed, changed_by};
ghost use Rattle.rv_keeper.specs.Puts.{puts};

use crate::cell::Cell;
use crate::change::Change;
use rv_base::Bytes;
use rv_chunks::{At, Chunks, Compare};
use std::cmp::Ordering;

// The cell of a shelf and a key, as it is looked for.
#[derive(Drop)]
struct SoughtCell<'a> {
    shelf: u8,
    key: &'a Bytes,
}

impl<'a> Compare<Cell> for SoughtCell<'a> {
    ghost order = { λ sought cell. slice_cmp nat_cmp (cell_key cell) (sought.shelf ∷ sought.key.now) };

    fn compare(&self, cell: &Cell) -> Ordering {
        cell.compare(self.shelf, self.key)
    }
}

// Where the cell of a shelf and a key stands, or where it would go.
fn position(cells: &Chunks<Cell>, shelf: u8, key: &Bytes) -> Result<At, At>
    requires { InOrder cell_key (items cells.now.chunks) }
    ensures position { IsPositionOf cell_key (shelf ∷ key.now) (items cells.now.chunks) (index_found cells.now.chunks result) }
    ensures at { MatchResult result (IsItem cells.now.chunks) (IsGap cells.now.chunks) }
{
    cells.position(&SoughtCell { shelf, key })
}

/// Writes a cell, over the one at its place.
pub(crate) fn put(cells: &mut Chunks<Cell>, cell: Cell)
    requires order { InOrder cell_key (items cells.old.chunks) }
    requires spare { 1 ≤ cells.old.spare }
    ensures cells { items cells.new.chunks ≡ put_by cell_key cell (items cells.old.chunks) }
    ensures spare { cells.old.spare ≤ cells.new.spare + 1 }
{
    match position(cells, cell.shelf, &cell.key) {
        Ok(at) => cells.set(at, cell),
        Err(at) => cells.insert(at, cell),
    }
}

// Takes away the cell of a shelf and a key, if it is there.
fn remove(cells: &mut Chunks<Cell>, shelf: u8, key: &Bytes)
    requires { InOrder cell_key (items cells.old.chunks) }
    ensures cells { items cells.new.chunks ≡ without cell_key (shelf ∷ key.now) (items cells.old.chunks) }
    ensures spare { cells.old.spare ≤ cells.new.spare }
{
    match position(cells, shelf, key) {
        Ok(at) => cells.remove(at),
        Err(_) => {}
    }
}

// Makes one change.
fn make_one(cells: &mut Chunks<Cell>, change: Change)
    requires order { InOrder cell_key (items cells.old.chunks) }
    requires spare { puts (change ∷ []) ≤ cells.old.spare }
    ensures cells { items cells.new.chunks ≡ changed_by (items cells.old.chunks) change }
    ensures spare { cells.old.spare ≤ cells.new.spare + puts (change ∷ []) }
{
    match change {
        Change::Put(cell) => put(cells, cell),
        Change::Remove(shelf, key) => remove(cells, shelf, &key),
    }
}

/// Makes the changes.
#[tactic(auto, using(crate::proofs::Changed::are_cells_changed))]
pub(crate) fn make_all(cells: &mut Chunks<Cell>, changes: Vec<Change>)
    requires cells { AreCells (items cells.old.chunks) }
    requires changes { AllByRecursion (λ change. 0 < change_shelf change) changes.items }
    requires spare { puts changes.items ≤ cells.old.spare }
    ensures order { AreCells (items cells.new.chunks) }
    ensures cells { items cells.new.chunks ≡ changed (items cells.old.chunks) changes.items }
{
    for change in changes {
        make_one(cells, change);
    }
}

/// How many of the changes write a cell.
pub(crate) fn count_puts(changes: &[Change]) -> usize
    ensures { result ≡ puts changes.now }
{
    changes
        .iter()
        .filter(|change| matches!(change, Change::Put(_)))
        .count()
}
