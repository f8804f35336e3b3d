// What opens from cells and a generation.
ghost use Rattle.std.specs.Prelude.{◌≡◌, ◌+◌, ◌<◌, ◌++◌, IfOk};
ghost use Rattle.std.specs.List.{AllByRecursion};
ghost use Rattle.rv_base.specs.Sorted.{InOrder};
ghost use Rattle.rv_keeper.specs.Cells.{AreCells, cell_key};
ghost use Rattle.rv_keeper.specs.ShelfNumbers.{shelf_number};
ghost use Rattle.rv_store.specs.Opening.{Restores};

use crate::comparing::compare_others;
use crate::entering::enter_all;
use rv_base::{Bytes, Memory};
use rv_keeper::{Cell, Cells, Loaded, Shelf};
use rv_record::{CellFault, Damage, read_page};
use rv_state::State;
use std::alloc::Global;

// The cells up to those on this shelf, and those on the shelves behind it.
fn cut(cells: &[Cell], last: Shelf) -> (&[Cell], &[Cell])
    requires { InOrder cell_key cells.now }
    ensures whole { cells.now ≡ result.0.now ++ result.1.now }
    ensures before { AllByRecursion (λ cell. cell.shelf < shelf_number last + 1) result.0.now }
    ensures behind { AllByRecursion (λ cell. shelf_number last < cell.shelf) result.1.now }
{
    let number = last.number();
    cells.split_at(cells.partition_point(|cell| cell.shelf <= number))
}

// The cells of the entries, which stand on the first shelf, and those behind them.
fn entries_apart(cells: Cells) -> Result<(Vec<Cell>, Vec<Cell>), Memory>
    requires { AreCells cells }
    ensures whole { IfOk result (λ parts. cells ≡ parts.0.items ++ parts.1.items) }
    ensures entries { IfOk result (λ parts. AllByRecursion (λ cell. cell.shelf ≡ 1) parts.0.items) }
    ensures others { IfOk result (λ parts. AllByRecursion (λ cell. 1 < cell.shelf) parts.1.items) }
{
    let count = cut(cells.as_slice(), Shelf::Entries).0.len();
    let mut entries = cells.into_vec();
    let others = entries.split_off(count)?;
    entries.shrink_to_fit();
    Ok((entries, others))
}

/// The state of the book that is kept as these cells and this generation, where it is a lawful book that is at most so long; and else the
/// first place that is wrong: the first cell on the shelves of a page with which they begin no sound page at a place up to the limit; then
/// the first cell of an entry that is not the next place's, that is no entry, that is above the limit or may not stand after those before
/// it; then the first place of the other shelves at which the cells and those of the book differ; then the generation.
pub fn restore(alloc: Global, loaded: Loaded, limit: u32) -> Result<State, CellFault>
    requires { AreCells loaded.cells }
    ensures { Restores limit loaded result }
{
    let Loaded { cells, generation } = loaded;
    let (entries, others) = entries_apart(cells)?;
    let (derived, rest) = cut(&others, Shelf::Views);
    let (paged, behind) = cut(rest, Shelf::PageGroups);
    let page = read_page(alloc, paged, limit)?;
    let state = enter_all(alloc, page, entries, limit)?;
    compare_others(alloc, &state, derived, behind)?;
    if generation == u64::from(state.book().len()) {
        Ok(state)
    } else {
        Err(CellFault::BadCell(Damage {
            shelf: 0,
            key: Bytes::new(alloc),
        }))
    }
}
