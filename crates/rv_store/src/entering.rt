// The entries of the cells of shelf 1, which are entered one after another.
ghost use Rattle.std.specs.Prelude.{◌≡◌, [], IfOk, IfSome, vec_len};
ghost use Rattle.std.specs.List.{AllByRecursion};
ghost use Rattle.rv_book.specs.Book.{book_from};
ghost use Rattle.rv_store.specs.Opening.{IsSoundBook};
ghost use Rattle.rv_store.specs.OpeningSteps.{EntersAll, Stands, page_or_none};

use json::Scratch;
use rv_base::Memory;
use rv_keeper::Cell;
use rv_record::{CellFault, PageRead};
use rv_state::State;
use std::alloc::Global;

// The state of the book that opens with a page, if there is one, and has no entries.
fn begin(alloc: Global, page: Option<PageRead>, limit: u32) -> Result<State, Memory>
    requires { IfSome page (Stands limit) }
    ensures book { IfOk result (λ state. state.book ≡ book_from (page_or_none page) []) }
    ensures sound { IfOk result (λ state. IsSoundBook limit state.book) }
    ensures limit { IfOk result (λ state. state.limit ≡ limit) }
{
    let state = match page {
        Some(PageRead { page, tables }) => State::opening(alloc, limit, page, tables)?,
        None => State::new(alloc, limit),
    };
    // The book is lawful, and within its limit.
    state.book().fits();
    Ok(state)
}

// Gives back what the list has no use for, where that is more than half.
fn give_back(cells: &mut Vec<Cell>)
    ensures items { cells.new.items ≡ cells.old.items }
    ensures len { vec_len cells.new ≡ vec_len cells.old }
{
    if cells.len() < cells.capacity() / 2 {
        cells.shrink_to_fit();
    }
}

// The state of the book that opens with a page, if there is one, and has the entries whose cells stand on shelf 1.
pub(crate) fn enter_all(
    alloc: Global,
    page: Option<PageRead>,
    cells: Vec<Cell>,
    limit: u32,
) -> Result<State, CellFault>
    requires page { IfSome page (Stands limit) }
    requires shelf { AllByRecursion (λ cell. cell.shelf ≡ 1) cells.items }
    ensures { EntersAll limit (page_or_none page) cells.items result }
{
    let mut state = begin(alloc, page, limit)?;
    let mut scratch = Scratch::new(alloc);
    // The first cell is the last of these: so the list gives its memory back as the book grows.
    let mut left = cells;
    left.reverse();
    while let Some(cell) = left.pop() {
        state.enter_cell(&cell, &mut scratch)?;
        give_back(&mut left);
    }
    Ok(state)
}
