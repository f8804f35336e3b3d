// What is taken of the book that is followed.
ghost use Rattle.std.specs.Prelude.{◌≡◌, ◌<◌, ◌^◌};
ghost use Rattle.rv_base.specs.Sorted.{is_in_order};
ghost use Rattle.rv_keeper.specs.Cells.{cell_key};
ghost use Rattle.rv_standby.specs.Following.{OpensOrNot, Takes, TakesPage};

use crate::standby::Standby;
use crate::take_fault::TakeFault;
use json::Scratch;
use rv_keeper::Cell;
use rv_record::{PageRead, read_page};
use rv_state::State;
use std::alloc::Global;
use std::cmp::Ordering;

// Whether the place of each cell is below that of the next.
fn are_in_order(cells: &[Cell]) -> bool
    ensures { result ≡ is_in_order cell_key cells.now }
{
    for i in 1..cells.len() {
        let next = &cells[i];
        match cells[i - 1].compare(next.shelf, &next.key) {
            Ordering::Less => {}
            Ordering::Equal => return false,
            Ordering::Greater => return false,
        }
    }
    true
}

// The page that the cells are those of.
fn page_of(alloc: Global, cells: &[Cell], limit: u32) -> Result<PageRead, TakeFault>
    ensures range { limit < 2 ^ 32 }
    ensures page { OpensOrNot limit cells.now result }
{
    if !are_in_order(cells) {
        return Err(TakeFault::Refused);
    }
    let Some(read) = read_page(alloc, cells, limit)? else {
        return Err(TakeFault::Refused);
    };
    Ok(read)
}

impl Standby {
    /// Takes the page that the followed book opens with, by all its cells, where this book is empty, and tells how long the book is then: the
    /// page's place.
    ///
    /// # Errors
    ///
    /// `Refused` where the book is not empty, and where the cells are not those of a sound page at a place from 1 to the limit, of the form and
    /// in the order of their places; no cells are no page. `Memory` where memory was refused. Then the book is as it was.
    pub fn take_page(&mut self, cells: &[Cell]) -> Result<u32, TakeFault>
        ensures taken { TakesPage self.old.limit self.old.book cells.now result self.new.book }
        ensures limit { self.new.limit ≡ self.old.limit }
    {
        if self.length() != 0 {
            return Err(TakeFault::Refused);
        }
        let limit = self.state.book().limit();
        let PageRead { page, tables } = page_of(self.alloc, cells, limit)?;
        self.state = State::opening(self.alloc, limit, page, tables)?;
        Ok(self.length())
    }

    /// Takes the next entry of the followed book, by its cell, and tells how long the book is then.
    ///
    /// `scratch` is room to read in, which is kept from one cell to the next.
    ///
    /// # Errors
    ///
    /// `Refused` where the cell is not that of an entry which may come next: not on shelf 1, not under the next place, no entry of the form, one
    /// that may not stand next, or one more than the limit. `Memory` where memory was refused. Then the book is as it was.
    pub fn take(&mut self, cell: &Cell, scratch: &mut Scratch) -> Result<u32, TakeFault>
        ensures taken { Takes self.old.limit self.old.book cell.now result self.new.book }
        ensures limit { self.new.limit ≡ self.old.limit }
    {
        if cell.shelf != 1 {
            return Err(TakeFault::Refused);
        }
        self.state.enter_cell(cell, scratch)?;
        Ok(self.length())
    }
}
