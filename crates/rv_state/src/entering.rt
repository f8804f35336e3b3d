// An entry that is read from its cell, and entered.
ghost use Rattle.std.specs.Prelude.{◌≡◌, ◌+◌, ◌<◌, ◌≤◌, ◌^◌, ◌↔◌, IsTrue};
ghost use Rattle.rv_book.specs.Book.{size};
ghost use Rattle.rv_history.specs.Lawful.{IsLawfulAfter};
ghost use Rattle.rv_state.specs.Entering.{EntersNext, ReadsNext};

use crate::lawful::may_stand;
use crate::state::State;
use json::Scratch;
use rv_book::{Book, Entry};
use rv_keeper::Cell;
use rv_record::{CellFault, damaged, entry_fits, entry_of_cell};
use std::alloc::Global;

// Whether the entry at this place may come next.
fn may_follow(book: &Book, place: u32, entry: &Entry) -> bool
    requires { 1 ≤ place }
    ensures range { place < 2 ^ 32 }
    ensures value { IsTrue result ↔ ((size book.now.book < book.now.limit) × (place ≡ size book.now.book + 1) × IsLawfulAfter book.now.book entry.now) }
{
    !book.is_full() && place - 1 == book.len() && may_stand(book, entry)
}

// The entry whose cell this is, where it may come next.
fn next_entry(
    alloc: Global,
    book: &Book,
    cell: &Cell,
    scratch: &mut Scratch,
) -> Result<Entry, CellFault>
    requires { cell.now.shelf ≡ 1 }
    ensures { ReadsNext book.now.limit book.now.book cell.now result }
{
    // The book's limit, and so its next place, is that of a key.
    book.fits();
    let (place, entry) = entry_of_cell(alloc, cell, book.entry(book.len()), scratch)?;
    entry_fits(&entry);
    if may_follow(book, place, &entry) {
        Ok(entry)
    } else {
        Err(damaged(alloc, cell))
    }
}

impl State {
    /// Enters the entry whose cell this is, a cell of shelf 1, where it may come next: where its key is that of the next place, its body
    /// an entry of the form, the book is not as long as it may be, and the entry may stand. Where nothing is entered, the book stays.
    ///
    /// `scratch` is room to read in, which is kept from one cell to the next.
    ///
    /// # Errors
    ///
    /// `BadCell` at the place of the cell where its entry may not come next, and `Memory`.
    pub fn enter_cell(&mut self, cell: &Cell, scratch: &mut Scratch) -> Result<(), CellFault>
        requires { cell.now.shelf ≡ 1 }
        ensures next { EntersNext self.old.limit self.old.book cell.now self.new.book result }
        ensures limit { self.new.limit ≡ self.old.limit }
    {
        let entry = next_entry(self.alloc, self.book(), cell, scratch)?;
        let prepared = self.prepare(entry)?;
        self.enter(prepared);
        Ok(())
    }
}
