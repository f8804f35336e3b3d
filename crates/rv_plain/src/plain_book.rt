ghost use Rattle.std.specs.Prelude.{◌≡◌, ◌+◌, ◌<◌, ◌≤◌, ◌^◌, [], drop, length, take, IfOk, OnOk, OnErr};
ghost use Rattle.rv_book.specs.Book.{book_from, book_of, empty_book, since, size, up_to, with_entry};
ghost use Rattle.rv_plain.specs.Plain.{PageFits};

use crate::copies::{copy_clients, copy_entries, copy_groups, copy_stored};
use rv_base::{Memory, Sequence};
use rv_book::{Entry, Page};
use std::alloc::Global;
use std::marker::Model;

/// A book: the page that it opens with, and its entries, one after another.
#[derive(Drop)]
pub struct PlainBook {
    page: Page,
    entries: Vec<Entry>,
}

impl Model for PlainBook {
    ghost use Rattle.std.specs.Prelude.{◌+◌, ◌<◌, ◌^◌, length};
    ghost use Rattle.rv_book.specs.Book.{Book, book_from};
    ghost use Rattle.rv_plain.specs.Plain.{PageFits};

    ghost Value = { Book };

    ghost view = { λ b. book_from b.page b.entries.items };

    ghost invariant = { λ b. PageFits b.page × (b.page.at + length b.entries.items < 2 ^ 32) };
}

// The page of a book that was never closed.
fn no_page(alloc: Global) -> Page
    ensures { result ≡ (empty_book).page }
{
    Page {
        at: 0,
        rows: Sequence::new(alloc),
        clients: Sequence::new(alloc),
        groups: Sequence::new(alloc),
    }
}

fn copy_page(alloc: Global, page: &Page) -> Result<Page, Memory>
    ensures { IfOk result (λ copy. copy ≡ page.now) }
{
    Ok(Page {
        at: page.at,
        rows: Sequence::from_vec(copy_stored(alloc, page.rows.as_slice())?),
        clients: copy_clients(alloc, page.clients.as_slice())?,
        groups: copy_groups(alloc, page.groups.as_slice())?,
    })
}

impl PlainBook {
    /// The book without a page and without entries.
    pub fn empty(alloc: Global) -> PlainBook
        ensures { result ≡ empty_book }
    {
        PlainBook {
            page: no_page(alloc),
            entries: Vec::new(alloc),
        }
    }

    /// The book of copies of these entries, without a page.
    pub fn of_entries(alloc: Global, entries: &[Entry]) -> Result<PlainBook, Memory>
        requires { length entries.now < 2 ^ 32 }
        ensures { IfOk result (λ book. book ≡ book_of entries.now) }
    {
        Ok(PlainBook {
            page: no_page(alloc),
            entries: copy_entries(alloc, entries)?,
        })
    }

    // The book that opens with this page, and has no entries.
    pub(crate) fn opening(alloc: Global, page: Page) -> PlainBook
        requires fits { PageFits page }
        requires bound { page.at < 2 ^ 32 }
        ensures { result ≡ book_from page [] }
    {
        PlainBook {
            page,
            entries: Vec::new(alloc),
        }
    }

    /// The page that it opens with, at 0 where it has none.
    pub fn page(&self) -> &Page
        ensures page { result.now ≡ self.now.page }
        ensures fits { PageFits self.now.page }
    {
        &self.page
    }

    /// The entries, in order.
    pub fn entries(&self) -> &[Entry]
        ensures entries { result.now ≡ self.now.entries }
        ensures bound { self.now.page.at + length result.now < 2 ^ 32 }
    {
        &self.entries
    }

    /// How long it is: the place of its last entry, or of its page.
    pub fn len(&self) -> u32
        ensures { result ≡ size self.now }
    {
        self.page.at + self.entries.len() as u32
    }

    /// The same book, in memory of its own.
    pub fn copy(&self, alloc: Global) -> Result<PlainBook, Memory>
        ensures { IfOk result (λ book. book ≡ self.now) }
    {
        Ok(PlainBook {
            page: copy_page(alloc, &self.page)?,
            entries: copy_entries(alloc, &self.entries)?,
        })
    }

    // How many of its entries stand up to a place.
    fn entries_up_to(&self, place: u32) -> usize
        ensures front { take result self.now.entries ≡ (up_to place self.now).entries }
        ensures rest { drop result self.now.entries ≡ since place self.now }
        ensures bound { result ≤ length self.now.entries }
    {
        let many = place.saturating_sub(self.page.at) as usize;
        many.min(self.entries.len())
    }

    // The book up to a place.
    pub(crate) fn up_to(&self, alloc: Global, place: u32) -> Result<PlainBook, Memory>
        ensures { IfOk result (λ book. book ≡ up_to place self.now) }
    {
        let many = self.entries_up_to(place);
        Ok(PlainBook {
            page: copy_page(alloc, &self.page)?,
            entries: copy_entries(alloc, &self.entries[..many])?,
        })
    }

    // The entries since a place.
    pub(crate) fn since(&self, place: u32) -> &[Entry]
        ensures { result.now ≡ since place self.now }
    {
        let many = self.entries_up_to(place);
        &self.entries[many..]
    }

    // One more entry, at its end.
    pub(crate) fn enter(&mut self, entry: Entry) -> Result<(), Memory>
        requires { size self.old + 1 < 2 ^ 32 }
        ensures ok { OnOk result (self.new ≡ with_entry self.old entry) }
        ensures err { OnErr result (self.new ≡ self.old) }
    {
        self.entries.push(entry)?;
        Ok(())
    }
}
