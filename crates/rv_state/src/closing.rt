// A state that opens with a page, and one whose book is closed.
ghost use Rattle.std.specs.Prelude.{◌≡◌, ◌≤◌, ◌<◌, [], IfOk};
ghost use Rattle.std.specs.List.{AllByRecursion};
ghost use Rattle.rv_book.specs.Book.{book_from, size};
ghost use Rattle.rv_book.specs.Registers.{clients_of, groups_of};
ghost use Rattle.rv_book.specs.SoundPages.{IsSoundPage};
ghost use Rattle.rv_history.specs.Closing.{SumsUp};
ghost use Rattle.rv_history.specs.Replay.{IsReplay};
ghost use Rattle.rv_record.specs.PageCells.{PartsFit};
ghost use Rattle.rv_record.specs.CellReading.{ClientFits, GroupFits};
ghost use Rattle.rv_record.specs.RowReading.{RowFits};
ghost use Rattle.rv_state.specs.declared.prepared.Prepared.TheVariants.{Closing};
ghost use Rattle.rv_history.specs.Served.{IsOf};
ghost use Rattle.rv_state.specs.Ready.{IsPrepared, next_of};
ghost use Rattle.rv_turns.specs.Asks.{Ask};

use crate::marks::UserMarks;
use crate::prepared::Prepared;
use crate::state::State;
use rv_base::{Id, Memory, Num, Sequence, User};
use rv_book::{Book, Page};
use rv_news::Records;
use rv_record::{client_fits, group_fits, row_fits};
use rv_rows::{Row, Tables};
use std::alloc::Global;

impl State {
    /// The state of the book that opens with this page, without entries, and that may become so long. The page has to be sound, at a place
    /// from 1 to the limit, and of the form of its cells; the tables have its rows.
    pub fn opening(alloc: Global, limit: u32, page: Page, tables: Tables) -> Result<State, Memory>
        requires sound { IsSoundPage page }
        requires from { 1 ≤ page.at }
        requires within { page.at ≤ limit }
        requires fits { PartsFit page }
        requires rows { tables.rows ≡ page.rows }
        ensures book { IfOk result (λ state. state.book ≡ book_from page []) }
        ensures limit { IfOk result (λ state. state.limit ≡ limit) }
    {
        let book = Book::from_page(alloc, limit, page)?;
        Ok(State {
            book,
            tables,
            records: Records::new(alloc),
            marks: UserMarks::new(alloc),
            alloc,
        })
    }

    // The rows of a page that sums up the book.
    fn page_rows(&self) -> Result<Sequence<(Row, u32)>, Memory>
        ensures rows { IfOk result (IsReplay self.now.book) }
        ensures fits { IfOk result (AllByRecursion RowFits) }
    {
        let mut rows = Sequence::new(self.alloc);
        for (row, version) in self.tables.iter() {
            row_fits(row, version);
            rows.push((row.copy(self.alloc)?, version))?;
        }
        Ok(rows)
    }

    // Its clients.
    fn page_clients(&self) -> Result<Sequence<(Id, Id, Num)>, Memory>
        ensures clients { IfOk result (λ clients. clients ≡ clients_of self.now.book) }
        ensures fits { IfOk result (AllByRecursion ClientFits) }
    {
        let mut clients = Sequence::new(self.alloc);
        for index in 0..self.book.client_count() {
            let Some(told) = self.book.client_at(index) else {
                // there are so many
                unreachable!()
            };
            client_fits(told.client, told.group, told.last);
            let client = told.client.copy(self.alloc)?;
            let group = told.group.copy(self.alloc)?;
            clients.push((client, group, told.last))?;
        }
        Ok(clients)
    }

    // Its groups.
    fn page_groups(&self) -> Result<Sequence<(Id, User, Num, bool)>, Memory>
        ensures groups { IfOk result (λ groups. groups ≡ groups_of self.now.book) }
        ensures fits { IfOk result (AllByRecursion GroupFits) }
    {
        let mut groups = Sequence::new(self.alloc);
        for index in 0..self.book.group_count() {
            let Some(told) = self.book.group_at(index) else {
                // there are so many
                unreachable!()
            };
            group_fits(told.group, told.user, told.last_order, told.retired);
            let group = told.group.copy(self.alloc)?;
            let user = told.user.copy(self.alloc)?;
            groups.push((group, user, told.last_order, told.retired))?;
        }
        Ok(groups)
    }

    // The page that sums up the book, at the place after the last.
    fn page(&self) -> Result<Page, Memory>
        requires { size self.now.book < self.now.limit }
        ensures sums { IfOk result (SumsUp self.now.book) }
        ensures fits { IfOk result PartsFit }
    {
        Ok(Page {
            at: self.book.len() + 1,
            rows: self.page_rows()?,
            clients: self.page_clients()?,
            groups: self.page_groups()?,
        })
    }

    // The book that closing leaves of this one: it opens with the page that sums this one up, at the place after the last, and has no entries.
    fn closed(&self) -> Result<Book, Memory>
        requires { size self.now.book < self.now.limit }
        ensures { IfOk result (λ closed. IsPrepared self.now (Closing closed)) }
    {
        let limit = self.book.limit();
        let page = self.page()?;
        Book::from_page(self.alloc, limit, page)
    }

    /// Prepares the closing of the book. It takes all the memory that closing needs, and changes nothing.
    pub fn prepare_closing(&self) -> Result<Prepared, Memory>
        requires { size self.now.book < self.now.limit }
        ensures prepared { IfOk result (IsPrepared self.now) }
        ensures closes { IfOk result (λ prepared. IsOf Ask.closing (next_of prepared)) }
    {
        Ok(Prepared::Closing(self.closed()?))
    }

    // Takes up the closed book, in the place of its own. It can't fail, and takes no memory. The rows stay; of the looks none is kept any
    // more, and every user's mark is the page's place.
    pub(crate) fn close(&mut self, closed: Book)
        requires { IsPrepared self.old (Closing closed) }
        ensures book { self.new.book ≡ closed.book }
        ensures limit { self.new.limit ≡ self.old.limit }
    {
        self.book = closed;
        self.records = Records::new(self.alloc);
        self.marks = UserMarks::new(self.alloc);
    }
}
