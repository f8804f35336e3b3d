ghost use Rattle.std.specs.Prelude.{◌≡◌, ◌≤◌, ◌<◌, ◌+◌, ◌^◌, ◌↔◌, IsTrue, length, [], option_map, IfOk, OnOk, Err, Some, None, IfSome, slice_get};
ghost use Rattle.std.specs.Option.{option_map_or};
ghost use Rattle.rv_base.specs.Sorted.{InOrder};
ghost use Rattle.rv_book.specs.Book.{book_from, bound, empty_book, entry_at, group_of, ids, last, last_order, retired, size, with_entry};
ghost use Rattle.rv_book.specs.Kept.{falls_out, kept, last_look, look_at};
ghost use Rattle.rv_book.specs.Logs.{logged};
ghost use Rattle.rv_book.specs.Registers.{clients_of, groups_of, RetiresBound};
ghost use Rattle.rv_book.specs.SoundPages.{IsSoundPage};
ghost use Rattle.rv_book.specs.declared.fault.BookFault.TheVariants as BookFault;

use crate::clients::{ClientRef, ClientRow};
use crate::entry::Entry;
use crate::fault::BookFault;
use crate::found::Found;
use crate::group_clients::GroupClients;
use crate::groups::{GroupInfo, GroupRef, GroupRow};
use crate::log::Log;
use crate::look::{LookRef, LookRow, look_at};
use crate::page::Page;
use crate::{clients, groups, look, members};
use rv_base::{Id, Memory, Num, Sequence, User};
use rv_rows::Clients;
use std::alloc::Global;
use std::marker::Model;

/// The greatest length that a book may have: places are numbers below 2^32.
pub const BOOK_LIMIT: u32 = 4_294_967_295;

/// A book: its opening page, if it has one, and its entries in order, up to a place at most.
#[derive(Debug, Drop)]
pub struct Book {
    // The opening page; at 0 where there is none.
    page: Page,
    entries: Vec<Entry>,
    // Of each entry its look row, by which looks are counted and followed back.
    look_rows: Vec<LookRow>,
    groups: Vec<GroupRow>,
    clients: Vec<ClientRow>,
    // The same rows by group: in the order of the clients' groups, and then of the clients.
    members: Vec<ClientRow>,
    limit: u32,
    alloc: Global,
}

impl Model for Book {
    ghost use Rattle.std.specs.Prelude.{min};
    ghost use Rattle.rv_book.specs.Book.{book_from};
    ghost use Rattle.rv_book.specs.Recorded.{Recorded, free};
    ghost use Rattle.rv_book.specs.Indexed.{IsIndexed};

    ghost Value = { Recorded };

    ghost view = { λ b. record { book = book_from b.page b.entries.items; limit = b.limit; spare = min (min (free b.entries) (free b.look_rows)) (min (free b.groups) (min (free b.clients) (free b.members))) } };

    ghost invariant = { λ b. IsIndexed (book_from b.page b.entries.items) b.limit b.look_rows.items b.groups.items b.clients.items b.members.items };
}

impl Book {
    /// The empty book, which may become as long as the limit.
    pub fn new(alloc: Global, limit: u32) -> Book
        ensures book { result.book ≡ empty_book }
        ensures limit { result.limit ≡ limit }
    {
        Book {
            page: Page::none(alloc),
            entries: Vec::new(alloc),
            look_rows: Vec::new(alloc),
            groups: Vec::new(alloc),
            clients: Vec::new(alloc),
            members: Vec::new(alloc),
            limit,
            alloc,
        }
    }

    /// The book that opens with a page and has no entries yet, which may become as long as the limit. It takes the memory of its
    /// indexes; where that is refused, the page is dropped.
    pub fn from_page(alloc: Global, limit: u32, page: Page) -> Result<Book, Memory>
        requires sound { IsSoundPage page }
        requires within { page.at ≤ limit }
        ensures book { IfOk result (λ book. book.book ≡ book_from page []) }
        ensures limit { IfOk result (λ book. book.limit ≡ limit) }
    {
        let groups = groups::of_page(alloc, &page)?;
        let clients = clients::of_page(alloc, &page)?;
        let members = members::of_page(alloc, &page)?;
        Ok(Book {
            page,
            entries: Vec::new(alloc),
            look_rows: Vec::new(alloc),
            groups,
            clients,
            members,
            limit,
            alloc,
        })
    }

    // What look-ups read.
    fn log(&self) -> Log<'_>
        ensures { logged result ≡ self.now.book }
    {
        Log {
            page: &self.page,
            entries: &self.entries,
        }
    }

    /// The book is within its limit, which is below 2^32: the type has it so. It does nothing.
    pub fn fits(&self)
        ensures bound { size self.now.book ≤ self.now.limit }
        ensures range { self.now.limit < 2 ^ 32 }
    {
        let _limit = self.limit;
    }

    /// How long the book is: the place of its last entry, or of its page.
    pub fn len(&self) -> u32
        ensures value { result ≡ size self.now.book }
        ensures bound { size self.now.book ≤ self.now.limit }
        ensures range { self.now.limit < 2 ^ 32 }
    {
        self.fits();
        self.log().len()
    }

    /// How long the book may become.
    pub fn limit(&self) -> u32
        ensures { result ≡ self.now.limit }
    {
        self.limit
    }

    /// The place of the opening page, after which the entries stand; 0 where there is none.
    pub fn opened_at(&self) -> u32
        ensures value { result ≡ self.now.book.page.at }
        ensures bound { self.now.book.page.at ≤ size self.now.book }
    {
        self.page.at
    }

    /// The page that the book opened with, where there is one: what the entries since have changed is not on it. Takes no memory.
    pub fn page(&self) -> Option<&Page>
        ensures page { IfSome result (λ page. page.now ≡ self.now.book.page) }
        ensures none { (result ≡ None) ↔ (self.now.book.page.at ≡ 0) }
    {
        if self.page.at == 0 {
            return None;
        }
        Some(&self.page)
    }

    /// Whether the book is as long as it may be.
    pub fn is_full(&self) -> bool
        ensures value { IsTrue result ↔ (size self.now.book ≡ self.now.limit) }
        ensures bound { size self.now.book ≤ self.now.limit }
    {
        self.len() == self.limit
    }

    /// The entry at a place; the first stands after the page's, or at 1.
    pub fn entry(&self, place: u32) -> Option<&Entry>
        ensures { option_map (λ entry. entry.now) result ≡ entry_at place self.now.book }
    {
        self.log().entry_at(place)
    }

    /// The user whom a group is bound to: that of the page, or else of the first act or look that names the group.
    pub fn bound(&self, group: &Id) -> Option<&User>
        ensures { option_map (λ user. user.now) result ≡ bound group.now self.now.book }
    {
        self.group(group).user
    }

    /// The group of a client: that of the page, or else of its first act.
    pub fn group_of(&self, client: &Id) -> Option<&Id>
        ensures { option_map (λ group. group.now) result ≡ group_of client.now self.now.book }
    {
        match self.client(client) {
            Some(info) => Some(info.group),
            None => None,
        }
    }

    /// The last mutation id of a client: that of the page, or 0, plus the number of its acts.
    pub fn last(&self, client: &Id) -> Num
        ensures value { result ≡ last client.now self.now.book }
        ensures bound { result ≤ size self.now.book }
    {
        match self.client(client) {
            Some(info) => info.last,
            None => Num::from_u64(0),
        }
    }

    /// The order of a group's last look, or else that of the page, or 0.
    pub fn last_order(&self, group: &Id) -> Num
        ensures { result ≡ last_order group.now self.now.book }
    {
        groups::row(self.log(), &self.groups, group).order
    }

    /// Whether a group is retired.
    pub fn retired(&self, group: &Id) -> bool
        ensures { result ≡ retired group.now self.now.book }
    {
        groups::row(self.log(), &self.groups, group).retired
    }

    /// All that the book says of a group for a mutation, found by one search.
    pub fn group(&self, group: &Id) -> GroupRef<'_>
        ensures user { option_map (λ user. user.now) result.user ≡ bound group.now self.now.book }
        ensures retired { result.retired ≡ retired group.now self.now.book }
        ensures last_order { result.last_order ≡ last_order group.now self.now.book }
    {
        groups::info(self.log(), &self.groups, group)
    }

    /// The same. The group's row is looked for at an index first, where it was found before.
    pub fn group_found(&self, group: &Id, at: usize) -> GroupRef<'_>
        ensures user { option_map (λ user. user.now) result.user ≡ bound group.now self.now.book }
        ensures retired { result.retired ≡ retired group.now self.now.book }
        ensures last_order { result.last_order ≡ last_order group.now self.now.book }
    {
        groups::info_from(self.log(), &self.groups, group, at)
    }

    /// All that the book says of a client for a mutation, found by one search. Of a client that neither the page nor an act names
    /// there is nothing to tell: it has no group, and its last mutation id is 0.
    pub fn client(&self, client: &Id) -> Option<ClientRef<'_>>
        ensures name { IfSome result (λ info. info.client.now ≡ client.now) }
        ensures group { option_map (λ info. info.group.now) result ≡ group_of client.now self.now.book }
        ensures last { option_map_or (λ info. info.last) result 0 ≡ last client.now self.now.book }
        ensures bound { IfSome result (λ info. info.last ≤ size self.now.book) }
        ensures at { IfSome result (λ info. slice_get (clients_of self.now.book) info.at ≡ Some (info.client.now, info.group.now, info.last)) }
    {
        clients::info(self.log(), &self.clients, client)
    }

    /// How many clients the page or an act names.
    pub fn client_count(&self) -> usize
        ensures { result ≡ length (clients_of self.now.book) }
    {
        self.clients.len()
    }

    /// The client at an index, from 0, of the clients that the page or an act names, in the order of their bytes; `None` from
    /// their number on. It takes no memory, and the time of one look-up by index, however long the book is.
    pub fn client_at(&self, index: usize) -> Option<ClientRef<'_>>
        ensures info { option_map (λ info. (info.client.now, info.group.now, info.last)) result ≡ slice_get (clients_of self.now.book) index }
        ensures at { IfSome result (λ info. info.at ≡ index) }
    {
        clients::info_at(self.log(), &self.clients, index)
    }

    /// How many groups the page, an act or a look names. Each group that is retired has to be one of them.
    pub fn group_count(&self) -> usize
        requires { RetiresBound self.now.book }
        ensures { result ≡ length (groups_of self.now.book) }
    {
        self.groups.len()
    }

    /// The group at an index, from 0, of the groups that the page, an act or a look names, in the order of their bytes; `None`
    /// from their number on. It takes no memory, and the time of one look-up by index, however long the book is. Each group that
    /// is retired has to be one of them, as it is in every book that the machine makes.
    pub fn group_at(&self, index: usize) -> Option<GroupInfo<'_>>
        requires { RetiresBound self.now.book }
        ensures { option_map (λ info. (info.group.now, info.user.now, info.last_order, info.retired)) result ≡ slice_get (groups_of self.now.book) index }
    {
        groups::info_at(self.log(), &self.groups, index)
    }

    /// The clients of a group with their last mutation ids, in the order of the clients' bytes. Takes no memory.
    pub fn clients_of(&self, group: &Id) -> GroupClients<'_>
        ensures ids { result ≡ ids group.now self.now.book }
        ensures order { InOrder (λ pair. pair.0) (ids group.now self.now.book) }
    {
        members::of_group(self.log(), &self.members, group)
    }

    /// The same as a list.
    pub fn clients(&self, group: &Id) -> Result<Clients, Memory>
        ensures ids { IfOk result (λ v. v ≡ ids group.now self.now.book) }
        ensures order { IfOk result (λ v. InOrder (λ pair. pair.0) v) }
    {
        let mut clients = Sequence::new(self.alloc);
        for (client, last) in self.clients_of(group) {
            clients.push((client.copy(self.alloc)?, last))?;
        }
        Ok(clients)
    }

    /// The look at a place.
    pub fn look(&self, place: u32) -> Option<LookRef<'_>>
        ensures { option_map (λ look. (look.user.now, look.group.now, look.order)) result ≡ look_at place self.now.book }
    {
        look_at(self.log(), place)
    }

    /// Whether the look at a place is kept: its group is not retired, and fewer than [`KEPT_LOOKS`](crate::KEPT_LOOKS) later
    /// looks of its group stand in the book.
    pub fn kept(&self, place: u32) -> bool
        ensures { result ≡ kept place self.now.book }
    {
        look::kept(self.log(), &self.groups, &self.look_rows, place)
    }

    /// The place of a group's last look among the entries.
    pub fn last_look(&self, group: &Id) -> Option<u32>
        ensures { result ≡ last_look group.now self.now.book }
    {
        groups::row(self.log(), &self.groups, group).last_look
    }

    /// The place of the look that falls out with a group's next look: it is of the group and kept, and would not be kept any
    /// more if one more look of the group stood at the end of the book.
    pub fn falls_out(&self, group: &Id) -> Option<u32>
        ensures { result ≡ falls_out group.now self.now.book }
    {
        look::falls_out(self.log(), &self.groups, &self.look_rows, group)
    }

    /// Makes space for one more entry, and for what is looked up by it.
    pub fn reserve(&mut self) -> Result<(), BookFault>
        ensures book { self.new.book ≡ self.old.book }
        ensures limit { self.new.limit ≡ self.old.limit }
        ensures spare { self.old.spare ≤ self.new.spare }
        ensures ok { OnOk result ((1 ≤ self.new.spare) × (size self.old.book < self.old.limit)) }
        ensures full { (result ≡ Err BookFault.Full) ↔ (size self.old.book ≡ self.old.limit) }
    {
        if self.is_full() {
            return Err(BookFault::Full);
        }
        self.entries.reserve(1)?;
        self.look_rows.reserve(1)?;
        self.groups.reserve(1)?;
        self.clients.reserve(1)?;
        self.members.reserve(1)?;
        Ok(())
    }

    /// Enters an entry at the next place. It can't fail, and takes no memory.
    pub fn push_entry(&mut self, entry: Entry)
        requires spare { 1 ≤ self.old.spare }
        requires limit { size self.old.book < self.old.limit }
        ensures book { self.new.book ≡ with_entry self.old.book entry }
        ensures limit { self.new.limit ≡ self.old.limit }
        ensures spare { self.old.spare ≤ self.new.spare + 1 }
    {
        self.push_found(entry, Found::nowhere());
    }

    /// The same. The rows of the entry's group and client are looked for first where they were found before.
    pub fn push_found(&mut self, entry: Entry, found: Found)
        requires spare { 1 ≤ self.old.spare }
        requires limit { size self.old.book < self.old.limit }
        ensures book { self.new.book ≡ with_entry self.old.book entry }
        ensures limit { self.new.limit ≡ self.old.limit }
        ensures spare { self.old.spare ≤ self.new.spare + 1 }
    {
        let log = Log {
            page: &self.page,
            entries: &self.entries,
        };
        let look_row = look::look_row(log, &self.groups, &entry, found.group);
        match self.look_rows.push(look_row) {
            Ok(()) => {}
            Err(_) => unreachable!(),
        }
        groups::enter(log, &mut self.groups, &entry, found.group);
        let first_group = clients::enter(log, &mut self.clients, &entry, found.client);
        members::enter(log, &mut self.members, &entry, first_group);
        match self.entries.push(entry) {
            Ok(()) => {}
            Err(_) => unreachable!(),
        }
    }
}
