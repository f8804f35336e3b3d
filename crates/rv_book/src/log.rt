// What the look-ups of a book read: its page and its entries.
ghost use Rattle.std.specs.Prelude.{◌≡◌, ◌<◌, ◌+◌, ◌-◌, ◌^◌, length, option_map, option_and_then, slice_get};
ghost use Rattle.rv_book.specs.Book.{entry_at, size};
ghost use Rattle.rv_book.specs.Indexes.{acting, acting_pair, naming, naming_pair};
ghost use Rattle.rv_book.specs.Logs.{logged};

use crate::entry::{Entry, named, user_of};
use crate::page::Page;
use rv_base::{Id, User};

/// The page of a book and its entries.
#[derive(Clone, Copy, Debug)]
pub(crate) struct Log<'b> {
    pub(crate) page: &'b Page,
    pub(crate) entries: &'b [Entry],
}

impl<'b> Log<'b> {
    // How many name clients: the clients of the page, and then the entries.
    pub(crate) fn acting_len(self) -> usize
        ensures { result ≡ length (acting (logged self.entry)) }
    {
        self.page.clients.as_slice().len() + self.entries.len()
    }

    // The client and the group that one of these names by its index, if it is an act or of the page.
    pub(crate) fn acting_at(self, index: usize) -> Option<(&'b Id, &'b Id)>
        ensures { option_map (λ t. (t.0.now, t.1.now)) result ≡ option_and_then acting_pair (slice_get (acting (logged self.entry)) index) }
    {
        let clients = self.page.clients.as_slice();
        if index < clients.len() {
            let (client, group, _) = &clients[index];
            return Some((client, group));
        }
        match self.entries.get(index - clients.len())? {
            Entry::Act { client, group, .. } => Some((client, group)),
            Entry::Look { .. } => None,
            Entry::Retire { .. } => None,
        }
    }

    // How many name groups: the groups of the page, and then the entries.
    pub(crate) fn naming_len(self) -> usize
        ensures { result ≡ length (naming (logged self.entry)) }
    {
        self.page.groups.as_slice().len() + self.entries.len()
    }

    // The group that one of these names by its index, and the user to whom that binds the group, if it does.
    pub(crate) fn naming_at(self, index: usize) -> Option<(&'b Id, Option<&'b User>)>
        ensures { option_map (λ t. (t.0.now, option_map (λ user. user.now) t.1)) result ≡ option_map naming_pair (slice_get (naming (logged self.entry)) index) }
    {
        let groups = self.page.groups.as_slice();
        if index < groups.len() {
            let (group, user, _, _) = &groups[index];
            return Some((group, Some(user)));
        }
        let entry = self.entries.get(index - groups.len())?;
        Some((named(entry), user_of(entry)))
    }

    // How long the book is: the place of its last entry, or of its page.
    pub(crate) fn len(self) -> u32
        requires { size (logged self) < 2 ^ 32 }
        ensures { result ≡ size (logged self.entry) }
    {
        self.page.at + self.entries.len() as u32
    }

    // The index of the entry at a place, which stands after the page's.
    pub(crate) fn index(self, place: u32) -> usize
        requires { self.page.now.at < place }
        ensures { result ≡ place - (self.entry.page.now.at + 1) }
    {
        (place - self.page.at) as usize - 1
    }

    // The entry at a place, which stands after the page's.
    pub(crate) fn entry_at(self, place: u32) -> Option<&'b Entry>
        ensures { option_map (λ entry. entry.now) result ≡ entry_at place (logged self.entry) }
    {
        if place <= self.page.at {
            return None;
        }
        self.entries.get(self.index(place))
    }
}
