ghost use Rattle.std.specs.Prelude.{◌≡◌, ◌≤◌, ◌+◌, [], length, option_map, OnOk, is_some, not};
ghost use Rattle.std.specs.List.{filter, list_any};
ghost use Rattle.std.specs.Str.{bytes_eq};
ghost use Rattle.std.specs.Iterator.{YieldsFirstBy, item_count};
ghost use Rattle.rv_rows.specs.declared.key.Kind.TheVariants.{Extent};
ghost use Rattle.rv_rows.specs.Keys.{key_text, row_text};
ghost use Rattle.rv_rows.specs.Held.{find, put, remove, rows_in, AreRows};
ghost use Rattle.rv_rows.specs.Sharing.{belongs, is_any_extent, user_of};
ghost use Rattle.rv_rows.specs.Effects.{greatest_sort};
ghost use Rattle.rv_rows.specs.Slots.{standing, AreSlots};

use crate::indexed::IndexedRows;
use crate::key::{Key, Kind};
use crate::row::Row;
use rv_base::{Id, Memory, User};
use rv_chunks::{At, Walk};
use std::alloc::Global;
use std::marker::Model;

/// The rows that stand, each with the version of its last write, in the order of their keys.
///
/// A contract sees the list of rows and versions, and a lower bound of the space that is left, `spare`.
#[derive(Debug, Drop)]
pub struct Tables {
    rows: IndexedRows,
}

impl Model for Tables {
    ghost use Rattle.rv_rows.specs.Held.{Held};
    ghost use Rattle.rv_rows.specs.Slots.{rows_of};

    ghost Value = { Held };

    ghost view = { λ t. record { rows = rows_of t.rows; spare = t.rows.spare } };
}

impl Tables {
    /// No row.
    pub fn new(alloc: Global) -> Tables
        ensures { result.rows ≡ [] }
    {
        Tables {
            rows: IndexedRows::new(alloc),
        }
    }

    /// The row of a key, with its version. Takes no memory.
    pub fn get(&self, key: &Key) -> Option<(&Row, u32)>
        ensures { option_map (λ r. (r.0.now, r.1)) result ≡ find (key_text key.now) self.now.rows }
    {
        self.row(key.kind, &key.id)
    }

    /// The row of this kind and id, with its version. Takes no memory.
    pub fn row(&self, kind: Kind, id: &Id) -> Option<(&Row, u32)>
        ensures found { option_map (λ r. (r.0.now, r.1)) result ≡ find (key_text (record { kind = kind; id = id.now })) self.now.rows }
        ensures order { AreRows self.now.rows }
    {
        self.find(kind, id.as_str())
    }

    /// The extent of a user, with its version, where there is one. Takes no memory, and searches only where somebody has one.
    pub fn extent(&self, user: &User) -> Option<(&Row, u32)>
        ensures found { option_map (λ r. (r.0.now, r.1)) result ≡ find (key_text (record { kind = Extent; id = user.now })) self.now.rows }
        ensures order { AreRows self.now.rows }
    {
        if self.has_extents() {
            self.find(Kind::Extent, user.as_str())
        } else {
            None
        }
    }

    // Whether some row is an extent: these stand before all others.
    fn has_extents(&self) -> bool
        ensures extents { result ≡ list_any is_any_extent (rows_in self.now.rows) }
        ensures order { AreRows self.now.rows }
    {
        match self.iter().next() {
            Some((row, _version)) => row.is_extent(),
            None => false,
        }
    }

    // The row of this kind and of the id with this text, with its version.
    fn find(&self, kind: Kind, id: &str) -> Option<(&Row, u32)>
        ensures found { option_map (λ r. (r.0.now, r.1)) result ≡ find (key_text (record { kind = kind; id = id.now })) self.now.rows }
        ensures order { AreRows self.now.rows }
    {
        match self.rows.position(kind, id) {
            Ok(at) => Some(self.rows.row_at(at)),
            Err(_) => None,
        }
    }

    /// Makes space for so many more rows.
    pub fn reserve(&mut self, more: usize) -> Result<(), Memory>
        ensures rows { self.new.rows ≡ self.old.rows }
        ensures ok { OnOk result (more ≤ self.new.spare) }
        ensures spare { self.old.spare ≤ self.new.spare }
    {
        self.rows.reserve(more)
    }

    /// Writes a row, in the place of the one that has its key. It can't fail, and takes no memory.
    pub fn put(&mut self, row: Row, version: u32)
        requires { 1 ≤ self.old.spare }
        ensures rows { self.new.rows ≡ put (row, version) self.old.rows }
        ensures spare { self.old.spare ≤ self.new.spare + 1 }
    {
        self.rows.put(row, version, None);
    }

    /// The same. A place that [`Tables::gap`] gave, for the key of this row, is looked at before all others are searched.
    pub fn put_near(&mut self, row: Row, version: u32, near: Option<At>)
        requires { 1 ≤ self.old.spare }
        ensures rows { self.new.rows ≡ put (row, version) self.old.rows }
        ensures spare { self.old.spare ≤ self.new.spare + 1 }
    {
        self.rows.put(row, version, near);
    }

    /// Where a row of this kind and id would go, where there is none: a place for [`Tables::put_near`]. Takes no memory.
    pub fn gap(&self, kind: Kind, id: &Id) -> Option<At>
        ensures { is_some result ≡ not (is_some (find (key_text (record { kind = kind; id = id.now })) self.now.rows)) }
    {
        match self.rows.position(kind, id.as_str()) {
            Ok(_) => None,
            Err(at) => Some(at),
        }
    }

    /// Whether some row has the key of this one. Takes no memory.
    pub fn has_key_of(&self, row: &Row) -> bool
        ensures { result ≡ is_some (find (row_text row.now) self.now.rows) }
    {
        self.find(row.kind(), row.id()).is_some()
    }

    /// Removes the row of a key, and says whether there was one.
    pub fn remove(&mut self, key: &Key) -> bool
        ensures rows { self.new.rows ≡ remove (key_text key.now) self.old.rows }
        ensures found { result ≡ is_some (find (key_text key.now) self.old.rows) }
        ensures spare { self.old.spare ≤ self.new.spare }
    {
        match self.rows.position(key.kind, key.id.as_str()) {
            Ok(at) => {
                self.rows.remove_at(at);
                true
            }
            Err(_) => false,
        }
    }

    /// The rows with their versions, in the order of their keys.
    pub fn iter(&self) -> RowsInOrder<'_>
        ensures rows { result ≡ self.now.rows }
        ensures order { AreRows self.now.rows }
    {
        self.rows.iter()
    }

    /// The rows stand in the order of their keys, no two with one key: the type has it so. It does nothing.
    pub fn fits(&self)
        ensures { AreRows self.now.rows }
    {
        let _rows = self.rows.iter();
    }

    /// The rows of a list: the list itself, its shares and its todos, with their versions, in the order of their keys. Takes
    /// no memory.
    pub fn of_list(&self, list: &Id) -> RowsInOrder<'_>
        ensures rows { result ≡ filter (λ s. belongs list.now s.0) self.now.rows }
        ensures order { AreRows self.now.rows }
    {
        self.rows.of_list(list)
    }

    /// The rows that name a user: the user's extent, the lists that the user owns and the shares with the user, with their
    /// versions, in the order of their keys. Takes no memory.
    pub fn of_user(&self, user: &User) -> RowsInOrder<'_>
        ensures rows { result ≡ filter (λ s. bytes_eq (user_of s.0) user.now) self.now.rows }
        ensures order { AreRows self.now.rows }
    {
        self.rows.of_user(user)
    }
    /// The greatest sort of the todos of a list, and 0 where it has none. Takes no memory, and walks no rows.
    pub fn greatest_sort(&self, list: &Id) -> u64
        ensures { result ≡ greatest_sort list.now (rows_in self.now.rows) }
    {
        self.rows.greatest_sort(list)
    }
}

/// The rows of [`Tables`](crate::Tables) that are still to come, in the order of their keys.
///
/// A contract sees the list of those that are left, each with its version.
#[derive(Drop)]
pub struct RowsInOrder<'a> {
    slots: &'a [(Row, u32)],
    // the slots of those that are left
    order: Walk<'a, u32>,
}

impl<'a> Model for RowsInOrder<'a> {
    ghost use Rattle.std.specs.Prelude.{List, length};
    ghost use Rattle.rv_rows.specs.Held.{Stored};
    ghost use Rattle.rv_rows.specs.Slots.{standing, AreSlots};

    ghost Value = { List Stored };

    ghost view = { λ left. standing left.slots.now left.order };

    ghost invariant = { λ left. AreSlots (length left.slots.now) left.order };
}

impl<'a> RowsInOrder<'a> {
    // The rows in the slots of an order.
    pub(crate) fn new(slots: &'a [(Row, u32)], order: Walk<'a, u32>) -> RowsInOrder<'a>
        requires { AreSlots (length slots.now) order }
        ensures { result ≡ standing slots.now order.entry }
    {
        RowsInOrder { slots, order }
    }
}

impl<'a> Iterator for RowsInOrder<'a> {
    type Item = (&'a Row, u32);

    ghost next_gives = { YieldsFirstBy (λ item. (item.0.now, item.1)) (λ left. left) };

    ghost remaining = { item_count (λ left. left) };

    fn next(&mut self) -> Option<(&'a Row, u32)> {
        let slot = *self.order.next()?;
        let stored = &self.slots[slot as usize];
        Some((&stored.0, stored.1))
    }
}
