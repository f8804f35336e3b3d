ghost use Rattle.std.specs.Prelude.{◌≡◌, ◌≤◌, ◌+◌, [], length, OnOk, MatchResult, Ok, Err, None, slice_index_or, slice_set};
ghost use Rattle.std.specs.List.{filter, insert, remove as removed};
ghost use Rattle.std.specs.Str.{bytes_eq};
ghost use Rattle.rv_base.specs.Sorted.{IsPositionOf};
ghost use Rattle.rv_chunks.specs.Chunking.{index_of, index_found, IsItem, IsGap};
ghost use Rattle.rv_rows.specs.Keys.{key_text, row_text};
ghost use Rattle.rv_rows.specs.Held.{find, put, rows_in, AreRows, stored_key};
ghost use Rattle.rv_rows.specs.declared.filing.Filing.TheVariants as filings;
ghost use Rattle.rv_rows.specs.Sharing.{belongs, user_of};
ghost use Rattle.rv_rows.specs.Filed.{sort_of, under};
ghost use Rattle.rv_rows.specs.Effects.{greatest_sort};
ghost use Rattle.rv_rows.specs.Slots.{rows_of, no_row};

use crate::filing::Filing;
use crate::key::Kind;
use crate::positions::{
    enter, first_under, gap_filed, place_of, position_by_key, position_by_key_near, position_filed,
    push, rewrite, slots_under, strike, vacate,
};
use crate::row::Row;
use crate::tables::RowsInOrder;
use rv_base::{Id, Memory, User};
use rv_chunks::{At, Chunks};
use std::alloc::Global;
use std::marker::Model;

// How many slots a chunk of an order has at most. Where a chunk is split the list of all chunks moves, 24 bytes for each, so chunks are as large
// as moving within one is cheap: of 256 slots some 400 bytes.
const CHUNK: usize = 256;

// Rows with their versions, found by their keys, by their lists, by the users whom they name, and by their sorts in their lists.
#[derive(Debug, Drop)]
pub(crate) struct IndexedRows {
    // the rows, each in a slot of its own, in no order
    slots: Vec<(Row, u32)>,
    // the slots in the order of their rows' keys
    by_key: Chunks<u32>,
    // the slots of rows that have lists in the order of these, and within a list in that of their keys
    by_list: Chunks<u32>,
    // the slots of rows that name users in the order of these, and of one user in that of their keys: no todo
    by_user: Chunks<u32>,
    // the slots of rows that have lists in the order of these, within a list by their sorts from the greatest down, and of one sort in the
    // order of their keys
    by_sort: Chunks<u32>,
    // the slots and each of the four orders have space for so many more
    spare: usize,
}

impl Model for IndexedRows {
    ghost use Rattle.rv_chunks.specs.Chunking.{items};
    ghost use Rattle.rv_rows.specs.Slots.{Slotted, HasOrders, HaveSpace};

    ghost Value = { Slotted };

    ghost view = { λ t. record { slots = t.slots.items; by_key = t.by_key.chunks; by_list = t.by_list.chunks; by_user = t.by_user.chunks; by_sort = t.by_sort.chunks; spare = t.spare } };

    ghost invariant = { λ t. HasOrders t.slots.items (items t.by_key.chunks) (items t.by_list.chunks) (items t.by_user.chunks) (items t.by_sort.chunks) × HaveSpace t.slots t.by_key.spare t.by_list.spare t.by_user.spare t.by_sort.spare t.spare };
}

impl IndexedRows {
    // No row.
    pub(crate) fn new(alloc: Global) -> IndexedRows
        ensures { rows_of result ≡ [] }
    {
        IndexedRows {
            slots: Vec::new(alloc),
            by_key: Chunks::new(alloc, CHUNK),
            by_list: Chunks::new(alloc, CHUNK),
            by_user: Chunks::new(alloc, CHUNK),
            by_sort: Chunks::new(alloc, CHUNK),
            spare: 0,
        }
    }

    // Makes space for so many more rows.
    pub(crate) fn reserve(&mut self, more: usize) -> Result<(), Memory>
        ensures rows { rows_of self.new ≡ rows_of self.old }
        ensures ok { OnOk result (more ≤ self.new.spare) }
        ensures spare { self.old.spare ≤ self.new.spare }
    {
        if more <= self.spare {
            return Ok(());
        }
        // a slot's number is a `u32`
        if more > u32::MAX as usize - self.slots.len() {
            return Err(Memory);
        }
        self.slots.reserve(more)?;
        self.by_key.reserve(more)?;
        self.by_list.reserve(more)?;
        self.by_user.reserve(more)?;
        self.by_sort.reserve(more)?;
        self.spare = more;
        Ok(())
    }

    // Where the row of a key stands in the order of the keys, or where it would go.
    pub(crate) fn position(&self, kind: Kind, id: &str) -> Result<At, At>
        ensures position { IsPositionOf stored_key (key_text (record { kind = kind; id = id.now })) (rows_of self.now) (index_found self.now.by_key result) }
        ensures at { MatchResult result (IsItem self.now.by_key) (IsGap self.now.by_key) }
        ensures order { AreRows (rows_of self.now) }
    {
        position_by_key(&self.slots, &self.by_key, kind, id)
    }

    // The same. A place, where one is given, is looked at before all others are searched.
    fn position_near(&self, kind: Kind, id: &str, near: Option<At>) -> Result<At, At>
        ensures position { IsPositionOf stored_key (key_text (record { kind = kind; id = id.now })) (rows_of self.now) (index_found self.now.by_key result) }
        ensures at { MatchResult result (IsItem self.now.by_key) (IsGap self.now.by_key) }
        ensures order { AreRows (rows_of self.now) }
    {
        match near {
            Some(near) => position_by_key_near(&self.slots, &self.by_key, kind, id, near),
            None => self.position(kind, id),
        }
    }

    // The row that stands there, with its version.
    pub(crate) fn row_at(&self, at: At) -> (&Row, u32)
        requires { IsItem self.now.by_key at }
        ensures row { (result.0.now, result.1) ≡ slice_index_or (rows_of self.now) (index_of self.now.by_key at) no_row }
        ensures order { AreRows (rows_of self.now) }
    {
        let stored = &self.slots[*self.by_key.get(at) as usize];
        (&stored.0, stored.1)
    }

    // Writes a row, in the place of the one that has its key. A place, where one is given, is looked at before all others are searched. It
    // can't fail, and takes no memory.
    pub(crate) fn put(&mut self, row: Row, version: u32, near: Option<At>)
        requires { 1 ≤ self.old.spare }
        ensures rows { rows_of self.new ≡ put (row, version) (rows_of self.old) }
        ensures spare { self.old.spare ≤ self.new.spare + 1 }
    {
        match self.position_near(row.kind(), row.id(), near) {
            Ok(at) => self.write_at(at, row, version),
            Err(at) => self.put_at(at, row, version),
        }
    }

    // Writes a row in the place of the one that has its key, which stands there.
    fn write_at(&mut self, at: At, row: Row, version: u32)
        requires spare { 1 ≤ self.old.spare }
        requires item { IsItem self.old.by_key at }
        requires position { IsPositionOf stored_key (row_text row) (rows_of self.old) (Ok (index_of self.old.by_key at)) }
        ensures rows { rows_of self.new ≡ put (row, version) (rows_of self.old) }
        ensures spare { self.old.spare ≤ self.new.spare + 1 }
    {
        if self.row_at(at).0.is_filed_as(&row) {
            self.rewrite_at(at, row, version);
        } else {
            self.remove_at(at);
            self.put_absent(row, version);
        }
    }

    // Writes a row in the place of one with its key that is filed as it is.
    fn rewrite_at(&mut self, at: At, row: Row, version: u32)
        requires item { IsItem self.old.by_key at }
        requires position { IsPositionOf stored_key (row_text row) (rows_of self.old) (Ok (index_of self.old.by_key at)) }
        requires list { under filings.List (slice_index_or (rows_of self.old) (index_of self.old.by_key at) no_row).0 ≡ under filings.List row }
        requires user { user_of (slice_index_or (rows_of self.old) (index_of self.old.by_key at) no_row).0 ≡ user_of row }
        requires sort { sort_of (slice_index_or (rows_of self.old) (index_of self.old.by_key at) no_row).0 ≡ sort_of row }
        ensures rows { rows_of self.new ≡ slice_set (rows_of self.old) (index_of self.old.by_key at) (row, version) }
        ensures spare { self.new.spare ≡ self.old.spare }
    {
        let slot = *self.by_key.get(at);
        rewrite(&mut self.slots, slot, row, version);
    }

    // Puts a row whose key no row has.
    fn put_absent(&mut self, row: Row, version: u32)
        requires spare { 1 ≤ self.old.spare }
        requires absent { find (row_text row) (rows_of self.old) ≡ None }
        ensures rows { rows_of self.new ≡ put (row, version) (rows_of self.old) }
        ensures spare { self.old.spare ≤ self.new.spare + 1 }
    {
        match self.position(row.kind(), row.id()) {
            Ok(_) => unreachable!(),
            Err(at) => self.put_at(at, row, version),
        }
    }

    // Puts a row whose key no row has there, where it goes in the order of the keys.
    fn put_at(&mut self, at: At, row: Row, version: u32)
        requires spare { 1 ≤ self.old.spare }
        requires gap { IsGap self.old.by_key at }
        requires position { IsPositionOf stored_key (row_text row) (rows_of self.old) (Err (index_of self.old.by_key at)) }
        ensures rows { rows_of self.new ≡ put (row, version) (rows_of self.old) }
        ensures spare { self.old.spare ≤ self.new.spare + 1 }
    {
        let slot = self.slots.len() as u32;
        let in_list = gap_filed(&self.slots, &self.by_list, Filing::List, &row);
        let of_user = gap_filed(&self.slots, &self.by_user, Filing::User, &row);
        let of_sort = gap_filed(&self.slots, &self.by_sort, Filing::Sort, &row);
        push(&mut self.slots, row, version);
        self.by_key.insert(at, slot);
        enter(&mut self.by_list, in_list, slot);
        enter(&mut self.by_user, of_user, slot);
        enter(&mut self.by_sort, of_sort, slot);
        self.spare -= 1;
    }

    // Removes the row that stands there. The row of the last slot moves to the slot that it leaves.
    pub(crate) fn remove_at(&mut self, at: At)
        requires { IsItem self.old.by_key at }
        ensures rows { rows_of self.new ≡ removed (rows_of self.old) (index_of self.old.by_key at) }
        ensures spare { self.new.spare ≡ self.old.spare }
    {
        let slot = *self.by_key.get(at);
        let in_list = place_of(&self.slots, &self.by_list, Filing::List, slot);
        let of_user = place_of(&self.slots, &self.by_user, Filing::User, slot);
        let of_sort = place_of(&self.slots, &self.by_sort, Filing::Sort, slot);
        let last = (self.slots.len() - 1) as u32;
        let moved = &self.slots[last as usize].0;
        let moved_by_key = position_by_key(&self.slots, &self.by_key, moved.kind(), moved.id());
        let moved_by_list = position_filed(&self.slots, &self.by_list, Filing::List, moved);
        let moved_by_user = position_filed(&self.slots, &self.by_user, Filing::User, moved);
        let moved_by_sort = position_filed(&self.slots, &self.by_sort, Filing::Sort, moved);
        strike(&mut self.by_key, Some(at), moved_by_key, last, slot);
        strike(&mut self.by_list, in_list, moved_by_list, last, slot);
        strike(&mut self.by_user, of_user, moved_by_user, last, slot);
        strike(&mut self.by_sort, of_sort, moved_by_sort, last, slot);
        vacate(&mut self.slots, slot);
    }

    // The rows in the order of their keys.
    pub(crate) fn iter(&self) -> RowsInOrder<'_>
        ensures rows { result ≡ rows_of self.now }
        ensures order { AreRows (rows_of self.now) }
    {
        RowsInOrder::new(&self.slots, self.by_key.iter())
    }

    // The rows of a list, in the order of their keys: those that are filed under its id, which is not empty.
    pub(crate) fn of_list(&self, list: &Id) -> RowsInOrder<'_>
        ensures rows { result ≡ filter (λ s. belongs list.now s.0) (rows_of self.now) }
        ensures order { AreRows (rows_of self.now) }
    {
        RowsInOrder::new(
            &self.slots,
            slots_under(&self.slots, &self.by_list, Filing::List, list.as_str()),
        )
    }

    // The rows that name a user, in the order of their keys: those that are filed under the name, which is not empty.
    pub(crate) fn of_user(&self, user: &User) -> RowsInOrder<'_>
        ensures rows { result ≡ filter (λ s. bytes_eq (user_of s.0) user.now) (rows_of self.now) }
        ensures order { AreRows (rows_of self.now) }
    {
        RowsInOrder::new(
            &self.slots,
            slots_under(&self.slots, &self.by_user, Filing::User, user.as_str()),
        )
    }

    // The greatest sort of the todos of a list, and 0 where there is none: that of the first row that is filed under its id, which is not
    // empty.
    pub(crate) fn greatest_sort(&self, list: &Id) -> u64
        ensures { result ≡ greatest_sort list.now (rows_in (rows_of self.now)) }
    {
        match first_under(&self.slots, &self.by_sort, Filing::Sort, list.as_str()) {
            Some(slot) => self.slots[slot as usize].0.sort(),
            None => 0,
        }
    }
}
