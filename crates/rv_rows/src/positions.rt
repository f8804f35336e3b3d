// Rows in slots, positions in orders of slots, and how they are looked for: how the row of each slot stands to what is sought.
ghost use Rattle.std.specs.Prelude.{◌≡◌, ℕ, ◌≤◌, ◌<◌, ◌+◌, None, nat_eq, ◌∷◌, ◌++◌, [], length, true, option_map, slice_get, slice_index_or, slice_set, vec_len, vec_capacity, IfSome, MatchResult};
ghost use Rattle.std.specs.List.{list_any, filter};
ghost use Rattle.std.specs.Ordering.{nat_cmp};
ghost use Rattle.std.specs.Cmp.Lexicographic.{slice_cmp};
ghost use Rattle.rv_base.specs.Sorted.{IsPositionOf, InOrder, find_by};
ghost use Rattle.rv_chunks.specs.Chunking.{items, index_of, index_found, IsItem, IsGap};
ghost use Rattle.rv_rows.specs.Keys.{key_text};
ghost use Rattle.rv_rows.specs.Held.{AreRows, stored_key};
ghost use Rattle.rv_rows.specs.Filed.{filed, filed_key, filed_text, is_filed, then_by, then_of, under};
ghost use Rattle.rv_rows.specs.declared.filing.Filing.TheVariants.{Sort};
ghost use Rattle.rv_rows.specs.Slots.{by_slot, row_of, standing, entered, left_out, AreSlots, IsGapFor, StandsIn, is_under, relabelled, renamed, Vacates};

use crate::filing::Filing;
use crate::key::Kind;
use crate::row::Row;
use rv_chunks::{At, Chunks, Compare, Walk};
use std::cmp::Ordering;

// A key that is looked for in the order of the keys. A slot that is not there stands below it.
#[derive(Drop)]
struct SoughtKey<'a> {
    slots: &'a [(Row, u32)],
    kind: Kind,
    id: &'a str,
}

impl<'a> Compare<u32> for SoughtKey<'a> {
    ghost order = { λ sought slot. by_slot stored_key (key_text (record { kind = sought.kind; id = sought.id.now })) sought.slots.now slot };

    fn compare(&self, slot: &u32) -> Ordering {
        let slot = *slot as usize;
        if slot < self.slots.len() {
            self.slots[slot].0.compare_key(self.kind, self.id)
        } else {
            Ordering::Less
        }
    }
}

// Where the row of a key stands in the order of the keys, or where it would go.
pub(crate) fn position_by_key(
    slots: &[(Row, u32)],
    order: &Chunks<u32>,
    kind: Kind,
    id: &str,
) -> Result<At, At>
    requires slots { AreSlots (length slots.now) (items order.now.chunks) }
    requires order { AreRows (standing slots.now (items order.now.chunks)) }
    ensures position { IsPositionOf stored_key (key_text (record { kind = kind; id = id.now })) (standing slots.now (items order.now.chunks)) (index_found order.now.chunks result) }
    ensures at { MatchResult result (IsItem order.now.chunks) (IsGap order.now.chunks) }
{
    order.position(&SoughtKey { slots, kind, id })
}

// The same. A place is looked at before all others are searched.
pub(crate) fn position_by_key_near(
    slots: &[(Row, u32)],
    order: &Chunks<u32>,
    kind: Kind,
    id: &str,
    near: At,
) -> Result<At, At>
    requires slots { AreSlots (length slots.now) (items order.now.chunks) }
    requires order { AreRows (standing slots.now (items order.now.chunks)) }
    ensures position { IsPositionOf stored_key (key_text (record { kind = kind; id = id.now })) (standing slots.now (items order.now.chunks)) (index_found order.now.chunks result) }
    ensures at { MatchResult result (IsItem order.now.chunks) (IsGap order.now.chunks) }
{
    order.position_near(&SoughtKey { slots, kind, id }, near)
}

// A row that is looked for in an order by what rows are filed under: what it is filed under, its sort and its key. A slot that is not there
// stands below it.
#[derive(Drop)]
struct SoughtRow<'a> {
    slots: &'a [(Row, u32)],
    by: Filing,
    under: &'a str,
    sort: u64,
    kind: Kind,
    id: &'a str,
}

impl<'a> SoughtRow<'a> {
    // How a row stands to it: by what they are filed under, and where that is the same by what comes then.
    fn compare_row(&self, row: &Row) -> Ordering
        ensures { result ≡ slice_cmp nat_cmp (filed_text self.now.by row.now) (filed self.now.under.now (then_of self.now.by self.now.sort (key_text (record { kind = self.now.kind; id = self.now.id.now })))) }
    {
        match row.under(self.by).cmp(self.under) {
            Ordering::Less => Ordering::Less,
            Ordering::Equal => self.compare_then(row),
            Ordering::Greater => Ordering::Greater,
        }
    }

    // How a row that is filed under the same stands to it: by the keys, and in the order by sorts first by those.
    fn compare_then(&self, row: &Row) -> Ordering
        ensures { result ≡ slice_cmp nat_cmp (then_by self.now.by row.now) (then_of self.now.by self.now.sort (key_text (record { kind = self.now.kind; id = self.now.id.now }))) }
    {
        match self.by {
            Filing::List => row.compare_key(self.kind, self.id),
            Filing::User => row.compare_key(self.kind, self.id),
            Filing::Sort => self.compare_sorts(row),
        }
    }

    // By the sorts, from the greatest down, and where they are the same by the keys.
    fn compare_sorts(&self, row: &Row) -> Ordering
        ensures { result ≡ slice_cmp nat_cmp (then_by Sort row.now) (then_of Sort self.now.sort (key_text (record { kind = self.now.kind; id = self.now.id.now }))) }
    {
        match self.sort.cmp(&row.sort()) {
            Ordering::Less => Ordering::Less,
            Ordering::Equal => row.compare_key(self.kind, self.id),
            Ordering::Greater => Ordering::Greater,
        }
    }
}

impl<'a> Compare<u32> for SoughtRow<'a> {
    ghost order = { λ sought slot. by_slot (filed_key sought.by) (filed sought.under.now (then_of sought.by sought.sort (key_text (record { kind = sought.kind; id = sought.id.now })))) sought.slots.now slot };

    fn compare(&self, slot: &u32) -> Ordering {
        let slot = *slot as usize;
        if slot < self.slots.len() {
            self.compare_row(&self.slots[slot].0)
        } else {
            Ordering::Less
        }
    }
}

// Where a row that is filed as this one and has its key stands in an order, or where it would go.
pub(crate) fn position_filed(
    slots: &[(Row, u32)],
    order: &Chunks<u32>,
    by: Filing,
    row: &Row,
) -> Result<At, At>
    requires slots { AreSlots (length slots.now) (items order.now.chunks) }
    requires order { InOrder (filed_key by) (standing slots.now (items order.now.chunks)) }
    ensures position { IsPositionOf (filed_key by) (filed_text by row.now) (standing slots.now (items order.now.chunks)) (index_found order.now.chunks result) }
    ensures at { MatchResult result (IsItem order.now.chunks) (IsGap order.now.chunks) }
{
    order.position(&SoughtRow {
        slots,
        by,
        under: row.under(by),
        sort: row.sort(),
        kind: row.kind(),
        id: row.id(),
    })
}

// Where the row goes in an order, where it is filed in it.
pub(crate) fn gap_filed(
    slots: &[(Row, u32)],
    order: &Chunks<u32>,
    by: Filing,
    row: &Row,
) -> Option<At>
    requires slots { AreSlots (length slots.now) (items order.now.chunks) }
    requires order { InOrder (filed_key by) (standing slots.now (items order.now.chunks)) }
    requires absent { find_by (filed_key by) (filed_text by row.now) (standing slots.now (items order.now.chunks)) ≡ None }
    ensures position { (version : ℕ) → IsGapFor by (row.now, version) (standing slots.now (items order.now.chunks)) (option_map (index_of order.now.chunks) result) }
    ensures gap { IfSome result (IsGap order.now.chunks) }
{
    if !row.is_filed(by) {
        return None;
    }
    match position_filed(slots, order, by, row) {
        Ok(_) => unreachable!(),
        Err(at) => Some(at),
    }
}

// Where the slot stands in an order.
pub(crate) fn position_by_slot(
    slots: &[(Row, u32)],
    order: &Chunks<u32>,
    by: Filing,
    slot: u32,
) -> At
    requires slots { AreSlots (length slots.now) (items order.now.chunks) }
    requires order { InOrder (filed_key by) (standing slots.now (items order.now.chunks)) }
    requires held { list_any (nat_eq slot) (items order.now.chunks) ≡ true }
    ensures item { IsItem order.now.chunks result }
    ensures in_range { index_of order.now.chunks result < length (items order.now.chunks) }
    ensures found { slice_index_or (items order.now.chunks) (index_of order.now.chunks result) 0 ≡ slot }
{
    match position_filed(slots, order, by, &slots[slot as usize].0) {
        Ok(at) => at,
        Err(_) => unreachable!(),
    }
}

// Where the slot stands in an order, where its row is filed in it.
pub(crate) fn place_of(
    slots: &[(Row, u32)],
    order: &Chunks<u32>,
    by: Filing,
    slot: u32,
) -> Option<At>
    requires slots { AreSlots (length slots.now) (items order.now.chunks) }
    requires order { InOrder (filed_key by) (standing slots.now (items order.now.chunks)) }
    requires slot { slot < length slots.now }
    requires held { is_filed by (row_of slots.now slot).0 ≡ true → list_any (nat_eq slot) (items order.now.chunks) ≡ true }
    ensures item { IfSome result (IsItem order.now.chunks) }
    ensures stands { StandsIn by slots.now (items order.now.chunks) slot (option_map (index_of order.now.chunks) result) }
{
    if !slots[slot as usize].0.is_filed(by) {
        return None;
    }
    Some(position_by_slot(slots, order, by, slot))
}

// What rows are filed under, looked for in such an order. A slot that is not there stands below it.
#[derive(Drop)]
struct SoughtText<'a> {
    slots: &'a [(Row, u32)],
    by: Filing,
    text: &'a str,
}

impl<'a> Compare<u32> for SoughtText<'a> {
    ghost order = { λ sought slot. by_slot (λ s. under sought.by s.0) sought.text.now sought.slots.now slot };

    fn compare(&self, slot: &u32) -> Ordering {
        let slot = *slot as usize;
        if slot < self.slots.len() {
            self.slots[slot].0.under(self.by).cmp(self.text)
        } else {
            Ordering::Less
        }
    }
}

// The slots of the rows that are filed under a text, which stand together in the order.
pub(crate) fn slots_under<'o>(
    slots: &[(Row, u32)],
    order: &'o Chunks<u32>,
    by: Filing,
    text: &str,
) -> Walk<'o, u32>
    requires slots { AreSlots (length slots.now) (items order.now.chunks) }
    requires order { InOrder (filed_key by) (standing slots.now (items order.now.chunks)) }
    ensures { result ≡ filter (is_under by text.now slots.now) (items order.now.chunks) }
{
    order.ties(&SoughtText { slots, by, text })
}

// The first slot of the rows that are filed under a text.
pub(crate) fn first_under(
    slots: &[(Row, u32)],
    order: &Chunks<u32>,
    by: Filing,
    text: &str,
) -> Option<u32>
    requires slots { AreSlots (length slots.now) (items order.now.chunks) }
    requires order { InOrder (filed_key by) (standing slots.now (items order.now.chunks)) }
    ensures { result ≡ slice_get (filter (is_under by text.now slots.now) (items order.now.chunks)) 0 }
{
    order.first_tie(&SoughtText { slots, by, text }).copied()
}

// The slot, under the number `to` where it has the number `from`.
fn relabelled(slot: u32, from: u32, to: u32) -> u32
    ensures { result ≡ relabelled from to slot }
{
    if slot == from { to } else { slot }
}

// Gives a slot another number in an order, at the position where it was looked for. Each slot stands where it stood.
fn rename(order: &mut Chunks<u32>, found: Result<At, At>, from: u32, to: u32)
    requires { MatchResult found (IsItem order.old.chunks) (IsGap order.old.chunks) }
    ensures slots { items order.new.chunks ≡ renamed (index_found order.old.chunks found) from to (items order.old.chunks) }
    ensures index { (at : At) → index_of order.new.chunks at ≡ index_of order.old.chunks at }
    ensures stays { (at : At) → IsItem order.old.chunks at → IsItem order.new.chunks at }
    ensures spare { order.new.spare ≡ order.old.spare }
{
    match found {
        Ok(at) => {
            let slot = *order.get(at);
            order.set(at, relabelled(slot, from, to));
        }
        Err(_) => {}
    }
}

// Puts a slot into the order at this position, where there is one.
pub(crate) fn enter(order: &mut Chunks<u32>, at: Option<At>, slot: u32)
    requires gap { IfSome at (IsGap order.old.chunks) }
    requires spare { 1 ≤ order.old.spare }
    ensures slots { items order.new.chunks ≡ entered (option_map (index_of order.old.chunks) at) slot (items order.old.chunks) }
    ensures spare { order.old.spare ≤ order.new.spare + 1 }
{
    match at {
        Some(at) => order.insert(at, slot),
        None => {}
    }
}

// Takes the slot at this position out of the order, where there is one, and gives another slot its number, at the position where that was looked for.
pub(crate) fn strike(
    order: &mut Chunks<u32>,
    at: Option<At>,
    found: Result<At, At>,
    from: u32,
    to: u32,
)
    requires item { IfSome at (IsItem order.old.chunks) }
    requires found { MatchResult found (IsItem order.old.chunks) (IsGap order.old.chunks) }
    ensures slots { items order.new.chunks ≡ left_out (option_map (index_of order.old.chunks) at) (renamed (index_found order.old.chunks found) from to (items order.old.chunks)) }
    ensures spare { order.old.spare ≤ order.new.spare }
{
    rename(order, found, from, to);
    match at {
        Some(at) => order.remove(at),
        None => {}
    }
}

// Drops the row in a slot. The last slot's row moves to it.
pub(crate) fn vacate(slots: &mut Vec<(Row, u32)>, slot: u32)
    requires { slot < vec_len slots.old }
    ensures rows { Vacates slots.old.items slot slots.new.items }
    ensures len { vec_len slots.new + 1 ≡ vec_len slots.old }
    ensures capacity { vec_capacity slots.new ≡ vec_capacity slots.old }
{
    let _removed = slots.swap_remove(slot as usize);
}

// Writes a row in the place of the one in a slot.
pub(crate) fn rewrite(slots: &mut Vec<(Row, u32)>, slot: u32, row: Row, version: u32)
    requires { slot < vec_len slots.old }
    ensures rows { slots.new.items ≡ slice_set slots.old.items slot (row, version) }
    ensures len { vec_len slots.new ≡ vec_len slots.old }
    ensures capacity { vec_capacity slots.new ≡ vec_capacity slots.old }
{
    slots[slot as usize] = (row, version);
}

// Puts a row into a new slot, for which there is space.
pub(crate) fn push(slots: &mut Vec<(Row, u32)>, row: Row, version: u32)
    requires { vec_len slots.old < vec_capacity slots.old }
    ensures rows { slots.new.items ≡ slots.old.items ++ (row, version) ∷ [] }
    ensures len { vec_len slots.new ≡ vec_len slots.old + 1 }
    ensures capacity { vec_capacity slots.old ≤ vec_capacity slots.new }
{
    match slots.push((row, version)) {
        Ok(()) => {}
        Err(_) => unreachable!(),
    }
}
