ghost use Rattle.std.specs.Prelude.{◌≡◌, IsTrue, ◌≤◌, ◌<◌, ◌+◌, ◌-◌, ◌^◌, length, [], IfOk, count_by, option_map, option_and_then, slice_get, vec_len, vec_capacity};
ghost use Rattle.rv_base.specs.Sorted.{IsPositionOf};
ghost use Rattle.rv_book.specs.declared.entry.Entry.{Entry};
ghost use Rattle.rv_book.specs.Book.{book_from, bound, last_order, retired, size, with_entry};
ghost use Rattle.rv_book.specs.Kept.{is_look_of, last_look};
ghost use Rattle.rv_book.specs.Logs.{logged};
ghost use Rattle.rv_book.specs.Indexes.{AreGroupRows, StandsAt, binds, first_where, group_of_row, group_row, naming, new_row, row_after, info_by_group, user_of, user_of_row};
ghost use Rattle.rv_book.specs.Registers.{groups_of, RetiresBound};
ghost use Rattle.rv_book.specs.SoundPages.{IsSoundPage};

use crate::entry::{Entry, named};
use crate::log::Log;
use crate::page::Page;
use rv_base::{Id, Memory, Num, User};
use std::alloc::Global;

/// A client group as the book has it: whose it is, whether it is retired, and the order of its last look.
#[derive(Clone, Copy, Debug)]
pub struct GroupRef<'a> {
    /// The user whom the group is bound to: that of the page, or else of the first act or look that names it.
    pub user: Option<&'a User>,
    /// Whether the group is retired.
    pub retired: bool,
    /// The order of the group's last look, or else that of the page, or 0.
    pub last_order: Num,
    /// The index of the group's row, at which a later look-up begins; 0 where it has none. A look-up that was given an index keeps it.
    pub at: usize,
}

/// A client group that the page, an act or a look of the book names, with its name.
#[derive(Clone, Copy, Debug)]
pub struct GroupInfo<'a> {
    /// The group.
    pub group: &'a Id,
    /// The user whom the group is bound to: that of the page, or else of the first act or look that names it.
    pub user: &'a User,
    /// The order of the group's last look, or else that of the page, or 0.
    pub last_order: Num,
    /// Whether the group is retired.
    pub retired: bool,
}

// Of a group that the page or an entry names: the index of what names it, the index of what binds it first, the order of its
// last look, the number of its looks among the entries, the place of the last one, and whether it is retired.
#[derive(Clone, Copy, Debug)]
pub(crate) struct GroupRow {
    named: usize,
    bound: Option<usize>,
    pub(crate) order: Num,
    pub(crate) looks: u32,
    pub(crate) last_look: Option<u32>,
    pub(crate) retired: bool,
}

impl GroupRow {
    // The row of a group before the first entry that names it.
    fn new(index: usize) -> GroupRow
        ensures { result ≡ new_row index }
    {
        GroupRow {
            named: index,
            bound: None,
            order: Num::from_u64(0),
            looks: 0,
            last_look: None,
            retired: false,
        }
    }

    // The row after one more entry of the group, which has this index and stands at this place.
    fn after(self, index: usize, place: u32, entry: &Entry) -> GroupRow
        requires { self.looks + 1 < 2 ^ 32 }
        ensures { result ≡ row_after index place entry.now self }
    {
        let bound = self.bound.or(Some(index));
        match entry {
            Entry::Act { .. } => GroupRow { bound, ..self },
            Entry::Look { order, .. } => GroupRow {
                bound,
                order: *order,
                looks: self.looks + 1,
                last_look: Some(place),
                ..self
            },
            Entry::Retire { .. } => GroupRow {
                retired: true,
                ..self
            },
        }
    }
}

// The rows of a page's groups, before an entry follows.
pub(crate) fn of_page(alloc: Global, page: &Page) -> Result<Vec<GroupRow>, Memory>
    requires { IsSoundPage page.now }
    ensures { IfOk result (λ rows. AreGroupRows (book_from page.now []) rows.items) }
{
    let groups = page.groups.as_slice();
    let mut rows = Vec::with_capacity(alloc, groups.len())?;
    for (named, (_, _, order, retired)) in groups.iter().enumerate() {
        rows.push(GroupRow {
            named,
            bound: Some(named),
            order: *order,
            looks: 0,
            last_look: None,
            retired: *retired,
        })?;
    }
    Ok(rows)
}

// The group of a row, and an empty text where the row names nothing.
#[tactic(auto, unfolding(crate::specs::Indexes::group_of_row))]
fn key<'b>(log: Log<'b>, row: &GroupRow) -> &'b str
    ensures { result.now ≡ group_of_row (logged log.entry) row.now }
{
    match log.naming_at(row.named) {
        Some((group, _)) => group.as_str(),
        None => "",
    }
}

// Where the row of a group stands, or where it would go.
fn position(log: Log<'_>, rows: &[GroupRow], group: &Id) -> Result<usize, usize>
    requires { AreGroupRows (logged log) rows.now }
    ensures now { IsPositionOf (group_of_row (logged log.entry)) group.now rows.now result }
    ensures next { (entry : Entry) → IsPositionOf (group_of_row (with_entry (logged log.entry) entry)) group.now rows.now result }
{
    rows.binary_search_by(|row| key(log, row).cmp(group.as_str()))
}

// Whether the row of the group stands there.
fn stands_at(log: Log<'_>, rows: &[GroupRow], group: &Id, at: usize) -> bool
    ensures { IsTrue result → StandsAt (group_of_row (logged log.entry)) group.now rows.now at }
{
    match rows.get(at) {
        Some(row) => key(log, row) == group.as_str(),
        None => false,
    }
}

// Where the row of a group stands, or where it would go. It is looked for at an index, and searched for where it is not there.
fn position_from(log: Log<'_>, rows: &[GroupRow], group: &Id, at: usize) -> Result<usize, usize>
    requires { AreGroupRows (logged log) rows.now }
    ensures now { IsPositionOf (group_of_row (logged log.entry)) group.now rows.now result }
    ensures next { (entry : Entry) → IsPositionOf (group_of_row (with_entry (logged log.entry) entry)) group.now rows.now result }
{
    if stands_at(log, rows, group, at) {
        Ok(at)
    } else {
        position(log, rows, group)
    }
}

// The row of a group, where the page or an entry names it. It is looked for at an index first.
fn find_from(log: Log<'_>, rows: &[GroupRow], group: &Id, at: usize) -> Option<GroupRow>
    requires { AreGroupRows (logged log) rows.now }
    ensures { result ≡ group_row (logged log.entry) group.now }
{
    match position_from(log, rows, group, at) {
        Ok(at) => Some(rows[at]),
        Err(_) => None,
    }
}

// Where the row of a group stands, and 0 where it has none.
fn index(log: Log<'_>, rows: &[GroupRow], group: &Id) -> usize
    requires { AreGroupRows (logged log) rows.now }
    ensures { result ≤ length rows.now }
{
    match position(log, rows, group) {
        Ok(at) => at,
        Err(_) => 0,
    }
}

// The row of a group, and a new one where nothing names it.
pub(crate) fn row(log: Log<'_>, rows: &[GroupRow], group: &Id) -> GroupRow
    requires { AreGroupRows (logged log) rows.now }
    ensures bound { result.bound ≡ first_where (binds group.now) (naming (logged log.entry)) }
    ensures order { result.order ≡ last_order group.now (logged log.entry) }
    ensures looks { result.looks ≡ count_by (is_look_of group.now) log.entry.entries.now }
    ensures last_look { result.last_look ≡ last_look group.now (logged log.entry) }
    ensures retired { result.retired ≡ retired group.now (logged log.entry) }
    ensures looks_bound { result.looks ≤ length log.entry.entries.now }
{
    row_from(log, rows, group, index(log, rows, group))
}

// The same. The row is looked for at an index first.
pub(crate) fn row_from(log: Log<'_>, rows: &[GroupRow], group: &Id, at: usize) -> GroupRow
    requires { AreGroupRows (logged log) rows.now }
    ensures bound { result.bound ≡ first_where (binds group.now) (naming (logged log.entry)) }
    ensures order { result.order ≡ last_order group.now (logged log.entry) }
    ensures looks { result.looks ≡ count_by (is_look_of group.now) log.entry.entries.now }
    ensures last_look { result.last_look ≡ last_look group.now (logged log.entry) }
    ensures retired { result.retired ≡ retired group.now (logged log.entry) }
    ensures looks_bound { result.looks ≤ length log.entry.entries.now }
{
    match find_from(log, rows, group, at) {
        Some(row) => row,
        None => GroupRow::new(0),
    }
}

// The user to whom what is named at an index binds its group.
fn user_at<'b>(log: Log<'b>, index: usize) -> Option<&'b User>
    ensures { option_map (λ user. user.now) result ≡ option_and_then user_of (slice_get (naming (logged log.entry)) index) }
{
    let (_, user) = log.naming_at(index)?;
    user
}

// The user whom the group of a row is bound to.
fn user_of<'b>(log: Log<'b>, row: &GroupRow) -> Option<&'b User>
    ensures { option_map (λ user. user.now) result ≡ user_of_row (logged log.entry) row.now }
{
    match row.bound {
        Some(index) => user_at(log, index),
        None => None,
    }
}

// What is said of a group.
pub(crate) fn info<'b>(log: Log<'b>, rows: &[GroupRow], group: &Id) -> GroupRef<'b>
    requires { AreGroupRows (logged log) rows.now }
    ensures user { option_map (λ user. user.now) result.user ≡ bound group.now (logged log.entry) }
    ensures retired { result.retired ≡ retired group.now (logged log.entry) }
    ensures last_order { result.last_order ≡ last_order group.now (logged log.entry) }
{
    info_from(log, rows, group, index(log, rows, group))
}

// The same. The group's row is looked for at an index first.
pub(crate) fn info_from<'b>(log: Log<'b>, rows: &[GroupRow], group: &Id, at: usize) -> GroupRef<'b>
    requires { AreGroupRows (logged log) rows.now }
    ensures user { option_map (λ user. user.now) result.user ≡ bound group.now (logged log.entry) }
    ensures retired { result.retired ≡ retired group.now (logged log.entry) }
    ensures last_order { result.last_order ≡ last_order group.now (logged log.entry) }
{
    let row = row_from(log, rows, group, at);
    GroupRef {
        user: user_of(log, &row),
        retired: row.retired,
        last_order: row.order,
        at,
    }
}

// What a row says of its group, by what it names, where the group is bound.
fn info_by<'b>(log: Log<'b>, row: &GroupRow) -> Option<GroupInfo<'b>>
    ensures { option_map (λ info. (info.group.now, info.user.now, info.last_order, info.retired)) result ≡ info_by_group (logged log.entry) row.now }
{
    let (group, _) = log.naming_at(row.named)?;
    let user = user_of(log, row)?;
    Some(GroupInfo {
        group,
        user,
        last_order: row.order,
        retired: row.retired,
    })
}

// The group at an index, from 0, of those that the page, an act or a look names, in the order of their bytes.
pub(crate) fn info_at<'b>(log: Log<'b>, rows: &[GroupRow], index: usize) -> Option<GroupInfo<'b>>
    requires rows { AreGroupRows (logged log) rows.now }
    requires bound { RetiresBound (logged log) }
    ensures { option_map (λ info. (info.group.now, info.user.now, info.last_order, info.retired)) result ≡ slice_get (groups_of (logged log.entry)) index }
{
    info_by(log, rows.get(index)?)
}

// Enters an entry, which follows the others. The row of its group is looked for at an index first.
pub(crate) fn enter(log: Log<'_>, rows: &mut Vec<GroupRow>, entry: &Entry, at: usize)
    requires rows { AreGroupRows (logged log) rows.old.items }
    requires spare { 1 ≤ vec_capacity rows.old - vec_len rows.old }
    requires length { size (logged log) + 1 < 2 ^ 32 }
    ensures rows { AreGroupRows (with_entry (logged log.entry) entry.now) rows.new.items }
    ensures spare { vec_capacity rows.old - vec_len rows.old ≤ (vec_capacity rows.new - vec_len rows.new) + 1 }
{
    let index = log.naming_len();
    let place = log.len() + 1;
    match position_from(log, rows, named(entry), at) {
        Ok(at) => rows[at] = rows[at].after(index, place, entry),
        Err(at) => match rows.insert(at, GroupRow::new(index).after(index, place, entry)) {
            Ok(()) => {}
            Err(_) => unreachable!(),
        },
    }
}
