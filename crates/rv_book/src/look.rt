ghost use Rattle.std.specs.Prelude.{◌≡◌, ◌<◌, ◌+◌, ◌^◌, length, option_map};
ghost use Rattle.rv_book.specs.Book.{size, with_entry};
ghost use Rattle.rv_book.specs.Logs.{logged};
ghost use Rattle.rv_book.specs.Kept.{falls_out, kept, look_at, look_before};
ghost use Rattle.rv_book.specs.Indexes.{AreGroupRows, AreLookRows, look_row_at};

use crate::entry::Entry;
use crate::groups;
use crate::groups::GroupRow;
use crate::log::Log;
use rv_base::{Id, Num, User};

/// A look is kept where fewer than so many later looks of its group stand in the book, and its group is not retired.
pub const KEPT_LOOKS: u32 = 16;

/// A look of the book: who pulled, for which client group, and the order of the answered cookie.
#[derive(Clone, Copy, Debug)]
pub struct LookRef<'a> {
    /// Who pulled.
    pub user: &'a User,
    /// The client group.
    pub group: &'a Id,
    /// The order of the answered cookie.
    pub order: Num,
}

// The look at a place.
pub(crate) fn look_at(log: Log<'_>, place: u32) -> Option<LookRef<'_>>
    ensures { option_map (λ look. (look.user.now, look.group.now, look.order)) result ≡ look_at place (logged log.entry) }
{
    match log.entry_at(place)? {
        Entry::Act { .. } => None,
        Entry::Look {
            user,
            group,
            order,
            ..
        } => Some(LookRef {
            user,
            group,
            order: *order,
        }),
        Entry::Retire { .. } => None,
    }
}

// Of a look: its number among the looks of its group, from 1, and the place of the one before it; 0 and none of another entry.
#[derive(Clone, Copy, Debug)]
pub(crate) struct LookRow {
    number: u32,
    before: Option<u32>,
}

// The look row of an entry that follows the entries. The row of its group is looked for at an index first.
pub(crate) fn look_row(log: Log<'_>, groups: &[GroupRow], entry: &Entry, at: usize) -> LookRow
    requires groups { AreGroupRows (logged log) groups.now }
    requires length { size (logged log) + 1 < 2 ^ 32 }
    ensures { result ≡ look_row_at (length log.entry.entries.now) (with_entry (logged log.entry) entry.now) }
{
    match entry {
        Entry::Act { .. } => LookRow {
            number: 0,
            before: None,
        },
        Entry::Look { group, .. } => {
            let row = groups::row_from(log, groups, group, at);
            LookRow {
                number: row.looks + 1,
                before: row.last_look,
            }
        }
        Entry::Retire { .. } => LookRow {
            number: 0,
            before: None,
        },
    }
}

// Whether the look at a place is kept.
pub(crate) fn kept(log: Log<'_>, groups: &[GroupRow], look_rows: &[LookRow], place: u32) -> bool
    requires groups { AreGroupRows (logged log) groups.now }
    requires look_rows { AreLookRows (logged log) look_rows.now }
    ensures { result ≡ kept place (logged log.entry) }
{
    match look_at(log, place) {
        Some(look) => {
            let row = groups::row(log, groups, look.group);
            let later = row.looks - look_rows[log.index(place)].number;
            !row.retired && later < KEPT_LOOKS
        }
        None => false,
    }
}

// Of the look at a place: the place of its group's look before it.
pub(crate) fn before(log: Log<'_>, look_rows: &[LookRow], place: u32) -> Option<u32>
    requires { AreLookRows (logged log) look_rows.now }
    ensures { result ≡ look_before place (logged log.entry) }
{
    if place <= log.page.at {
        return None;
    }
    look_rows.get(log.index(place))?.before
}

// The place of the look of a group that falls out with the group's next look.
pub(crate) fn falls_out(
    log: Log<'_>,
    groups: &[GroupRow],
    look_rows: &[LookRow],
    group: &Id,
) -> Option<u32>
    requires groups { AreGroupRows (logged log) groups.now }
    requires look_rows { AreLookRows (logged log) look_rows.now }
    ensures { result ≡ falls_out group.now (logged log.entry) }
{
    let row = groups::row(log, groups, group);
    if row.retired {
        return None;
    }
    let mut place = row.last_look;
    for _step in 1..KEPT_LOOKS {
        place = before(log, look_rows, place?);
    }
    place
}
