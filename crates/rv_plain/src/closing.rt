//! The page that sums up a book: its rows, each with the place of its last write, its clients and its groups.
ghost use Rattle.std.specs.Prelude.{◌≡◌, ◌+◌, ◌<◌, ◌^◌, map, option_map, IfOk};
ghost use Rattle.rv_rows.specs.Changes.{after, version_after};
ghost use Rattle.rv_rows.specs.Held.{find};
ghost use Rattle.rv_rows.specs.Keys.{row_text};
ghost use Rattle.rv_book.specs.Book.{size};
ghost use Rattle.rv_history.specs.Closing.{SumsUp};
ghost use Rattle.rv_history.specs.Replay.{IsReplay};
ghost use Rattle.rv_plain.specs.Plain.{stored_after, PageFits};

use crate::copies::{copy_stored, rows_in};
use crate::history::same_row;
use crate::plain_book::PlainBook;
use crate::registers::{clients_of, groups_of};
use crate::rows::{effect, in_key_order, is_at};
use rv_base::{Memory, Sequence, User};
use rv_book::{Entry, Page};
use rv_rows::{Call, Row};
use std::alloc::Global;

// The row of the same key, with its version.
fn find<'s>(stored: &'s [(Row, u32)], row: &Row) -> Option<&'s (Row, u32)>
    ensures { option_map (λ s. s.now) result ≡ find (row_text row.now) stored.now }
{
    for other in stored {
        if is_at(row.kind(), row.id(), &other.0) {
            return Some(other);
        }
    }
    None
}

// The version of a row after an entry at this place: the version that it had, where it was stored just so.
fn version_after(place: u32, stored: &[(Row, u32)], row: &Row) -> u32
    ensures { result ≡ version_after place stored.now row.now }
{
    match find(stored, row) {
        Some(was) => { if same_row(&was.0, row) { was.1 } else { place } }
        None => place,
    }
}

// These rows with their versions after an entry at this place.
fn versioned(
    alloc: Global,
    place: u32,
    stored: &[(Row, u32)],
    rows: &[Row],
) -> Result<Vec<(Row, u32)>, Memory>
    ensures { IfOk result (λ v. v.items ≡ map (λ row. (row, version_after place stored.now row)) rows.now) }
{
    let mut versioned = Vec::new(alloc);
    for row in rows {
        let version = version_after(place, stored, row);
        versioned.push((row.copy(alloc)?, version))?;
    }
    Ok(versioned)
}

// The rows with their versions after a call at this place.
fn after_call(
    alloc: Global,
    place: u32,
    stored: &[(Row, u32)],
    user: &User,
    call: &Call,
) -> Result<Vec<(Row, u32)>, Memory>
    ensures { IfOk result (λ v. v.items ≡ after stored.now user.now call.now place) }
{
    let rows = effect(alloc, rows_in(alloc, stored)?, user, call)?;
    let rows = in_key_order(alloc, &rows)?;
    versioned(alloc, place, stored, &rows)
}

// The rows with their versions after one more entry, at this place.
fn stored_after(
    alloc: Global,
    place: u32,
    stored: Vec<(Row, u32)>,
    entry: &Entry,
) -> Result<Vec<(Row, u32)>, Memory>
    ensures { IfOk result (λ v. v.items ≡ stored_after place stored.items entry.now) }
{
    match entry {
        Entry::Act { user, call, .. } => after_call(alloc, place, &stored, user, call),
        Entry::Look { .. } => Ok(stored),
        Entry::Retire { .. } => Ok(stored),
    }
}

// The rows of a book in the order of their keys, each with the place of its last write.
fn stored_rows(alloc: Global, book: &PlainBook) -> Result<Vec<(Row, u32)>, Memory>
    ensures { IfOk result (λ v. IsReplay book.now v.items) }
{
    let page = book.page();
    let mut stored = copy_stored(alloc, page.rows.as_slice())?;
    let mut place = page.at;
    for entry in book.entries() {
        place += 1;
        stored = stored_after(alloc, place, stored, entry)?;
    }
    Ok(stored)
}

/// The page that sums up a book, at the place after its last.
pub(crate) fn page_of(alloc: Global, book: &PlainBook) -> Result<Page, Memory>
    requires { size book.now + 1 < 2 ^ 32 }
    ensures sums { IfOk result (SumsUp book.now) }
    ensures fits { IfOk result PageFits }
{
    Ok(Page {
        at: book.len() + 1,
        rows: Sequence::from_vec(stored_rows(alloc, book)?),
        clients: clients_of(alloc, book)?,
        groups: groups_of(alloc, book)?,
    })
}
