ghost use Rattle.std.specs.Prelude.{◌≡◌, ◌++◌, ◌∷◌, map, not, option_map, option_and_then, Some, IfOk, OnOk};
ghost use Rattle.std.specs.List.{filter};
ghost use Rattle.std.specs.Str.{bytes_eq};
ghost use Rattle.rv_base.specs.Sorted.{InOrder};
ghost use Rattle.rv_rows.specs.Changes.{same_row};
ghost use Rattle.rv_rows.specs.Keys.{key_text, row_at, row_key, row_text};
ghost use Rattle.rv_rows.specs.Sharing.{seen};
ghost use Rattle.rv_rows.specs.declared.row.Row.TheVariants.{Todo};
ghost use Rattle.rv_turns.specs.declared.op.Op.TheVariants.{Clear, Del, Put};
ghost use Rattle.rv_history.specs.Replay.{rows_after, rows_of};
ghost use Rattle.rv_history.specs.Bases.{base_group};
ghost use Rattle.rv_history.specs.History.{ids_since, is_absent, is_among, is_news, is_touched, is_written, patch_since};

use crate::book::{rows_after, rows_of};
use crate::copies::copy_rows;
use crate::looks::look_at;
use crate::plain_book::PlainBook;
use crate::registers::ids;
use crate::rows::{has_row, seen};
use rv_base::{Id, Memory, Num, Sequence, User};
use rv_book::Entry;
use rv_rows::{Clients, Key, Kind, Row, TodoRow};
use rv_turns::{Op, Ops};
use std::alloc::Global;

fn same_todo(a: &TodoRow, b: &TodoRow) -> bool
    ensures { result ≡ same_row (Todo a.now) (Todo b.now) }
{
    a.id == b.id
        && a.list == b.list
        && a.text == b.text
        && a.complete == b.complete
        && a.sort == b.sort
}

/// Whether the two rows are the same.
pub(crate) fn same_row(a: &Row, b: &Row) -> bool
    ensures { result ≡ same_row a.now b.now }
{
    match (a, b) {
        (Row::Extent(a), Row::Extent(b)) => a.user == b.user && a.lists.is_same(&b.lists),
        (Row::List(a), Row::List(b)) => a.id == b.id && a.name == b.name && a.owner == b.owner,
        (Row::Share(a), Row::Share(b)) => a.id == b.id
            && a.list == b.list
            && a.user == b.user
            && a.role == b.role,
        (Row::Todo(a), Row::Todo(b)) => same_todo(a, b),
        (Row::Extent(_), Row::List(_)) => false,
        (Row::Extent(_), Row::Share(_)) => false,
        (Row::Extent(_), Row::Todo(_)) => false,
        (Row::List(_), Row::Extent(_)) => false,
        (Row::List(_), Row::Share(_)) => false,
        (Row::List(_), Row::Todo(_)) => false,
        (Row::Share(_), Row::Extent(_)) => false,
        (Row::Share(_), Row::List(_)) => false,
        (Row::Share(_), Row::Todo(_)) => false,
        (Row::Todo(_), Row::Extent(_)) => false,
        (Row::Todo(_), Row::List(_)) => false,
        (Row::Todo(_), Row::Share(_)) => false,
    }
}

fn is_at(kind: Kind, id: &str, row: &Row) -> bool
    ensures { result ≡ bytes_eq (key_text (record { kind = kind; id = id.now })) (row_text row.now) }
{
    row.kind() == kind && row.id() == id
}

// The row of this kind and id.
fn row_at<'r>(rows: &'r [Row], kind: Kind, id: &str) -> Option<&'r Row>
    ensures { option_map (λ row. row.now) result ≡ row_at (key_text (record { kind = kind; id = id.now })) rows.now }
{
    for row in rows {
        if is_at(kind, id, row) {
            return Some(row);
        }
    }
    None
}

// Whether the row of this kind and id is there afterwards, and was not, or was another, before.
fn is_written(kind: Kind, id: &str, before: &[Row], after: &[Row]) -> bool
    ensures { result ≡ is_written (key_text (record { kind = kind; id = id.now })) before.now after.now }
{
    match row_at(after, kind, id) {
        Some(row) => match row_at(before, kind, id) {
            Some(was) => !same_row(was, row),
            None => true,
        },
        None => false,
    }
}

// The rows after one more entry, apart from those before it.
fn next_rows(alloc: Global, rows: &[Row], entry: &Entry) -> Result<Vec<Row>, Memory>
    ensures { IfOk result (λ v. v.items ≡ rows_after rows.now entry.now) }
{
    rows_after(alloc, copy_rows(alloc, rows)?, entry)
}

// Whether some of the entries writes the row of this kind and id, from these rows on.
fn is_touched(
    alloc: Global,
    kind: Kind,
    id: &str,
    rows: &[Row],
    since: &[Entry],
) -> Result<bool, Memory>
    ensures { IfOk result (λ touched. touched ≡ is_touched (key_text (record { kind = kind; id = id.now })) rows.now since.now) }
{
    let mut before = copy_rows(alloc, rows)?;
    for entry in since {
        let after = next_rows(alloc, &before, entry)?;
        if is_written(kind, id, &before, &after) {
            return Ok(true);
        }
        before = after;
    }
    Ok(false)
}

// Whether the row's key is not among those of the rows.
#[tactic(auto, unfolding(rv_history::specs::History::is_absent))]
fn is_absent(rows: &[Row], row: &Row) -> bool
    ensures { result ≡ is_absent rows.now row.now }
{
    !has_row(rows, row.kind(), row.id())
}

// Whether the row was not seen at the base, or was written since, from these rows on.
#[tactic(auto, unfolding(rv_history::specs::History::is_news))]
fn is_news(
    alloc: Global,
    base: &[Row],
    rows: &[Row],
    since: &[Entry],
    row: &Row,
) -> Result<bool, Memory>
    ensures { IfOk result (λ news. news ≡ is_news base.now rows.now since.now row.now) }
{
    if is_absent(base, row) {
        return Ok(true);
    }
    is_touched(alloc, row.kind(), row.id(), rows, since)
}

// Adds a del of each row that is not among those that are seen now.
fn add_dels(alloc: Global, ops: &mut Ops, base: &[Row], now: &[Row]) -> Result<(), Memory>
    ensures { OnOk result (ops.new ≡ ops.old ++ map (λ row. Del (row_key row)) (filter (is_absent now.now) base.now)) }
{
    for row in base {
        if is_absent(now, row) {
            ops.push(Op::Del(row.key(alloc)?))?;
        }
    }
    Ok(())
}

// Adds a put of each row that is news.
fn add_puts(
    alloc: Global,
    ops: &mut Ops,
    base: &[Row],
    rows: &[Row],
    since: &[Entry],
    now: &[Row],
) -> Result<(), Memory>
    ensures { OnOk result (ops.new ≡ ops.old ++ map (λ row. Put row) (filter (is_news base.now rows.now since.now) now.now)) }
{
    for row in now {
        if is_news(alloc, base, rows, since, row)? {
            ops.push(Op::Put(row.copy(alloc)?))?;
        }
    }
    Ok(())
}

// Everything goes, and each row is put.
fn all(alloc: Global, rows: &[Row]) -> Result<Ops, Memory>
    ensures { IfOk result (λ ops. ops ≡ Clear ∷ map (λ row. Put row) rows.now) }
{
    let mut ops = Sequence::new(alloc);
    ops.push(Op::Clear)?;
    for row in rows {
        ops.push(Op::Put(row.copy(alloc)?))?;
    }
    Ok(ops)
}

// The rows that a user sees at a book.
fn seen_at(alloc: Global, book: &PlainBook, user: &User) -> Result<Vec<Row>, Memory>
    ensures { IfOk result (λ v. v.items ≡ seen user.now (rows_of book.now)) }
{
    let rows = rows_of(alloc, book)?;
    seen(alloc, &rows, user)
}

// The patch since a place.
fn patch_after(alloc: Global, book: &PlainBook, user: &User, place: u32) -> Result<Ops, Memory>
    ensures { IfOk result (λ ops. ops ≡ patch_since user.now book.now (Some place)) }
{
    let before = book.up_to(alloc, place)?;
    let rows = rows_of(alloc, &before)?;
    let base = seen(alloc, &rows, user)?;
    let now = seen_at(alloc, book, user)?;
    let mut ops = Sequence::new(alloc);
    add_dels(alloc, &mut ops, &base, &now)?;
    add_puts(alloc, &mut ops, &base, &rows, book.since(place), &now)?;
    Ok(ops)
}

/// The patch since a base: dels, in key order, of the rows that were seen then and are not now; then puts, in key order, of the
/// rows that are seen now and were not, or were written since. Without a base everything goes, and each row that is seen now
/// is put.
pub(crate) fn patch_since(
    alloc: Global,
    book: &PlainBook,
    user: &User,
    base: Option<u32>,
) -> Result<Ops, Memory>
    ensures { IfOk result (λ ops. ops ≡ patch_since user.now book.now base) }
{
    match base {
        Some(place) => patch_after(alloc, book, user, place),
        None => {
            let rows = seen_at(alloc, book, user)?;
            all(alloc, &rows)
        }
    }
}

// Whether a client with a last mutation id is among these.
#[tactic(auto, unfolding(rv_history::specs::History::is_among))]
fn is_among(pairs: &[(Id, Num)], client: &Id, last: Num) -> bool
    ensures { result ≡ is_among pairs.now (client.now, last) }
{
    pairs.iter().any(|pair| pair.0 == *client && pair.1 == last)
}

// Those of the clients that are not among these.
fn others(alloc: Global, clients: &[(Id, Num)], those: &[(Id, Num)]) -> Result<Clients, Memory>
    requires { InOrder (λ pair. pair.0) clients.now }
    ensures ids { IfOk result (λ v. v ≡ filter (λ pair. not (is_among those.now pair)) clients.now) }
    ensures order { IfOk result (λ v. InOrder (λ pair. pair.0) v) }
{
    let mut others = Sequence::new(alloc);
    for pair in clients {
        if !is_among(those, &pair.0, pair.1) {
            others.push((pair.0.copy(alloc)?, pair.1))?;
        }
    }
    Ok(others)
}

// The last mutation ids of a group's clients that another group did not have at a place.
fn ids_after(
    alloc: Global,
    book: &PlainBook,
    group: &Id,
    place: u32,
    other: &Id,
) -> Result<Clients, Memory>
    ensures ids { IfOk result (λ v. v ≡ ids_since group.now book.now (Some (place, other.now))) }
    ensures order { IfOk result (λ v. InOrder (λ pair. pair.0) v) }
{
    let now = ids(alloc, book, group)?;
    let before = book.up_to(alloc, place)?;
    let those = ids(alloc, &before, other)?;
    others(alloc, now.as_slice(), those.as_slice())
}

/// The last mutation ids of a group's clients that the base look's own group did not have at the base; all without a base.
pub(crate) fn ids_since(
    alloc: Global,
    book: &PlainBook,
    group: &Id,
    base: Option<u32>,
) -> Result<Clients, Memory>
    ensures ids { IfOk result (λ v. v ≡ ids_since group.now book.now (option_and_then (base_group book.now) base)) }
    ensures order { IfOk result (λ v. InOrder (λ pair. pair.0) v) }
{
    match base {
        Some(place) => match look_at(book, place) {
            Some(look) => ids_after(alloc, book, group, place, look.group),
            None => ids(alloc, book, group),
        },
        None => ids(alloc, book, group),
    }
}
