//! Who may see a list among rows, to whom it is synced, and who may edit it.
ghost use Rattle.std.specs.Prelude.{◌≡◌};
ghost use Rattle.std.specs.List.{list_any};
ghost use Rattle.std.specs.Str.{bytes_eq};
ghost use Rattle.rv_rows.specs.Sharing.{is_extent, is_list, is_synced, lets_edit, list_passes, may_edit, may_see, names, owns, sees_list, sees_row, shares};

use rv_base::{Id, User};
use rv_rows::Row;

// Whether the row is this list.
fn is_list(list: &Id, row: &Row) -> bool
    ensures { result ≡ is_list list.now row.now }
{
    match row {
        Row::Extent(_) => false,
        Row::List(row) => row.id == *list,
        Row::Share(_) => false,
        Row::Todo(_) => false,
    }
}

// Whether the row is this list, and the user owns it.
fn owns(user: &User, list: &Id, row: &Row) -> bool
    ensures { result ≡ owns user.now list.now row.now }
{
    match row {
        Row::Extent(_) => false,
        Row::List(row) => row.id == *list && row.owner == *user,
        Row::Share(_) => false,
        Row::Todo(_) => false,
    }
}

/// Whether the list is there, and the user owns it.
pub(crate) fn owns_list(user: &User, list: &Id, rows: &[Row]) -> bool
    ensures { result ≡ list_any (owns user.now list.now) rows.now }
{
    rows.iter().any(|row| owns(user, list, row))
}

/// Whether a share of the list names the user.
pub(crate) fn has_share(user: &User, list: &Id, rows: &[Row]) -> bool
    ensures { result ≡ list_any (shares user.now list.now) rows.now }
{
    rows.iter().any(|row| row.shares(user, list))
}

fn has_list(list: &Id, rows: &[Row]) -> bool
    ensures { result ≡ list_any (is_list list.now) rows.now }
{
    rows.iter().any(|row| is_list(list, row))
}

// Whether the user may see the list: it is there, and the user owns it or a share of it names the user.
#[tactic(auto, unfolding(rv_rows::specs::Sharing::may_see))]
fn may_see(user: &User, list: &Id, rows: &[Row]) -> bool
    ensures { result ≡ may_see user.now list.now rows.now }
{
    owns_list(user, list, rows) || (has_list(list, rows) && has_share(user, list, rows))
}

// Whether the row is the user's extent.
fn is_extent(user: &User, row: &Row) -> bool
    ensures { result ≡ is_extent user.now row.now }
{
    match row {
        Row::Extent(row) => row.user == *user,
        Row::List(_) => false,
        Row::Share(_) => false,
        Row::Todo(_) => false,
    }
}

fn is_among(list: &Id, lists: &[Id]) -> bool
    ensures { result ≡ list_any (bytes_eq list.now) lists.now }
{
    lists.iter().any(|named| list == named)
}

// Whether the row is the user's extent, and names this list.
fn names(user: &User, list: &Id, row: &Row) -> bool
    ensures { result ≡ names user.now list.now row.now }
{
    match row {
        Row::Extent(row) => row.user == *user && is_among(list, row.lists.as_slice()),
        Row::List(_) => false,
        Row::Share(_) => false,
        Row::Todo(_) => false,
    }
}

fn has_extent(user: &User, rows: &[Row]) -> bool
    ensures { result ≡ list_any (is_extent user.now) rows.now }
{
    rows.iter().any(|row| is_extent(user, row))
}

fn is_named(user: &User, list: &Id, rows: &[Row]) -> bool
    ensures { result ≡ list_any (names user.now list.now) rows.now }
{
    rows.iter().any(|row| names(user, list, row))
}

// Whether the list is synced to the user, where the user may see it: the user's extent names it, or there is none.
#[tactic(auto, unfolding(rv_rows::specs::Sharing::is_synced))]
fn is_synced(user: &User, list: &Id, rows: &[Row]) -> bool
    ensures { result ≡ is_synced user.now list.now rows.now }
{
    !has_extent(user, rows) || is_named(user, list, rows)
}

// Whether the user sees the list: the user may see it, and it is synced.
fn sees_list(user: &User, list: &Id, rows: &[Row]) -> bool
    ensures { result ≡ sees_list user.now list.now rows.now }
{
    may_see(user, list, rows) && is_synced(user, list, rows)
}

fn has_edit_share(user: &User, list: &Id, rows: &[Row]) -> bool
    ensures { result ≡ list_any (lets_edit user.now list.now) rows.now }
{
    rows.iter().any(|row| row.lets_edit(user, list))
}

/// Whether the user may edit the list's todos: it is there, and the user owns it or a share of it with role edit names the user.
#[tactic(auto, unfolding(rv_rows::specs::Sharing::may_edit))]
pub(crate) fn may_edit(user: &User, list: &Id, rows: &[Row]) -> bool
    ensures { result ≡ may_edit user.now list.now rows.now }
{
    owns_list(user, list, rows) || (has_list(list, rows) && has_edit_share(user, list, rows))
}

/// Whether the user sees the row: the user sees the list that it is or belongs to, or it is the user's extent.
pub(crate) fn sees_row(user: &User, rows: &[Row], row: &Row) -> bool
    ensures { result ≡ sees_row user.now rows.now row.now }
{
    match row.list() {
        Some(list) => sees_list(user, list, rows),
        None => is_extent(user, row),
    }
}

/// Whether the user owns the list that the row is or belongs to.
pub(crate) fn owns_list_of(user: &User, rows: &[Row], row: &Row) -> bool
    ensures { result ≡ list_passes (λ list. list_any (owns user.now list) rows.now) row.now }
{
    match row.list() {
        Some(list) => owns_list(user, list, rows),
        None => false,
    }
}

/// Whether the user may edit the todos of the list that the row is or belongs to.
pub(crate) fn may_edit_list_of(user: &User, rows: &[Row], row: &Row) -> bool
    ensures { result ≡ list_passes (λ list. may_edit user.now list rows.now) row.now }
{
    match row.list() {
        Some(list) => may_edit(user, list, rows),
        None => false,
    }
}
