// The users who see something of a table; ids or users in the order of their bytes, each once.
ghost use Rattle.std.specs.Prelude.{◌≡◌, ℕ, List, IsTrue, IfOk, OnOk, option_map};
ghost use Rattle.std.specs.List.{list_any};
ghost use Rattle.std.specs.Cmp.Lexicographic.{slice_cmp};
ghost use Rattle.std.specs.Ordering.{nat_cmp};
ghost use Rattle.rv_base.specs.Sorted.{IsPositionOf};
ghost use Rattle.rv_rows.specs.Held.{rows_in, AreRows};
ghost use Rattle.rv_rows.specs.Sharing.{is_synced, shares};
ghost use Rattle.rv_rows.specs.declared.row.TodoRow.{TodoRow};
ghost use Rattle.rv_rows.specs.declared.row.Row.TheVariants.{Todo};
ghost use Rattle.rv_sharing.specs.Texts.{AreInOrder, AddsText, AddsTextIf};
ghost use Rattle.rv_sharing.specs.Opened.{AreListsOf, AreUsersOf};
ghost use Rattle.rv_sharing.specs.Extents.{row_extent};
ghost use Rattle.rv_sharing.specs.Sharers.{sharer, AddsSharers};
ghost use Rattle.rv_sharing.specs.Affected.{AddsViewers, AreAffected};

use crate::lists::{first_list, is_synced};
use rv_base::{Bounded, Id, Memory, Sequence, User};
use rv_rows::{Key, Row, RowsInOrder, Tables, Users};
use std::alloc::Global;
use std::cmp::Ordering;

// Where a text stands, or where it would go.
fn position_of<const MIN: usize, const MAX: usize>(
    texts: &[Bounded<MIN, MAX>],
    text: &Bounded<MIN, MAX>,
) -> Result<usize, usize>
    requires { AreInOrder texts.now }
    ensures { IsPositionOf (λ text. text) text.now texts.now result }
{
    texts.binary_search_by(
        |other| -> Ordering
            ensures { result ≡ slice_cmp nat_cmp other.now text.entry.now }
        { other.cmp(text) },
    )
}

// Puts a text in its place, where it is not there yet.
pub(crate) fn add<const MIN: usize, const MAX: usize>(
    alloc: Global,
    texts: &mut Vec<Bounded<MIN, MAX>>,
    text: &Bounded<MIN, MAX>,
) -> Result<(), Memory>
    requires { AreInOrder texts.old.items }
    ensures { OnOk result (AddsText text.now texts.old.items texts.new.items) }
{
    match position_of(texts, text) {
        Ok(_) => Ok(()),
        Err(at) => {
            texts.insert(at, text.copy(alloc)?)?;
            Ok(())
        }
    }
}

/// The users and this one. They stand in the order of their bytes, each once.
pub fn add_user(alloc: Global, users: Users, user: &User) -> Result<Users, Memory>
    requires { AreInOrder users }
    ensures { IfOk result (AddsText user.now users) }
{
    let mut users = users.into_vec();
    add(alloc, &mut users, user)?;
    Ok(Sequence::from_vec(users))
}

/// The users, and this one where the user syncs the list. They stand in the order of their bytes, each once.
pub fn add_if_synced(
    alloc: Global,
    users: Users,
    tables: &Tables,
    user: &User,
    list: &Id,
) -> Result<Users, Memory>
    requires { AreInOrder users }
    ensures { IfOk result (AddsTextIf (is_synced user.now list.now (rows_in tables.now.rows)) user.now users) }
{
    if is_synced(tables, user, list) {
        add_user(alloc, users, user)
    } else {
        Ok(users)
    }
}

// The user whom the row names, where it is a share of the list and the user syncs that.
fn sharer<'r>(tables: &Tables, list: &Id, row: &'r Row) -> Option<&'r User>
    ensures { option_map (λ user. user.now) result ≡ sharer list.now (rows_in tables.now.rows) row.now }
{
    match row {
        Row::Extent(_) => None,
        Row::List(_) => None,
        Row::Share(row) => if row.list == *list && is_synced(tables, &row.user, list) {
            Some(&row.user)
        } else {
            None
        },
        Row::Todo(_) => None,
    }
}

// Whether the row is a todo.
pub(crate) fn is_todo(row: &Row) -> bool
    ensures { IsTrue result → (todo : TodoRow) × (row.now ≡ Todo todo) }
{
    match row {
        Row::Extent(_) => false,
        Row::List(_) => false,
        Row::Share(_) => false,
        Row::Todo(_) => true,
    }
}

// The users and those whom one of these rows, a share of the list, names and who sync it. They stand in the order of their bytes, each
// once. Todos, which come after all shares, are not looked at.
fn add_named(
    alloc: Global,
    users: Users,
    tables: &Tables,
    list: &Id,
    rows: RowsInOrder<'_>,
) -> Result<Users, Memory>
    requires users { AreInOrder users }
    requires order { AreRows rows }
    requires shares { (user : List ℕ) → list_any (shares user list.now) (rows_in rows) ≡ list_any (shares user list.now) (rows_in tables.now.rows) }
    ensures { IfOk result (AddsSharers (rows_in tables.now.rows) list.now users) }
{
    let mut users = users.into_vec();
    for (row, _version) in rows {
        if is_todo(row) {
            return Ok(Sequence::from_vec(users));
        }
        if let Some(user) = sharer(tables, list, row) {
            add(alloc, &mut users, user)?;
        }
    }
    Ok(Sequence::from_vec(users))
}

/// The users and those whom a share of the list names and who sync it. They stand in the order of their bytes, each once. The
/// list's todos are not looked at.
pub fn add_sharers(alloc: Global, users: Users, tables: &Tables, list: &Id) -> Result<Users, Memory>
    requires { AreInOrder users }
    ensures { IfOk result (AddsSharers (rows_in tables.now.rows) list.now users) }
{
    add_named(alloc, users, tables, list, tables.of_list(list))
}

/// The users and those who see the list. They stand in the order of their bytes, each once. The list's todos are not looked at.
pub fn add_viewers(alloc: Global, users: Users, tables: &Tables, list: &Id) -> Result<Users, Memory>
    requires { AreInOrder users }
    ensures { IfOk result (AddsViewers (rows_in tables.now.rows) list.now users) }
{
    let mut rows = tables.of_list(list);
    match first_list(&mut rows) {
        Some(row) => {
            let owned = add_if_synced(alloc, users, tables, &row.owner, list)?;
            add_named(alloc, owned, tables, list, rows)
        }
        None => Ok(users),
    }
}

// The lists that the keys' rows are or belong to, in order, each once.
fn lists_of(alloc: Global, tables: &Tables, keys: &[Key]) -> Result<Vec<Id>, Memory>
    ensures { IfOk result (λ lists. AreListsOf (rows_in tables.now.rows) keys.now lists.items) }
{
    let mut lists = Vec::new(alloc);
    for key in keys {
        if let Some((row, _version)) = tables.get(key) {
            if let Some(list) = row.list() {
                add(alloc, &mut lists, list)?;
            }
        }
    }
    Ok(lists)
}

// The user whose extent the row is, where it is one.
fn row_extent(row: &Row) -> Option<&User>
    ensures { option_map (λ user. user.now) result ≡ row_extent row.now }
{
    match row {
        Row::Extent(row) => Some(&row.user),
        Row::List(_) => None,
        Row::Share(_) => None,
        Row::Todo(_) => None,
    }
}

// The users whose extents the keys' rows are, in order, each once.
fn users_of(alloc: Global, tables: &Tables, keys: &[Key]) -> Result<Users, Memory>
    ensures { IfOk result (AreUsersOf (rows_in tables.now.rows) keys.now) }
{
    let mut users = Vec::new(alloc);
    for key in keys {
        if let Some((row, _version)) = tables.get(key) {
            if let Some(user) = row_extent(row) {
                add(alloc, &mut users, user)?;
            }
        }
    }
    Ok(Sequence::from_vec(users))
}

/// The users who see at least one of the keys, in the order of their bytes, each once.
pub fn affected(alloc: Global, tables: &Tables, keys: &[Key]) -> Result<Users, Memory>
    ensures { IfOk result (AreAffected (rows_in tables.now.rows) keys.now) }
{
    let lists = lists_of(alloc, tables, keys)?;
    let mut users = users_of(alloc, tables, keys)?;
    for list in &lists {
        users = add_viewers(alloc, users, tables, list)?;
    }
    Ok(users)
}
