// Who owns a list, who may see it, who syncs it, and who may edit it.
ghost use Rattle.std.specs.Prelude.{◌≡◌, IfSome, drop, is_some, option_map};
ghost use Rattle.std.specs.List.{list_any};
ghost use Rattle.rv_rows.specs.Held.{rows_in, AreRows};
ghost use Rattle.rv_rows.specs.declared.row.Row.TheVariants.{List as AList};
ghost use Rattle.rv_rows.specs.Sharing.{is_list, is_synced, lets_edit, list_passes, may_edit, may_see, owns, shares};
ghost use Rattle.rv_sharing.specs.Extents.{row_lists, extent_of, is_named};
ghost use Rattle.rv_sharing.specs.Owners.{row_owner, first_owner, owner_of};

use crate::viewers::is_todo;
use rv_base::{Id, User};
use rv_rows::{Kind, ListRow, Lists, Row, RowsInOrder, Tables};

// The row, where it is a list.
fn as_list(row: &Row) -> Option<&ListRow>
    ensures owner { option_map (λ list. list.now.owner) result ≡ row_owner row.now }
    ensures row { IfSome result (λ list. row.now ≡ AList list.now) }
{
    match row {
        Row::Extent(_) => None,
        Row::List(row) => Some(row),
        Row::Share(_) => None,
        Row::Todo(_) => None,
    }
}

// The row of a list, by the first of its rows: where the list is there it stands before its shares and its todos.
pub(crate) fn first_list<'t>(rows: &mut RowsInOrder<'t>) -> Option<&'t ListRow>
    ensures owner { option_map (λ list. list.now.owner) result ≡ first_owner rows.old }
    ensures rest { rows.new ≡ drop 1 rows.old }
{
    match rows.next() {
        Some((row, _version)) => as_list(row),
        None => None,
    }
}

// The row of a list, where the list is there.
fn list_row<'t>(tables: &'t Tables, list: &Id) -> Option<&'t ListRow>
    ensures owner { option_map (λ row. row.now.owner) result ≡ owner_of list.now (rows_in tables.now.rows) }
    ensures id { IfSome result (λ row. row.now.id ≡ list.now) }
    ensures order { AreRows tables.now.rows }
{
    match tables.row(Kind::List, list) {
        Some((row, _version)) => as_list(row),
        None => None,
    }
}

/// The owner of a list, where the list is there. Takes no memory.
pub fn owner_of<'t>(tables: &'t Tables, list: &Id) -> Option<&'t User>
    ensures owner { option_map (λ owner. owner.now) result ≡ owner_of list.now (rows_in tables.now.rows) }
    ensures order { AreRows tables.now.rows }
{
    match list_row(tables, list) {
        Some(row) => Some(&row.owner),
        None => None,
    }
}

/// Whether the list is there. Takes no memory.
pub fn has_list(tables: &Tables, list: &Id) -> bool
    ensures { result ≡ list_any (is_list list.now) (rows_in tables.now.rows) }
{
    owner_of(tables, list).is_some()
}

/// Whether the list is there, and the user owns it. Takes no memory.
pub fn owns(tables: &Tables, user: &User, list: &Id) -> bool
    ensures { result ≡ list_any (owns user.now list.now) (rows_in tables.now.rows) }
{
    match owner_of(tables, list) {
        Some(owner) => owner == user,
        None => false,
    }
}

/// Whether a share of the list names the user. It stands among the rows that name the user and among those of the list, before
/// its todos: both are walked side by side, until one of them ends. Takes no memory.
pub fn has_share(tables: &Tables, user: &User, list: &Id) -> bool
    ensures { result ≡ list_any (shares user.now list.now) (rows_in tables.now.rows) }
{
    let mut of_list = tables.of_list(list);
    for (row, _version) in tables.of_user(user) {
        if row.shares(user, list) {
            return true;
        }
        match of_list.next() {
            Some((other, _version)) => {
                if other.shares(user, list) {
                    return true;
                }
                if is_todo(other) {
                    return false;
                }
            }
            None => return false,
        }
    }
    false
}

/// Whether the user may see the list: it is there, and the user owns it or a share of it names the user. Takes no memory.
pub fn may_see(tables: &Tables, user: &User, list: &Id) -> bool
    ensures { result ≡ may_see user.now list.now (rows_in tables.now.rows) }
{
    match owner_of(tables, list) {
        Some(owner) => owner == user || has_share(tables, user, list),
        None => false,
    }
}

// The lists that the row names, where it is an extent.
fn row_lists(row: &Row) -> Option<&Lists>
    ensures { option_map (λ lists. lists.now) result ≡ row_lists row.now }
{
    match row {
        Row::Extent(row) => Some(&row.lists),
        Row::List(_) => None,
        Row::Share(_) => None,
        Row::Todo(_) => None,
    }
}

// The lists that the user's extent names, where there is one. Takes no memory.
pub(crate) fn extent_of<'t>(tables: &'t Tables, user: &User) -> Option<&'t Lists>
    ensures extent { option_map (λ lists. lists.now) result ≡ extent_of user.now (rows_in tables.now.rows) }
    ensures order { AreRows tables.now.rows }
{
    match tables.extent(user) {
        Some((row, _version)) => row_lists(row),
        None => None,
    }
}

// Whether the extent names the list, or there is none.
fn is_named(extent: Option<&Lists>, list: &Id) -> bool
    ensures { result ≡ is_named (option_map (λ lists. lists.now) extent.entry) list.now }
{
    match extent {
        Some(lists) => lists.has(list),
        None => true,
    }
}

/// Whether the user syncs the list: the user's extent names it, or the user has none. Takes no memory.
pub fn is_synced(tables: &Tables, user: &User, list: &Id) -> bool
    ensures { result ≡ is_synced user.now list.now (rows_in tables.now.rows) }
{
    is_named(extent_of(tables, user), list)
}

// Whether a share of the list names the user and lets the user edit: among the rows that name the user. Takes no memory.
fn has_edit_share(tables: &Tables, user: &User, list: &Id) -> bool
    ensures { result ≡ list_any (lets_edit user.now list.now) (rows_in tables.now.rows) }
{
    for (row, _version) in tables.of_user(user) {
        if row.lets_edit(user, list) {
            return true;
        }
    }
    false
}

/// The id of a list, as its row has it, where the user may add, change and remove todos of the list. Takes no memory.
pub fn list_to_edit<'t>(tables: &'t Tables, user: &User, list: &Id) -> Option<&'t Id>
    ensures allowed { is_some result ≡ may_edit user.now list.now (rows_in tables.now.rows) }
    ensures id { IfSome result (λ id. id.now ≡ list.now) }
{
    match list_row(tables, list) {
        Some(row) => {
            if row.owner == *user || has_edit_share(tables, user, list) {
                Some(&row.id)
            } else {
                None
            }
        }
        None => None,
    }
}

// Whether the user may add, change and remove todos of the list: it is there, and the user owns it or a share of it names the user and has
// role edit. Takes no memory.
fn may_edit(tables: &Tables, user: &User, list: &Id) -> bool
    ensures { result ≡ may_edit user.now list.now (rows_in tables.now.rows) }
{
    list_to_edit(tables, user, list).is_some()
}

/// Whether the user owns the list that the row is or belongs to. Takes no memory.
pub fn owns_list_of(tables: &Tables, user: &User, row: &Row) -> bool
    ensures { result ≡ list_passes (λ list. list_any (owns user.now list) (rows_in tables.now.rows)) row.now }
{
    match row.list() {
        Some(list) => owns(tables, user, list),
        None => false,
    }
}

/// Whether the user may edit the todos of the list that the row is or belongs to. Takes no memory.
pub fn may_edit_list_of(tables: &Tables, user: &User, row: &Row) -> bool
    ensures { result ≡ list_passes (λ list. may_edit user.now list (rows_in tables.now.rows)) row.now }
{
    match row.list() {
        Some(list) => may_edit(tables, user, list),
        None => false,
    }
}
