// The call that sets a user's extent.
ghost use Rattle.std.specs.Prelude.{◌≡◌, [], ◌∷◌, IfOk, None, Some, not};
ghost use Rattle.rv_rows.specs.Held.{rows_in, AreRows};
ghost use Rattle.rv_rows.specs.Changes.{same_row};
ghost use Rattle.rv_rows.specs.declared.call.Call.TheVariants.{SetExtent};
ghost use Rattle.rv_rows.specs.declared.row.Row.TheVariants.{Extent};
ghost use Rattle.rv_mutators.specs.Staging.{staged, written_if};

use crate::staged::Staged;
use rv_base::{Memory, User};
use rv_rows::{ExtentRow, Lists, Row, Tables};
use std::alloc::Global;

// The user's extent of these lists, or none.
pub(crate) fn set_extent(
    alloc: Global,
    tables: &Tables,
    user: &User,
    lists: &Option<Lists>,
) -> Result<Staged, Memory>
    requires { AreRows tables.now.rows }
    ensures { IfOk result (λ s. s ≡ staged (rows_in tables.now.rows) user.now (SetExtent lists.now)) }
{
    match lists {
        Some(lists) => put_extent(alloc, tables, user, lists),
        None => remove_extent(alloc, tables, user),
    }
}

// The user's extent of these lists, where there is none or another.
fn put_extent(alloc: Global, tables: &Tables, user: &User, lists: &Lists) -> Result<Staged, Memory>
    requires { AreRows tables.now.rows }
    ensures { IfOk result (λ s. s ≡ staged (rows_in tables.now.rows) user.now (SetExtent (Some lists.now))) }
{
    match tables.extent(user) {
        Some((row, _version)) => replace_extent(alloc, row, user, lists),
        None => write_extent(alloc, user, lists),
    }
}

// The user's extent of these lists, where the row is another.
fn replace_extent(alloc: Global, row: &Row, user: &User, lists: &Lists) -> Result<Staged, Memory>
    ensures { IfOk result (λ s. s ≡ written_if (not (same_row (Extent (record { user = user.now; lists = lists.now })) row.now)) (Extent (record { user = user.now; lists = lists.now }))) }
{
    if is_extent(row, user, lists) {
        Ok(Staged::nothing(alloc))
    } else {
        write_extent(alloc, user, lists)
    }
}

// Whether the row is the user's extent of these lists.
fn is_extent(row: &Row, user: &User, lists: &Lists) -> bool
    ensures { result ≡ same_row (Extent (record { user = user.now; lists = lists.now })) row.now }
{
    match row {
        Row::Extent(row) => *user == row.user && lists.is_same(&row.lists),
        Row::List(_) => false,
        Row::Share(_) => false,
        Row::Todo(_) => false,
    }
}

// The user's extent of these lists is written.
fn write_extent(alloc: Global, user: &User, lists: &Lists) -> Result<Staged, Memory>
    ensures { IfOk result (λ s. s ≡ record { rows = Extent (record { user = user.now; lists = lists.now }) ∷ []; keys = [] }) }
{
    let row = ExtentRow {
        user: user.copy(alloc)?,
        lists: lists.copy(alloc)?,
    };
    Staged::writes(alloc, Row::Extent(row))
}

// The user's extent goes, where there is one.
fn remove_extent(alloc: Global, tables: &Tables, user: &User) -> Result<Staged, Memory>
    requires { AreRows tables.now.rows }
    ensures { IfOk result (λ s. s ≡ staged (rows_in tables.now.rows) user.now (SetExtent None)) }
{
    match tables.extent(user) {
        Some((row, _version)) => Staged::removes(alloc, row.key(alloc)?),
        None => Ok(Staged::nothing(alloc)),
    }
}
