// The calls that make, change and remove a share.
ghost use Rattle.std.specs.Prelude.{◌≡◌, IfOk, not};
ghost use Rattle.rv_rows.specs.Held.{rows_in, AreRows};
ghost use Rattle.rv_rows.specs.Effects.{may_end, may_share, with_role};
ghost use Rattle.rv_rows.specs.Changes.{same_row};
ghost use Rattle.rv_rows.specs.declared.call.Call.TheVariants.{CreateShare, UpdateShare, DeleteShare};
ghost use Rattle.rv_mutators.specs.Staging.{staged, written_if, removed_if};

use crate::lists::has_row;
use crate::staged::Staged;
use rv_base::{Id, Memory, User};
use rv_rows::{Kind, Role, Row, ShareRow, Tables};
use rv_sharing::{has_share, owns, owns_list_of};
use std::alloc::Global;

// A share of the user's list with another, who has none of it, with this role.
pub(crate) fn create_share(
    alloc: Global,
    tables: &Tables,
    user: &User,
    id: &Id,
    list: &Id,
    other: &User,
    role: Role,
) -> Result<Staged, Memory>
    requires { AreRows tables.now.rows }
    ensures { IfOk result (λ s. s ≡ staged (rows_in tables.now.rows) user.now (CreateShare id.now list.now other.now role)) }
{
    if may_share(tables, user, id, list, other) {
        let row = ShareRow {
            id: id.copy(alloc)?,
            list: list.copy(alloc)?,
            user: other.copy(alloc)?,
            role,
        };
        Staged::writes(alloc, Row::Share(row))
    } else {
        Ok(Staged::nothing(alloc))
    }
}

// Whether the user may share the list with the other: the user owns it, no share has the id, and the other is not the owner
// and has no share of the list.
fn may_share(tables: &Tables, user: &User, id: &Id, list: &Id, other: &User) -> bool
    ensures { result ≡ may_share user.now (rows_in tables.now.rows) id.now list.now other.now }
{
    owns(tables, user, list)
        && !has_row(tables, Kind::Share, id)
        && other != user
        && !has_share(tables, other, list)
}

// Another role of a share of the user's list.
pub(crate) fn update_share(
    alloc: Global,
    tables: &Tables,
    user: &User,
    id: &Id,
    role: Role,
) -> Result<Staged, Memory>
    requires { AreRows tables.now.rows }
    ensures { IfOk result (λ s. s ≡ staged (rows_in tables.now.rows) user.now (UpdateShare id.now role)) }
{
    match tables.row(Kind::Share, id) {
        Some((row, _version)) => {
            if owns_list_of(tables, user, row) {
                set_role(alloc, row, role)
            } else {
                Ok(Staged::nothing(alloc))
            }
        }
        None => Ok(Staged::nothing(alloc)),
    }
}

// The share with the role, where it has another.
fn set_role(alloc: Global, row: &Row, role: Role) -> Result<Staged, Memory>
    ensures { IfOk result (λ s. s ≡ written_if (not (same_row (with_role role row.now) row.now)) (with_role role row.now)) }
{
    match row {
        Row::Extent(_) => Ok(Staged::nothing(alloc)),
        Row::List(_) => Ok(Staged::nothing(alloc)),
        Row::Share(row) => {
            if row.role == role {
                Ok(Staged::nothing(alloc))
            } else {
                Staged::writes(alloc, Row::Share(row.with_role(alloc, role)?))
            }
        }
        Row::Todo(_) => Ok(Staged::nothing(alloc)),
    }
}

// A share that the user may end goes.
pub(crate) fn delete_share(
    alloc: Global,
    tables: &Tables,
    user: &User,
    id: &Id,
) -> Result<Staged, Memory>
    requires { AreRows tables.now.rows }
    ensures { IfOk result (λ s. s ≡ staged (rows_in tables.now.rows) user.now (DeleteShare id.now)) }
{
    match tables.row(Kind::Share, id) {
        Some((row, _version)) => end_share(alloc, tables, user, row),
        None => Ok(Staged::nothing(alloc)),
    }
}

// The share goes where the user may end it.
fn end_share(alloc: Global, tables: &Tables, user: &User, row: &Row) -> Result<Staged, Memory>
    ensures { IfOk result (λ s. s ≡ removed_if (may_end user.now (rows_in tables.now.rows) row.now) row.now) }
{
    if may_end(tables, user, row) {
        Staged::removes(alloc, row.key(alloc)?)
    } else {
        Ok(Staged::nothing(alloc))
    }
}

// Whether the row is a share that the user may end: the user owns its list, or is the one whom it names.
fn may_end(tables: &Tables, user: &User, row: &Row) -> bool
    ensures { result ≡ may_end user.now (rows_in tables.now.rows) row.now }
{
    match row {
        Row::Extent(_) => false,
        Row::List(_) => false,
        Row::Share(row) => owns(tables, user, &row.list) || row.user == *user,
        Row::Todo(_) => false,
    }
}
