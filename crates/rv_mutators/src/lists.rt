// The calls that make and remove a list.
ghost use Rattle.std.specs.Prelude.{◌≡◌, ◌&&◌, is_some, not, IfOk, map};
ghost use Rattle.std.specs.List.{filter};
ghost use Rattle.std.specs.Str.{bytes_eq};
ghost use Rattle.rv_rows.specs.Held.{rows_in, AreRows};
ghost use Rattle.rv_rows.specs.Keys.{key_text, row_key, has_row};
ghost use Rattle.rv_rows.specs.Sharing.{belongs};
ghost use Rattle.rv_rows.specs.declared.call.Call.TheVariants.{CreateList, DeleteList};
ghost use Rattle.rv_rows.specs.declared.key.Kind.TheVariants.{List as ListKind};
ghost use Rattle.rv_mutators.specs.Staging.{staged};

use crate::staged::{Staged, StagedRows};
use rv_base::{Id, Memory, Text, User};
use rv_rows::{At, Keys, Kind, ListRow, Row, Tables};
use rv_sharing::owns;
use std::alloc::Global;

// A list that is not there, for the user.
pub(crate) fn create_list(
    alloc: Global,
    tables: &Tables,
    user: &User,
    id: &Id,
    name: &Text,
    owner: &User,
) -> Result<Staged, Memory>
    requires { AreRows tables.now.rows }
    ensures { IfOk result (λ s. s ≡ staged (rows_in tables.now.rows) user.now (CreateList id.now name.now owner.now)) }
{
    if may_create(tables, user, id, owner) {
        let row = ListRow {
            id: id.copy(alloc)?,
            name: name.copy(alloc)?,
            owner: owner.copy(alloc)?,
        };
        Staged::writes(alloc, Row::List(row))
    } else {
        Ok(Staged::nothing(alloc))
    }
}

// Whether no list has the id, and the user is the owner.
fn may_create(tables: &Tables, user: &User, id: &Id, owner: &User) -> bool
    ensures { result ≡ (not (has_row (key_text (record { kind = ListKind; id = id.now })) (rows_in tables.now.rows)) && bytes_eq owner.now user.now) }
{
    !has_row(tables, Kind::List, id) && owner == user
}

// The user's list goes, with its shares and its todos.
pub(crate) fn delete_list(
    alloc: Global,
    tables: &Tables,
    user: &User,
    id: &Id,
) -> Result<Staged, Memory>
    requires { AreRows tables.now.rows }
    ensures { IfOk result (λ s. s ≡ staged (rows_in tables.now.rows) user.now (DeleteList id.now)) }
{
    if owns(tables, user, id) {
        let keys = keys_of(alloc, tables, id)?;
        Ok(Staged {
            rows: StagedRows::none(alloc),
            keys,
        })
    } else {
        Ok(Staged::nothing(alloc))
    }
}

// The keys of a list, of its shares and of its todos.
fn keys_of(alloc: Global, tables: &Tables, list: &Id) -> Result<Keys, Memory>
    ensures { IfOk result (λ keys. keys ≡ map row_key (filter (belongs list.now) (rows_in tables.now.rows))) }
{
    let mut keys = Keys::new(alloc);
    for (row, _version) in tables.of_list(list) {
        keys.push(row.key(alloc)?)?;
    }
    Ok(keys)
}

// Whether some row has the key of this kind and id.
pub(crate) fn has_row(tables: &Tables, kind: Kind, id: &Id) -> bool
    ensures { result ≡ has_row (key_text (record { kind = kind; id = id.now })) (rows_in tables.now.rows) }
{
    tables.row(kind, id).is_some()
}

// Where a row with the key of this kind and id goes, where none has it.
pub(crate) fn gap_for(tables: &Tables, kind: Kind, id: &Id) -> Option<At>
    ensures { is_some result ≡ not (has_row (key_text (record { kind = kind; id = id.now })) (rows_in tables.now.rows)) }
{
    tables.gap(kind, id)
}
