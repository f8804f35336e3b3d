// The calls that make, change and remove a todo.
ghost use Rattle.std.specs.Prelude.{◌≡◌, IfOk, IfSome, ◌&&◌, is_some, not};
ghost use Rattle.rv_rows.specs.Held.{rows_in, AreRows};
ghost use Rattle.rv_rows.specs.Keys.{key_text, has_row};
ghost use Rattle.rv_rows.specs.Sharing.{may_edit};
ghost use Rattle.rv_rows.specs.Effects.{with_fields};
ghost use Rattle.rv_rows.specs.Changes.{same_row};
ghost use Rattle.rv_rows.specs.declared.call.Call.TheVariants.{CreateTodo, UpdateTodo, DeleteTodo};
ghost use Rattle.rv_rows.specs.declared.row.Row.TheVariants.{Todo};
ghost use Rattle.rv_rows.specs.declared.key.Kind.TheVariants.{Todo as TodoKind};
ghost use Rattle.rv_mutators.specs.Staging.{staged, written_if, removed_if};

use crate::lists::gap_for;
use crate::staged::Staged;
use rv_base::{Id, Memory, Num, Text, User};
use rv_rows::{At, Kind, Row, Tables, TodoRow};
use rv_sharing::{list_to_edit, may_edit_list_of};
use std::alloc::Global;

// A todo that is not there, at the end of a list that the user may edit.
pub(crate) fn create_todo(
    alloc: Global,
    tables: &Tables,
    user: &User,
    id: &Id,
    list: &Id,
    text: &Text,
    complete: bool,
) -> Result<Staged, Memory>
    requires { AreRows tables.now.rows }
    ensures { IfOk result (λ s. s ≡ staged (rows_in tables.now.rows) user.now (CreateTodo id.now list.now text.now complete)) }
{
    match list_for(tables, user, id, list) {
        Some((known, gap)) => {
            let row = TodoRow {
                id: id.copy(alloc)?,
                list: known.copy(alloc)?,
                text: text.copy(alloc)?,
                complete,
                sort: TodoRow::sort_after(tables.greatest_sort(list)),
            };
            Staged::adds(alloc, Row::Todo(row), gap)
        }
        None => Ok(Staged::nothing(alloc)),
    }
}

// The id of the list, as its row has it, and where the todo goes, where no todo has the id and the user may edit the list.
fn list_for<'t>(tables: &'t Tables, user: &User, id: &Id, list: &Id) -> Option<(&'t Id, At)>
    ensures allowed { is_some result ≡ (not (has_row (key_text (record { kind = TodoKind; id = id.now })) (rows_in tables.now.rows)) && may_edit user.now list.now (rows_in tables.now.rows)) }
    ensures id { IfSome result (λ found. found.0.now ≡ list.now) }
{
    let gap = gap_for(tables, Kind::Todo, id)?;
    let known = list_to_edit(tables, user, list)?;
    Some((known, gap))
}

// The fields that are named, of a todo whose list the user may edit.
pub(crate) fn update_todo(
    alloc: Global,
    tables: &Tables,
    user: &User,
    id: &Id,
    text: &Option<Text>,
    complete: Option<bool>,
    sort: Option<Num>,
) -> Result<Staged, Memory>
    requires { AreRows tables.now.rows }
    ensures { IfOk result (λ s. s ≡ staged (rows_in tables.now.rows) user.now (UpdateTodo id.now text.now complete sort)) }
{
    match tables.row(Kind::Todo, id) {
        Some((row, _version)) => {
            if may_edit_list_of(tables, user, row) {
                set_fields(alloc, row, text, complete, sort)
            } else {
                Ok(Staged::nothing(alloc))
            }
        }
        None => Ok(Staged::nothing(alloc)),
    }
}

// The row with the fields that are named, where one of them differs.
fn set_fields(
    alloc: Global,
    row: &Row,
    text: &Option<Text>,
    complete: Option<bool>,
    sort: Option<Num>,
) -> Result<Staged, Memory>
    ensures { IfOk result (λ s. s ≡ written_if (not (same_row (with_fields text.now complete sort row.now) row.now)) (with_fields text.now complete sort row.now)) }
{
    match row {
        Row::Extent(_) => Ok(Staged::nothing(alloc)),
        Row::List(_) => Ok(Staged::nothing(alloc)),
        Row::Share(_) => Ok(Staged::nothing(alloc)),
        Row::Todo(row) => {
            if has_fields(row, text, complete, sort) {
                Ok(Staged::nothing(alloc))
            } else {
                Staged::writes(
                    alloc,
                    Row::Todo(row.with_fields(alloc, text, complete, sort)?),
                )
            }
        }
    }
}

// Whether the todo has each field that is named already.
fn has_fields(row: &TodoRow, text: &Option<Text>, complete: Option<bool>, sort: Option<Num>) -> bool
    ensures { result ≡ same_row (with_fields text.now complete sort (Todo row.now)) (Todo row.now) }
{
    *text.as_ref().unwrap_or(&row.text) == row.text
        && complete.unwrap_or(row.complete) == row.complete
        && sort.unwrap_or(row.sort) == row.sort
}

// A todo goes, whose list the user may edit.
pub(crate) fn delete_todo(
    alloc: Global,
    tables: &Tables,
    user: &User,
    id: &Id,
) -> Result<Staged, Memory>
    requires { AreRows tables.now.rows }
    ensures { IfOk result (λ s. s ≡ staged (rows_in tables.now.rows) user.now (DeleteTodo id.now)) }
{
    match tables.row(Kind::Todo, id) {
        Some((row, _version)) => {
            if may_edit_list_of(tables, user, row) {
                Staged::removes(alloc, row.key(alloc)?)
            } else {
                Ok(Staged::nothing(alloc))
            }
        }
        None => Ok(Staged::nothing(alloc)),
    }
}
