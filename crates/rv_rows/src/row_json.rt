ghost use Rattle.std.specs.Prelude.{◌≡◌, IfOk, codes};
ghost use Rattle.serde_json.specs.View.{view};
ghost use Rattle.rv_rows.specs.declared.row.Row.TheVariants as variants;
ghost use Rattle.serde_json.specs.Data.{object, member, no_members, string};
ghost use Rattle.rv_rows.specs.RowTexts.{ids_data, row_data};

use crate::role::Role;
use crate::row::{ExtentRow, ListRow, Row, ShareRow, TodoRow};
use rv_base::{Id, Memory};
use serde_json::{Value, json};
use std::alloc::{AllocError, Global};

fn ids_value(alloc: Global, ids: &[Id]) -> Result<Value, Memory>
    ensures { IfOk result (λ v. view v ≡ ids_data ids.now) }
{
    let mut values = Vec::new(alloc);
    for id in ids {
        values.push(Value::String(String::from_str(alloc, id.as_str())?))?;
    }
    Ok(Value::Array(values))
}

fn object_of_extent(alloc: Global, lists: Value, user: &str) -> Result<Value, AllocError>
    ensures { IfOk result (λ v. view v ≡ object (member (codes "lists") (view lists) (member (codes "user") (string user.now) no_members))) }
{
    json!(in alloc; {"lists": lists, "user": user})
}

fn extent_value(alloc: Global, row: &ExtentRow) -> Result<Value, Memory>
    ensures { IfOk result (λ v. view v ≡ row_data (variants.Extent row.now)) }
{
    let lists = ids_value(alloc, row.lists.as_slice())?;
    Ok(object_of_extent(alloc, lists, row.user.as_str())?)
}

fn list_value(alloc: Global, row: &ListRow) -> Result<Value, AllocError>
    ensures { IfOk result (λ v. view v ≡ row_data (variants.List row.now)) }
{
    json!(in alloc; {"id": row.id.as_str(), "name": row.name.as_str(), "ownerID": row.owner.as_str()})
}

fn share_value(alloc: Global, row: &ShareRow) -> Result<Value, AllocError>
    ensures { IfOk result (λ v. view v ≡ row_data (variants.Share row.now)) }
{
    match row.role {
        Role::View =>
            json!(in alloc; {"id": row.id.as_str(), "listID": row.list.as_str(), "role": "view", "userID": row.user.as_str()}),
        Role::Edit =>
            json!(in alloc; {"id": row.id.as_str(), "listID": row.list.as_str(), "userID": row.user.as_str()}),
    }
}

fn todo_value(alloc: Global, row: &TodoRow) -> Result<Value, AllocError>
    ensures { IfOk result (λ v. view v ≡ row_data (variants.Todo row.now)) }
{
    json!(in alloc; {"complete": row.complete, "id": row.id.as_str(), "listID": row.list.as_str(), "sort": row.sort.get(), "text": row.text.as_str()})
}

/// The row as a JSON value: an extent is `{"lists":[I,..],"user":U}`, a list is `{"id":I,"name":T,"ownerID":U}`, a share that
/// lets edit is `{"id":I,"listID":I,"userID":U}`, one that lets see alone `{"id":I,"listID":I,"role":"view","userID":U}`, and a
/// todo is `{"complete":B,"id":I,"listID":I,"sort":N,"text":T}`.
///
/// Nothing in the program calls it, which writes rows by `write_row`: it is for who wants the value.
pub fn row_value(alloc: Global, row: &Row) -> Result<Value, Memory>
    ensures { IfOk result (λ v. view v ≡ row_data row.now) }
{
    match row {
        Row::Extent(row) => extent_value(alloc, row),
        Row::List(row) => Ok(list_value(alloc, row)?),
        Row::Share(row) => Ok(share_value(alloc, row)?),
        Row::Todo(row) => Ok(todo_value(alloc, row)?),
    }
}
