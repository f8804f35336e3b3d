ghost use Rattle.std.specs.Prelude.{◌≡◌, IfOk, IfSome, IfNone, Some, None};
ghost use Rattle.rv_json.specs.ValueData.{value_data, members_data};
ghost use Rattle.rv_rows.specs.declared.row.Row.{Row};
ghost use Rattle.rv_rows.specs.RowTexts.{row_data, RowIsWithin, extent_row_in, list_row_in, past_role, share_row_in, todo_row_in, members_row_in, row_in};

use crate::json_reading::{lists_of_value, next_named, num_of_value, text_of_value};
use crate::role::Role;
use crate::row::{ExtentRow, ListRow, Row, ShareRow, TodoRow};
use json::Value;
use rv_base::Memory;
use rv_json::{Members, flag, members, text};
use std::alloc::Global;
use std::collections::btree_map::Iter;

#[tactic(auto, unfolding(crate::specs::RowTexts::extent_row_in))]
fn extent_row<'t>(
    alloc: Global,
    mut left: Iter<'_, &'t str, &Value<'t>>,
) -> Result<Option<ExtentRow>, Memory>
    ensures { IfOk result (λ o. o ≡ extent_row_in (members_data left.entry)) }
{
    let Some(lists) = next_named(&mut left, "lists") else {
        return Ok(None);
    };
    let Some(user) = next_named(&mut left, "user") else {
        return Ok(None);
    };
    if left.next().is_some() {
        return Ok(None);
    }
    let Some(lists) = lists_of_value(alloc, lists)? else {
        return Ok(None);
    };
    let Some(user) = text_of_value(alloc, user)? else {
        return Ok(None);
    };
    Ok(Some(ExtentRow { user, lists }))
}

#[tactic(auto, unfolding(crate::specs::RowTexts::list_row_in))]
fn list_row<'t>(
    alloc: Global,
    mut left: Iter<'_, &'t str, &Value<'t>>,
) -> Result<Option<ListRow>, Memory>
    ensures { IfOk result (λ o. o ≡ list_row_in (members_data left.entry)) }
{
    let Some(id) = next_named(&mut left, "id") else {
        return Ok(None);
    };
    let Some(name) = next_named(&mut left, "name") else {
        return Ok(None);
    };
    let Some(owner) = next_named(&mut left, "ownerID") else {
        return Ok(None);
    };
    if left.next().is_some() {
        return Ok(None);
    }
    let Some(id) = text_of_value(alloc, id)? else {
        return Ok(None);
    };
    let Some(name) = text_of_value(alloc, name)? else {
        return Ok(None);
    };
    let Some(owner) = text_of_value(alloc, owner)? else {
        return Ok(None);
    };
    Ok(Some(ListRow { id, name, owner }))
}

// Goes past the member of a share's role, where it names this one.
fn go_past_role<'t>(left: &mut Iter<'_, &'t str, &Value<'t>>, role: Role) -> Option<()>
    ensures found { IfSome result (λ _. past_role role (members_data left.old) ≡ Some (members_data left.new)) }
    ensures none { IfNone result (past_role role (members_data left.old) ≡ None) }
{
    match role {
        Role::View => {
            let text = text(next_named(left, "role")?)?;
            if text == "view" { Some(()) } else { None }
        }
        Role::Edit => Some(()),
    }
}

#[tactic(auto, unfolding(crate::specs::RowTexts::share_row_in))]
fn share_row<'t>(
    alloc: Global,
    mut left: Iter<'_, &'t str, &Value<'t>>,
    role: Role,
) -> Result<Option<ShareRow>, Memory>
    ensures { IfOk result (λ o. o ≡ share_row_in role (members_data left.entry)) }
{
    let Some(id) = next_named(&mut left, "id") else {
        return Ok(None);
    };
    let Some(list) = next_named(&mut left, "listID") else {
        return Ok(None);
    };
    let Some(()) = go_past_role(&mut left, role) else {
        return Ok(None);
    };
    let Some(user) = next_named(&mut left, "userID") else {
        return Ok(None);
    };
    if left.next().is_some() {
        return Ok(None);
    }
    let Some(id) = text_of_value(alloc, id)? else {
        return Ok(None);
    };
    let Some(list) = text_of_value(alloc, list)? else {
        return Ok(None);
    };
    let Some(user) = text_of_value(alloc, user)? else {
        return Ok(None);
    };
    Ok(Some(ShareRow {
        id,
        list,
        user,
        role,
    }))
}

#[tactic(auto, unfolding(crate::specs::RowTexts::todo_row_in))]
fn todo_row<'t>(
    alloc: Global,
    mut left: Iter<'_, &'t str, &Value<'t>>,
) -> Result<Option<TodoRow>, Memory>
    ensures { IfOk result (λ o. o ≡ todo_row_in (members_data left.entry)) }
{
    let Some(complete) = next_named(&mut left, "complete") else {
        return Ok(None);
    };
    let Some(id) = next_named(&mut left, "id") else {
        return Ok(None);
    };
    let Some(list) = next_named(&mut left, "listID") else {
        return Ok(None);
    };
    let Some(sort) = next_named(&mut left, "sort") else {
        return Ok(None);
    };
    let Some(text) = next_named(&mut left, "text") else {
        return Ok(None);
    };
    if left.next().is_some() {
        return Ok(None);
    }
    let Some(complete) = flag(complete) else {
        return Ok(None);
    };
    let Some(id) = text_of_value(alloc, id)? else {
        return Ok(None);
    };
    let Some(list) = text_of_value(alloc, list)? else {
        return Ok(None);
    };
    let Some(sort) = num_of_value(sort) else {
        return Ok(None);
    };
    let Some(text) = text_of_value(alloc, text)? else {
        return Ok(None);
    };
    Ok(Some(TodoRow {
        id,
        list,
        text,
        complete,
        sort,
    }))
}

fn row_of_members(alloc: Global, members: &Members<'_, '_>) -> Result<Option<Row>, Memory>
    ensures { IfOk result (λ o. o ≡ members_row_in (members_data members.now.entries)) }
{
    if let Some(row) = extent_row(alloc, members.iter())? {
        return Ok(Some(Row::Extent(row)));
    }
    if let Some(row) = list_row(alloc, members.iter())? {
        return Ok(Some(Row::List(row)));
    }
    if let Some(row) = share_row(alloc, members.iter(), Role::Edit)? {
        return Ok(Some(Row::Share(row)));
    }
    if let Some(row) = share_row(alloc, members.iter(), Role::View)? {
        return Ok(Some(Row::Share(row)));
    }
    match todo_row(alloc, members.iter())? {
        Some(row) => Ok(Some(Row::Todo(row))),
        None => Ok(None),
    }
}

fn row_of(alloc: Global, value: &Value<'_>) -> Result<Option<Row>, Memory>
    ensures { IfOk result (λ o. o ≡ row_in (value_data value.now)) }
{
    match members(alloc, value)? {
        Some(members) => row_of_members(alloc, &members),
        None => Ok(None),
    }
}

/// The row that a value is, where it is exactly the value of one.
pub fn read_row(alloc: Global, value: &Value<'_>) -> Result<Option<Row>, Memory>
    ensures found { IfOk result (λ o. IfSome o (λ r. (value_data value.now ≡ row_data r) × RowIsWithin r)) }
    ensures only { IfOk result (λ o. (r : Row) → RowIsWithin r → value_data value.now ≡ row_data r → o ≡ Some r) }
{
    row_of(alloc, value)
}
