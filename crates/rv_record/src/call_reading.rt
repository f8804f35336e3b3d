ghost use Rattle.std.specs.Prelude.{◌≡◌, IfOk, option_and_then};
ghost use Rattle.serde_json.specs.Find.{at, as_bool};
ghost use Rattle.rv_json.specs.ValueData.{value_data};
ghost use Rattle.rv_rows.specs.Members.{text_in, num_in, lists_in};
ghost use Rattle.rv_record.specs.ValueReading.{or_null, text_item};
ghost use Rattle.rv_record.specs.EntryReading.{stored_create_list_in, stored_create_share_in, stored_update_share_in, stored_create_todo_in, stored_update_todo_in, stored_set_extent_in, void_with, stored_call_with, stored_call_in};

use crate::value_reading::{flag_item, role_item, string_item, text_item};
use json::Value;
use rv_base::{Id, Memory, Num, Text};
use rv_json::{flag, is_null, item};
use rv_rows::{Call, Lists, Reason, lists_of_value, num_of_value, role_or_edit, text_of_value};
use std::alloc::Global;

fn id_of(alloc: Global, value: &Value<'_>) -> Result<Option<Id>, Memory>
    ensures { IfOk result (λ o. o ≡ text_item 1 128 1 (value_data value.now)) }
{
    text_item(alloc, value, 1)
}

#[tactic(auto, unfolding(crate::specs::EntryReading::stored_create_list_in))]
fn create_list(alloc: Global, value: &Value<'_>) -> Result<Option<Call>, Memory>
    ensures { IfOk result (λ o. o ≡ stored_create_list_in (value_data value.now)) }
{
    let Some(id) = text_item(alloc, value, 1)? else {
        return Ok(None);
    };
    let Some(name) = text_item(alloc, value, 2)? else {
        return Ok(None);
    };
    let Some(owner) = text_item(alloc, value, 3)? else {
        return Ok(None);
    };
    Ok(Some(Call::CreateList { id, name, owner }))
}

#[tactic(auto, unfolding(crate::specs::EntryReading::stored_create_share_in))]
fn create_share(alloc: Global, value: &Value<'_>) -> Result<Option<Call>, Memory>
    ensures { IfOk result (λ o. o ≡ stored_create_share_in (value_data value.now)) }
{
    let Some(id) = text_item(alloc, value, 1)? else {
        return Ok(None);
    };
    let Some(list) = text_item(alloc, value, 2)? else {
        return Ok(None);
    };
    let Some(user) = text_item(alloc, value, 3)? else {
        return Ok(None);
    };
    let Some(role) = role_or_edit(item(value, 4)) else {
        return Ok(None);
    };
    Ok(Some(Call::CreateShare {
        id,
        list,
        user,
        role,
    }))
}

#[tactic(auto, unfolding(crate::specs::EntryReading::stored_update_share_in))]
fn update_share(alloc: Global, value: &Value<'_>) -> Result<Option<Call>, Memory>
    ensures { IfOk result (λ o. o ≡ stored_update_share_in (value_data value.now)) }
{
    let Some(id) = text_item(alloc, value, 1)? else {
        return Ok(None);
    };
    let Some(role) = role_item(value, 2) else {
        return Ok(None);
    };
    Ok(Some(Call::UpdateShare { id, role }))
}

#[tactic(auto, unfolding(crate::specs::EntryReading::stored_create_todo_in))]
fn create_todo(alloc: Global, value: &Value<'_>) -> Result<Option<Call>, Memory>
    ensures { IfOk result (λ o. o ≡ stored_create_todo_in (value_data value.now)) }
{
    let Some(id) = text_item(alloc, value, 1)? else {
        return Ok(None);
    };
    let Some(list) = text_item(alloc, value, 2)? else {
        return Ok(None);
    };
    let Some(text) = text_item(alloc, value, 3)? else {
        return Ok(None);
    };
    let Some(complete) = flag_item(value, 4) else {
        return Ok(None);
    };
    Ok(Some(Call::CreateTodo {
        id,
        list,
        text,
        complete,
    }))
}

// The text at a position, or that there is none; `None` where it is neither null nor a text.
fn text_or_null(
    alloc: Global,
    value: &Value<'_>,
    position: usize,
) -> Result<Option<Option<Text>>, Memory>
    ensures { IfOk result (λ o. o ≡ option_and_then (or_null (text_in 0 16384)) (at position (value_data value.now))) }
{
    let Some(found) = item(value, position) else {
        return Ok(None);
    };
    if is_null(found) {
        return Ok(Some(None));
    }
    match text_of_value(alloc, found)? {
        Some(text) => Ok(Some(Some(text))),
        None => Ok(None),
    }
}

fn flag_or_null(value: &Value<'_>, position: usize) -> Option<Option<bool>>
    ensures { result ≡ option_and_then (or_null as_bool) (at position (value_data value.now)) }
{
    let found = item(value, position)?;
    if is_null(found) {
        Some(None)
    } else {
        Some(Some(flag(found)?))
    }
}

fn num_or_null(value: &Value<'_>, position: usize) -> Option<Option<Num>>
    ensures { result ≡ option_and_then (or_null num_in) (at position (value_data value.now)) }
{
    let found = item(value, position)?;
    if is_null(found) {
        Some(None)
    } else {
        Some(Some(num_of_value(found)?))
    }
}

#[tactic(auto, unfolding(crate::specs::EntryReading::stored_update_todo_in))]
fn update_todo(alloc: Global, value: &Value<'_>) -> Result<Option<Call>, Memory>
    ensures { IfOk result (λ o. o ≡ stored_update_todo_in (value_data value.now)) }
{
    let Some(id) = text_item(alloc, value, 1)? else {
        return Ok(None);
    };
    let Some(text) = text_or_null(alloc, value, 2)? else {
        return Ok(None);
    };
    let Some(complete) = flag_or_null(value, 3) else {
        return Ok(None);
    };
    let Some(sort) = num_or_null(value, 4) else {
        return Ok(None);
    };
    Ok(Some(Call::UpdateTodo {
        id,
        text,
        complete,
        sort,
    }))
}

// The lists at a position, or that there are none; `None` where it is neither null nor an extent's lists.
fn lists_or_null(
    alloc: Global,
    value: &Value<'_>,
    position: usize,
) -> Result<Option<Option<Lists>>, Memory>
    ensures { IfOk result (λ o. o ≡ option_and_then (or_null lists_in) (at position (value_data value.now))) }
{
    let Some(found) = item(value, position) else {
        return Ok(None);
    };
    if is_null(found) {
        return Ok(Some(None));
    }
    match lists_of_value(alloc, found)? {
        Some(lists) => Ok(Some(Some(lists))),
        None => Ok(None),
    }
}

#[tactic(auto, unfolding(crate::specs::EntryReading::stored_set_extent_in))]
fn set_extent(alloc: Global, value: &Value<'_>) -> Result<Option<Call>, Memory>
    ensures { IfOk result (λ o. o ≡ stored_set_extent_in (value_data value.now)) }
{
    let Some(lists) = lists_or_null(alloc, value, 1)? else {
        return Ok(None);
    };
    Ok(Some(Call::SetExtent { lists }))
}

fn void_with(reason: &str) -> Option<Call>
    ensures { result ≡ void_with reason.now }
{
    match reason {
        "UnknownName" => Some(Call::Void(Reason::UnknownName)),
        "BadArgs" => Some(Call::Void(Reason::BadArgs)),
        _ => None,
    }
}

// The call of a name, from the items after it.
fn stored_call_with(alloc: Global, name: &str, value: &Value<'_>) -> Result<Option<Call>, Memory>
    ensures { IfOk result (λ o. o ≡ stored_call_with name.now (value_data value.now)) }
{
    match name {
        "createList" => create_list(alloc, value),
        "deleteList" => Ok(id_of(alloc, value)?.map(|id| Call::DeleteList { id })),
        "createShare" => create_share(alloc, value),
        "updateShare" => update_share(alloc, value),
        "deleteShare" => Ok(id_of(alloc, value)?.map(|id| Call::DeleteShare { id })),
        "createTodo" => create_todo(alloc, value),
        "updateTodo" => update_todo(alloc, value),
        "deleteTodo" => Ok(id_of(alloc, value)?.map(|id| Call::DeleteTodo { id })),
        "setExtent" => set_extent(alloc, value),
        "void" => Ok(string_item(value, 1).and_then(void_with)),
        _ => Ok(None),
    }
}

// The call that a value is, from its name and the items that the name asks for.
#[tactic(auto, unfolding(crate::specs::EntryReading::stored_call_in))]
pub(crate) fn call_of_value(alloc: Global, value: &Value<'_>) -> Result<Option<Call>, Memory>
    ensures { IfOk result (λ o. o ≡ stored_call_in (value_data value.now)) }
{
    match string_item(value, 0) {
        Some(name) => stored_call_with(alloc, name, value),
        None => Ok(None),
    }
}
