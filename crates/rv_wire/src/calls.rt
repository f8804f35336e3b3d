ghost use Rattle.std.specs.Prelude.{◌≡◌, IfOk, IfSome, option_and_then, option_map};
ghost use Rattle.serde_json.specs.Find.{as_bool, get};
ghost use Rattle.rv_json.specs.ValueData.{value_data};
ghost use Rattle.rv_rows.specs.Extents.{lists_of};
ghost use Rattle.rv_rows.specs.Members.{text_in, num_in, ids_in};
ghost use Rattle.rv_wire.specs.Members.{extent_in, extent_member, optional};
ghost use Rattle.rv_wire.specs.Calls.{call_in, call_with, create_list_in, create_share_in, create_todo_in, set_extent_in, update_share_in, update_todo_in};

use crate::body::{bool_member, role_member, text_member};
use json::Value;
use rv_base::{Id, Memory, Num, Text};
use rv_json::{flag, is_null, member};
use rv_rows::{Call, Lists, Reason, ids_of_value, num_of_value, role_or_edit, text_of_value};
use std::alloc::Global;

/// The call that a mutation's name and arguments spell: `Void` where they spell none.
pub fn read_call(alloc: Global, name: &str, args: &Value<'_>) -> Result<Call, Memory>
    ensures { IfOk result (λ call. call ≡ call_in name.now (value_data args.now)) }
{
    match call_with(alloc, name, args)? {
        Some(call) => Ok(call),
        None => Ok(Call::Void(Reason::BadArgs)),
    }
}

// The call of a name and arguments, where they are not bad.
fn call_with(alloc: Global, name: &str, args: &Value<'_>) -> Result<Option<Call>, Memory>
    ensures { IfOk result (λ o. o ≡ call_with name.now (value_data args.now)) }
{
    match name {
        "createList" => create_list(alloc, args),
        "deleteList" => Ok(id_of(alloc, args)?.map(|id| Call::DeleteList { id })),
        "createShare" => create_share(alloc, args),
        "updateShare" => update_share(alloc, args),
        "deleteShare" => Ok(id_of(alloc, args)?.map(|id| Call::DeleteShare { id })),
        "createTodo" => create_todo(alloc, args),
        "updateTodo" => update_todo(alloc, args),
        "deleteTodo" => Ok(id_of(alloc, args)?.map(|id| Call::DeleteTodo { id })),
        "setExtent" => set_extent(alloc, args),
        _ => Ok(Some(Call::Void(Reason::UnknownName))),
    }
}

fn id_of(alloc: Global, args: &Value<'_>) -> Result<Option<Id>, Memory>
    ensures { IfOk result (λ o. o ≡ text_in 1 128 (value_data args.now)) }
{
    text_of_value(alloc, args)
}

#[tactic(auto, unfolding(crate::specs::Calls::create_list_in))]
fn create_list(alloc: Global, args: &Value<'_>) -> Result<Option<Call>, Memory>
    ensures { IfOk result (λ o. o ≡ create_list_in (value_data args.now)) }
{
    let Some(id) = text_member(alloc, args, "id")? else {
        return Ok(None);
    };
    let Some(name) = text_member(alloc, args, "name")? else {
        return Ok(None);
    };
    let Some(owner) = text_member(alloc, args, "ownerID")? else {
        return Ok(None);
    };
    Ok(Some(Call::CreateList { id, name, owner }))
}

#[tactic(auto, unfolding(crate::specs::Calls::create_share_in))]
fn create_share(alloc: Global, args: &Value<'_>) -> Result<Option<Call>, Memory>
    ensures { IfOk result (λ o. o ≡ create_share_in (value_data args.now)) }
{
    let Some(id) = text_member(alloc, args, "id")? else {
        return Ok(None);
    };
    let Some(list) = text_member(alloc, args, "listID")? else {
        return Ok(None);
    };
    let Some(user) = text_member(alloc, args, "userID")? else {
        return Ok(None);
    };
    let Some(role) = role_or_edit(member(args, "role")) else {
        return Ok(None);
    };
    Ok(Some(Call::CreateShare {
        id,
        list,
        user,
        role,
    }))
}

#[tactic(auto, unfolding(crate::specs::Calls::update_share_in))]
fn update_share(alloc: Global, args: &Value<'_>) -> Result<Option<Call>, Memory>
    ensures { IfOk result (λ o. o ≡ update_share_in (value_data args.now)) }
{
    let Some(id) = text_member(alloc, args, "id")? else {
        return Ok(None);
    };
    let Some(role) = role_member(args, "role") else {
        return Ok(None);
    };
    Ok(Some(Call::UpdateShare { id, role }))
}

#[tactic(auto, unfolding(crate::specs::Calls::create_todo_in))]
fn create_todo(alloc: Global, args: &Value<'_>) -> Result<Option<Call>, Memory>
    ensures { IfOk result (λ o. o ≡ create_todo_in (value_data args.now)) }
{
    let Some(id) = text_member(alloc, args, "id")? else {
        return Ok(None);
    };
    let Some(list) = text_member(alloc, args, "listID")? else {
        return Ok(None);
    };
    let Some(text) = text_member(alloc, args, "text")? else {
        return Ok(None);
    };
    let Some(complete) = bool_member(args, "complete") else {
        return Ok(None);
    };
    Ok(Some(Call::CreateTodo {
        id,
        list,
        text,
        complete,
    }))
}

// A text that may be absent; `None` where it is there and is none.
fn optional_text(alloc: Global, value: Option<&Value<'_>>) -> Result<Option<Option<Text>>, Memory>
    ensures { IfOk result (λ o. o ≡ optional (text_in 0 16384) (option_map (λ v. value_data v.now) value.entry)) }
{
    match value {
        None => Ok(Some(None)),
        Some(value) => match text_of_value(alloc, value)? {
            Some(text) => Ok(Some(Some(text))),
            None => Ok(None),
        },
    }
}

fn optional_bool(value: Option<&Value<'_>>) -> Option<Option<bool>>
    ensures { result ≡ optional as_bool (option_map (λ v. value_data v.now) value.entry) }
{
    match value {
        None => Some(None),
        Some(value) => Some(Some(flag(value)?)),
    }
}

fn optional_num(value: Option<&Value<'_>>) -> Option<Option<Num>>
    ensures { result ≡ optional num_in (option_map (λ v. value_data v.now) value.entry) }
{
    match value {
        None => Some(None),
        Some(value) => Some(Some(num_of_value(value)?)),
    }
}

#[tactic(auto, unfolding(crate::specs::Calls::update_todo_in))]
fn update_todo(alloc: Global, args: &Value<'_>) -> Result<Option<Call>, Memory>
    ensures { IfOk result (λ o. o ≡ update_todo_in (value_data args.now)) }
{
    let Some(id) = text_member(alloc, args, "id")? else {
        return Ok(None);
    };
    let Some(text) = optional_text(alloc, member(args, "text"))? else {
        return Ok(None);
    };
    let Some(complete) = optional_bool(member(args, "complete")) else {
        return Ok(None);
    };
    let Some(sort) = optional_num(member(args, "sort")) else {
        return Ok(None);
    };
    Ok(Some(Call::UpdateTodo {
        id,
        text,
        complete,
        sort,
    }))
}

// The ids that a value is, each once, where it is an array of at most 64.
fn lists_of(alloc: Global, value: &Value<'_>) -> Result<Option<Lists>, Memory>
    ensures { IfOk result (λ o. o ≡ option_and_then lists_of (ids_in (value_data value.now))) }
{
    match ids_of_value(alloc, value)? {
        Some(ids) => Lists::new(alloc, ids),
        None => Ok(None),
    }
}

// The lists of the extent that a value asks for, or that it asks for none; `None` where it is neither null nor such ids.
fn extent_of(alloc: Global, value: &Value<'_>) -> Result<Option<Option<Lists>>, Memory>
    ensures { IfOk result (λ o. o ≡ extent_in (value_data value.now)) }
{
    if is_null(value) {
        return Ok(Some(None));
    }
    match lists_of(alloc, value)? {
        Some(lists) => Ok(Some(Some(lists))),
        None => Ok(None),
    }
}

fn extent_member(
    alloc: Global,
    args: &Value<'_>,
    name: &str,
) -> Result<Option<Option<Lists>>, Memory>
    ensures { IfOk result (λ o. o ≡ extent_member name.now (value_data args.now)) }
{
    match member(args, name) {
        Some(value) => extent_of(alloc, value),
        None => Ok(None),
    }
}

#[tactic(auto, unfolding(crate::specs::Calls::set_extent_in))]
fn set_extent(alloc: Global, args: &Value<'_>) -> Result<Option<Call>, Memory>
    ensures { IfOk result (λ o. o ≡ set_extent_in (value_data args.now)) }
{
    let Some(lists) = extent_member(alloc, args, "lists")? else {
        return Ok(None);
    };
    Ok(Some(Call::SetExtent { lists }))
}
