ghost use Rattle.std.specs.Prelude.{◌≡◌, ◌≤◌, IfOk, option_and_then};
ghost use Rattle.serde_json.specs.Find.{at};
ghost use Rattle.rv_json.specs.ValueData.{value_data};
ghost use Rattle.rv_record.specs.CellTexts.{entry_cell};
ghost use Rattle.rv_record.specs.CellReading.{ReadsCell};
ghost use Rattle.rv_record.specs.ValueReading.{or_null, place_in, text_item};
ghost use Rattle.rv_record.specs.EntryReading.{PlacedFits, act_in, look_in, entry_with, entry_in, body_entry};

use crate::call_reading::call_of_value;
use crate::cells::{cell_of_entry, is_same, place_of_key};
use crate::fault::{CellFault, damaged};
use crate::value_reading::{num_item, place_of_value, string_item, text_item, text_item_like};
use json::{Scratch, Value};
use rv_base::{Id, Memory, User};
use rv_book::Entry;
use rv_json::{is_null, item, read_json};
use rv_keeper::Cell;
use std::alloc::Global;

// The user whom an entry names.
fn user_of(entry: Option<&Entry>) -> Option<&User> {
    match entry? {
        Entry::Act { user, .. } => Some(user),
        Entry::Look { user, .. } => Some(user),
        Entry::Retire { .. } => None,
    }
}

// The group that an entry names.
fn group_of(entry: Option<&Entry>) -> Option<&Id> {
    match entry? {
        Entry::Act { group, .. } => Some(group),
        Entry::Look { group, .. } => Some(group),
        Entry::Retire { group } => Some(group),
    }
}

// The client that an entry names.
fn client_of(entry: Option<&Entry>) -> Option<&Id> {
    match entry? {
        Entry::Act { client, .. } => Some(client),
        Entry::Look { .. } => None,
        Entry::Retire { .. } => None,
    }
}

#[tactic(auto, unfolding(crate::specs::EntryReading::act_in))]
fn act(alloc: Global, value: &Value<'_>, before: Option<&Entry>) -> Result<Option<Entry>, Memory>
    ensures { IfOk result (λ o. o ≡ act_in (value_data value.now)) }
{
    let Some(user) = text_item_like(alloc, value, 1, user_of(before))? else {
        return Ok(None);
    };
    let Some(group) = text_item_like(alloc, value, 2, group_of(before))? else {
        return Ok(None);
    };
    let Some(client) = text_item_like(alloc, value, 3, client_of(before))? else {
        return Ok(None);
    };
    let Some(id) = num_item(value, 4) else {
        return Ok(None);
    };
    let Some(spelled) = item(value, 5) else {
        return Ok(None);
    };
    let Some(call) = call_of_value(alloc, spelled)? else {
        return Ok(None);
    };
    Ok(Some(Entry::Act {
        user,
        group,
        client,
        id,
        call,
    }))
}

// The place of a base, or that there is none; `None` where it is neither null nor a place.
fn place_or_null(value: &Value<'_>, position: usize) -> Option<Option<u32>>
    ensures { result ≡ option_and_then (or_null place_in) (at position (value_data value.now)) }
{
    let found = item(value, position)?;
    if is_null(found) {
        Some(None)
    } else {
        Some(Some(place_of_value(found)?))
    }
}

#[tactic(auto, unfolding(crate::specs::EntryReading::look_in))]
fn look(alloc: Global, value: &Value<'_>, before: Option<&Entry>) -> Result<Option<Entry>, Memory>
    ensures { IfOk result (λ o. o ≡ look_in (value_data value.now)) }
{
    let Some(user) = text_item_like(alloc, value, 1, user_of(before))? else {
        return Ok(None);
    };
    let Some(group) = text_item_like(alloc, value, 2, group_of(before))? else {
        return Ok(None);
    };
    let Some(order) = num_item(value, 3) else {
        return Ok(None);
    };
    let Some(base) = place_or_null(value, 4) else {
        return Ok(None);
    };
    Ok(Some(Entry::Look {
        user,
        group,
        order,
        base,
    }))
}

fn retired(alloc: Global, value: &Value<'_>) -> Result<Option<Id>, Memory>
    ensures { IfOk result (λ o. o ≡ text_item 1 128 1 (value_data value.now)) }
{
    text_item(alloc, value, 1)
}

// The entry of a name, from the items after it.
fn entry_with(
    alloc: Global,
    name: &str,
    value: &Value<'_>,
    before: Option<&Entry>,
) -> Result<Option<Entry>, Memory>
    ensures { IfOk result (λ o. o ≡ entry_with name.now (value_data value.now)) }
{
    match name {
        "act" => act(alloc, value, before),
        "look" => look(alloc, value, before),
        "retire" => Ok(retired(alloc, value)?.map(|group| Entry::Retire { group })),
        _ => Ok(None),
    }
}

// The entry that a value is, from its name and the items that the name asks for.
#[tactic(auto, unfolding(crate::specs::EntryReading::entry_in))]
fn entry_of_value(
    alloc: Global,
    value: &Value<'_>,
    before: Option<&Entry>,
) -> Result<Option<Entry>, Memory>
    ensures { IfOk result (λ o. o ≡ entry_in (value_data value.now)) }
{
    match string_item(value, 0) {
        Some(name) => entry_with(alloc, name, value, before),
        None => Ok(None),
    }
}

fn entry_of_body(
    alloc: Global,
    body: &[u8],
    before: Option<&Entry>,
    scratch: &mut Scratch,
) -> Result<Option<Entry>, Memory>
    ensures { IfOk result (λ o. o ≡ body_entry body.now) }
{
    match read_json(alloc, body, scratch)? {
        Some(value) => entry_of_value(alloc, &value, before),
        None => Ok(None),
    }
}

/// The entry whose cell this is, at its place, from 1. Any other cell is `BadCell`.
///
/// Where the entry `before` it has the same user, group or client, its text is shared: most entries come from the client of the one before.
///
/// `scratch` is room to read in, which is kept from one text to the next.
pub fn entry_of_cell(
    alloc: Global,
    cell: &Cell,
    before: Option<&Entry>,
    scratch: &mut Scratch,
) -> Result<(u32, Entry), CellFault>
    ensures reads { ReadsCell (λ e. entry_cell e.0 e.1) PlacedFits cell.now result }
    ensures place { IfOk result (λ e. 1 ≤ e.0) }
{
    let Some(place) = place_of_key(cell.key.as_slice()) else {
        return Err(damaged(alloc, cell));
    };
    let Some(entry) = entry_of_body(alloc, cell.body.as_slice(), before, scratch)? else {
        return Err(damaged(alloc, cell));
    };
    let again = cell_of_entry(alloc, place, &entry)?;
    if is_same(cell, &again) {
        Ok((place, entry))
    } else {
        Err(damaged(alloc, cell))
    }
}
