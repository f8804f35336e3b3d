ghost use Rattle.std.specs.Prelude.{◌≡◌, ◌≤◌, IfOk, option_map, option_and_then};
ghost use Rattle.serde_json.specs.Find.{at, as_array};
ghost use Rattle.rv_json.specs.ValueData.{value_data, items_data};
ghost use Rattle.rv_base.specs.Sorted.{is_in_order};
ghost use Rattle.rv_rows.specs.Keys.{prefix};
ghost use Rattle.rv_rows.specs.Members.{each_item};
ghost use Rattle.rv_views.specs.Viewed.{seen_key, client_of_pair};
ghost use Rattle.rv_record.specs.CellTexts.{view_cell};
ghost use Rattle.rv_record.specs.CellReading.{ReadsCell};
ghost use Rattle.rv_record.specs.ViewReading.{ViewFits, after_front, key_with, key_in, seen_in, pair_in, each_of, viewed, view_in, body_view};

use crate::cells::{cell_of_view, is_same, place_of_key};
use crate::fault::{CellFault, damaged};
use crate::value_reading::{num_item, place_item, string_item, text_item, text_of_bytes};
use json::{Scratch, Value};
use rv_base::{Id, Memory, Num, Sequence};
use rv_json::{item, items, read_json};
use rv_keeper::Cell;
use rv_rows::{Clients, Key, Kind, Visible};
use rv_views::{ViewRecord, record_now};
use std::alloc::Global;
use std::cmp::Ordering;

// What stands after the front of the kind's key texts.
fn after_front(kind: Kind, text: &[u8]) -> Option<&[u8]>
    ensures { option_map (λ s. s.now) result ≡ after_front (prefix kind) text.now }
{
    text.strip_prefix(kind.prefix().as_bytes())
}

// The key of a kind whose id is the bytes.
fn key_with(alloc: Global, kind: Kind, bytes: &[u8]) -> Result<Option<Key>, Memory>
    ensures { IfOk result (λ o. o ≡ key_with kind bytes.now) }
{
    match text_of_bytes(alloc, bytes)? {
        Some(id) => Ok(Some(Key { kind, id })),
        None => Ok(None),
    }
}

// The key of a text: `extent/USER`, `list/ID`, `share/ID` or `todo/ID`.
#[tactic(auto, unfolding(crate::specs::ViewReading::key_in))]
fn key_of_text(alloc: Global, text: &[u8]) -> Result<Option<Key>, Memory>
    ensures { IfOk result (λ o. o ≡ key_in text.now) }
{
    if let Some(id) = after_front(Kind::Extent, text) {
        return key_with(alloc, Kind::Extent, id);
    }
    if let Some(id) = after_front(Kind::List, text) {
        return key_with(alloc, Kind::List, id);
    }
    if let Some(id) = after_front(Kind::Share, text) {
        return key_with(alloc, Kind::Share, id);
    }
    match after_front(Kind::Todo, text) {
        Some(id) => key_with(alloc, Kind::Todo, id),
        None => Ok(None),
    }
}

// The key and the version that an item of the first list is.
#[tactic(auto, unfolding(crate::specs::ViewReading::seen_in))]
fn seen_of_value(alloc: Global, value: &Value<'_>) -> Result<Option<(Key, u32)>, Memory>
    ensures { IfOk result (λ o. o ≡ seen_in (value_data value.now)) }
{
    let Some(text) = string_item(value, 0) else {
        return Ok(None);
    };
    let Some(key) = key_of_text(alloc, text.as_bytes())? else {
        return Ok(None);
    };
    let Some(version) = place_item(value, 1) else {
        return Ok(None);
    };
    Ok(Some((key, version)))
}

// The client and its last mutation id that an item of the second list is.
#[tactic(auto, unfolding(crate::specs::ViewReading::pair_in))]
fn pair_of_value(alloc: Global, value: &Value<'_>) -> Result<Option<(Id, Num)>, Memory>
    ensures { IfOk result (λ o. o ≡ pair_in (value_data value.now)) }
{
    let Some(client) = text_item(alloc, value, 0)? else {
        return Ok(None);
    };
    let Some(last) = num_item(value, 1) else {
        return Ok(None);
    };
    Ok(Some((client, last)))
}

// What each item is, where each is a key and a version.
fn seen_of_values(alloc: Global, values: &[Value<'_>]) -> Result<Option<Vec<(Key, u32)>>, Memory>
    ensures { IfOk result (λ o. option_map (λ v. v.items) o ≡ each_item seen_in (items_data values.now)) }
{
    let mut rows = Vec::new(alloc);
    for value in values {
        match seen_of_value(alloc, value)? {
            Some(row) => rows.push(row)?,
            None => return Ok(None),
        }
    }
    Ok(Some(rows))
}

// What each item is, where each is a client and its last mutation id.
fn pairs_of_values(alloc: Global, values: &[Value<'_>]) -> Result<Option<Vec<(Id, Num)>>, Memory>
    ensures { IfOk result (λ o. option_map (λ v. v.items) o ≡ each_item pair_in (items_data values.now)) }
{
    let mut clients = Vec::new(alloc);
    for value in values {
        match pair_of_value(alloc, value)? {
            Some(client) => clients.push(client)?,
            None => return Ok(None),
        }
    }
    Ok(Some(clients))
}

// The items of the array at a position.
fn array_item<'v, 't>(value: &'v Value<'t>, position: usize) -> Option<&'v [Value<'t>]>
    ensures { option_map (λ s. items_data s.now) result ≡ option_and_then as_array (at position (value_data value.now)) }
{
    items(item(value, position)?)
}

fn rows_of_value(alloc: Global, value: &Value<'_>) -> Result<Option<Vec<(Key, u32)>>, Memory>
    ensures { IfOk result (λ o. option_map (λ v. v.items) o ≡ each_of seen_in 0 (value_data value.now)) }
{
    match array_item(value, 0) {
        Some(values) => seen_of_values(alloc, values),
        None => Ok(None),
    }
}

fn clients_of_value(alloc: Global, value: &Value<'_>) -> Result<Option<Vec<(Id, Num)>>, Memory>
    ensures { IfOk result (λ o. option_map (λ v. v.items) o ≡ each_of pair_in 1 (value_data value.now)) }
{
    match array_item(value, 1) {
        Some(values) => pairs_of_values(alloc, values),
        None => Ok(None),
    }
}

// Whether each key is below the next.
fn are_seen(rows: &[(Key, u32)]) -> bool
    ensures { result ≡ is_in_order seen_key rows.now }
{
    for i in 1..rows.len() {
        match rows[i - 1].0.compare(&rows[i].0) {
            Ordering::Less => {}
            Ordering::Equal => return false,
            Ordering::Greater => return false,
        }
    }
    true
}

// Whether each client is below the next.
fn are_clients(clients: &[(Id, Num)]) -> bool
    ensures { result ≡ is_in_order client_of_pair clients.now }
{
    for i in 1..clients.len() {
        match clients[i - 1].0.cmp(&clients[i].0) {
            Ordering::Less => {}
            Ordering::Equal => return false,
            Ordering::Greater => return false,
        }
    }
    true
}

// The record of two lists, where they are in order.
fn record_of_lists(
    rows: Vec<(Key, u32)>,
    clients: Vec<(Id, Num)>,
) -> Result<Option<ViewRecord>, Memory>
    ensures { IfOk result (λ o. o ≡ viewed rows.items clients.items) }
{
    if !are_seen(&rows) || !are_clients(&clients) {
        return Ok(None);
    }
    let made = record_now(Sequence::from_vec(rows), Sequence::from_vec(clients))?;
    Ok(Some(made))
}

// The view record that a value is.
#[tactic(auto, unfolding(crate::specs::ViewReading::view_in))]
fn view_of_value(alloc: Global, value: &Value<'_>) -> Result<Option<ViewRecord>, Memory>
    ensures { IfOk result (λ o. o ≡ view_in (value_data value.now)) }
{
    let Some(rows) = rows_of_value(alloc, value)? else {
        return Ok(None);
    };
    let Some(clients) = clients_of_value(alloc, value)? else {
        return Ok(None);
    };
    record_of_lists(rows, clients)
}

fn view_of_body(
    alloc: Global,
    body: &[u8],
    scratch: &mut Scratch,
) -> Result<Option<ViewRecord>, Memory>
    ensures { IfOk result (λ o. o ≡ body_view body.now) }
{
    match read_json(alloc, body, scratch)? {
        Some(value) => view_of_value(alloc, &value),
        None => Ok(None),
    }
}

/// The kept view record whose cell this is, at the place of its look, from 1. Any other cell is `BadCell`.
///
/// Nothing in the program calls it, which compares the cells of a store with ones that it writes anew: it is for who reads a store beside it.
///
/// `scratch` is room to read in, which is kept from one text to the next.
pub fn view_of_cell(
    alloc: Global,
    cell: &Cell,
    scratch: &mut Scratch,
) -> Result<(u32, ViewRecord), CellFault>
    ensures reads { ReadsCell (λ v. view_cell v.0 v.1) ViewFits cell.now result }
    ensures place { IfOk result (λ v. 1 ≤ v.0) }
{
    let Some(place) = place_of_key(cell.key.as_slice()) else {
        return Err(damaged(alloc, cell));
    };
    let Some(view) = view_of_body(alloc, cell.body.as_slice(), scratch)? else {
        return Err(damaged(alloc, cell));
    };
    let again = cell_of_view(alloc, place, &view)?;
    if is_same(cell, &again) {
        Ok((place, view))
    } else {
        Err(damaged(alloc, cell))
    }
}
