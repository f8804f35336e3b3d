// From the bytes of a line to what it is.
ghost use Rattle.std.specs.Prelude.{◌≡◌, IfOk, OnOk, option_map};
ghost use Rattle.serde_json.specs.Find.{as_str};
ghost use Rattle.rv_json.specs.ValueData.{value_data, items_data, members_data};
ghost use Rattle.rv_following.specs.FollowLines.{cell_asked, cell_in_items, cell_of, follow_line_of, members_say, one_says, page_asked, pull_asked, shelf_in};
ghost use Rattle.rv_following.specs.FollowReads.{AreFollowLines};

use crate::follow_line::FollowLine;
use json::{Scratch, Value};
use rv_answering::{FeedSchemas, one_member, two_members};
use rv_base::{Bytes, Memory};
use rv_json::{Members, flag, items, members, read_json, text, whole};
use rv_keeper::Cell;
use rv_rows::text_of_value;
use rv_wire::pull_of_value;
use std::alloc::Global;

// The shelf that a value is, from 0 to 255.
fn shelf_of(value: &Value<'_>) -> Option<u8>
    ensures { result ≡ shelf_in (value_data value.now) }
{
    let number = whole(value)?;
    u8::try_from(number).ok()
}

// The bytes of a text.
fn bytes_of(alloc: Global, text: &str) -> Result<Bytes, Memory>
    ensures { IfOk result (λ bytes. bytes ≡ text.now) }
{
    Ok(Bytes::from_vec(Vec::from_slice(alloc, text.as_bytes())?))
}

// The cell of a shelf, a key and a body, where they are of the form.
fn cell_of_values(
    alloc: Global,
    shelf: &Value<'_>,
    key: &Value<'_>,
    body: &Value<'_>,
) -> Result<Option<Cell>, Memory>
    ensures { IfOk result (λ o. o ≡ cell_of (shelf_in (value_data shelf.now)) (as_str (value_data key.now)) (as_str (value_data body.now))) }
{
    let Some(shelf) = shelf_of(shelf) else {
        return Ok(None);
    };
    let Some(key) = text(key) else {
        return Ok(None);
    };
    let Some(body) = text(body) else {
        return Ok(None);
    };
    Ok(Some(Cell {
        shelf,
        key: bytes_of(alloc, key)?,
        body: bytes_of(alloc, body)?,
    }))
}

// The cell that an array's items are.
fn cell_of_items(alloc: Global, items: &[Value<'_>]) -> Result<Option<Cell>, Memory>
    ensures { IfOk result (λ o. o ≡ cell_in_items (items_data items.now)) }
{
    if items.len() != 3 {
        return Ok(None);
    }
    cell_of_values(alloc, &items[0], &items[1], &items[2])
}

// The cell that a value is.
fn cell_asked(alloc: Global, value: &Value<'_>) -> Result<Option<FollowLine>, Memory>
    ensures { IfOk result (λ read. read ≡ cell_asked (value_data value.now)) }
{
    match items(value) {
        Some(items) => Ok(cell_of_items(alloc, items)?.map(FollowLine::Cell)),
        None => Ok(None),
    }
}

// That a page is whole, where the value says so.
fn page_asked(value: &Value<'_>) -> Option<FollowLine>
    ensures { result ≡ page_asked (value_data value.now) }
{
    if flag(value)? {
        Some(FollowLine::Page)
    } else {
        None
    }
}

// What the one member of an object says.
fn one_says(alloc: Global, name: &str, value: &Value<'_>) -> Result<Option<FollowLine>, Memory>
    ensures { IfOk result (λ read. read ≡ one_says name.now (value_data value.now)) }
{
    match name {
        "cell" => cell_asked(alloc, value),
        "page" => Ok(page_asked(value)),
        _ => Ok(None),
    }
}

// A pull, where these are the members of one up to its body.
fn pull_asked(
    alloc: Global,
    name: &str,
    body: &Value<'_>,
    second: &str,
    user: &Value<'_>,
) -> Result<Option<FollowLine>, Memory>
    ensures { IfOk result (λ read. AreFollowLines (pull_asked name.now (value_data body.now) second.now (value_data user.now)) read) }
{
    if name != "pull" || second != "user" {
        return Ok(None);
    }
    match text_of_value(alloc, user)? {
        Some(user) => Ok(Some(FollowLine::Pull {
            user,
            pull: pull_of_value(alloc, body, &FeedSchemas),
        })),
        None => Ok(None),
    }
}

// What an object's members say.
fn members_say(alloc: Global, members: &Members<'_, '_>) -> Result<Option<FollowLine>, Memory>
    ensures { IfOk result (λ read. AreFollowLines (members_say (members_data members.now.entries)) read) }
{
    if let Some((name, value)) = one_member(members) {
        return one_says(alloc, name, value);
    }
    match two_members(members) {
        Some((name, body, second, user)) => pull_asked(alloc, name, body, second, user),
        None => Ok(None),
    }
}

/// What a line is, where it is of the form up to the body of its pull.
///
/// Memory that is refused in reading the line's JSON, a cell or a user is the error; memory that is refused in reading the body of a pull
/// from its JSON value is [`WireFault::Memory`](rv_wire::WireFault::Memory), which is answered like other faults.
///
/// `scratch` is room to read in, which is kept from one text to the next.
pub fn follow_line_of(
    alloc: Global,
    line: &[u8],
    scratch: &mut Scratch,
) -> Result<Option<FollowLine>, Memory>
    ensures { IfOk result (λ read. AreFollowLines (follow_line_of line.now) read) }
{
    let Some(value) = read_json(alloc, line, scratch)? else {
        return Ok(None);
    };
    match members(alloc, &value)? {
        Some(members) => members_say(alloc, &members),
        None => Ok(None),
    }
}
