// From a text to the value that it is.
ghost use Rattle.std.specs.Prelude.{◌≡◌, IfOk, option_map};
ghost use Rattle.json.specs.Value.{value_view, items_view, members_view};
ghost use Rattle.serde_json.specs.Read.{of_json, read};
ghost use Rattle.rv_json.specs.JsonTexts.{json_in};
ghost use Rattle.rv_json.specs.Documents.{tree_in, is_readable, are_readable, have_readable};
ghost use Rattle.rv_json.specs.ValueData.{value_data};

use crate::lookup::is_in_range;
use json::{Error, Reader, Scratch, Value};
use rv_base::Memory;
use std::alloc::Global;

// How deep arrays and objects may nest.
const MAX_DEPTH: usize = 127;

// The one tree of a text, where nothing follows it.
fn read_tree<'t>(alloc: Global, reader: &mut Reader<'t>) -> Result<Option<Value<'t>>, Memory>
    ensures { IfOk result (λ o. option_map (λ v. value_view v) o ≡ tree_in reader.old) }
{
    let tree = match Value::read(alloc, reader, MAX_DEPTH) {
        Ok(tree) => tree,
        Err(Error::OutOfMemory) => return Err(Memory),
        Err(_) => return Ok(None),
    };
    match reader.next() {
        None => Ok(Some(tree)),
        Some(_) => Ok(None),
    }
}

// Whether each number of a document is in range.
#[cycle(readable)]
#[tactic(auto, using(crate::proofs::Trees::view_null, crate::proofs::Trees::view_bool, crate::proofs::Trees::view_number, crate::proofs::Trees::view_string, crate::proofs::Trees::view_array, crate::proofs::Trees::view_object))]
fn is_readable(tree: &Value<'_>) -> bool
    ensures { result ≡ is_readable (value_view tree.now) }
{
    match tree {
        Value::Null => true,
        Value::Bool(_) => true,
        Value::Number(text) => is_in_range(text),
        Value::String(_) => true,
        Value::Array(items) => are_readable(items),
        Value::Object(members) => have_readable(members),
    }
}

// Whether each number of each item is.
#[cycle(readable)]
fn are_readable(items: &Vec<Value<'_>>) -> bool
    ensures { result ≡ are_readable (items_view items.now.items) }
{
    for item in items {
        if !is_readable(item) {
            return false;
        }
    }
    true
}

// Whether each number of each member is.
#[cycle(readable)]
fn have_readable(members: &Vec<(&str, Value<'_>)>) -> bool
    ensures { result ≡ have_readable (members_view members.now.items) }
{
    for (_name, value) in members {
        if !is_readable(value) {
            return false;
        }
    }
    true
}

// The tree, where each of its numbers is in range.
fn in_range(tree: Value<'_>) -> Option<Value<'_>>
    ensures { option_map (λ v. value_data v) result ≡ of_json (value_view tree.entry) }
{
    if is_readable(&tree) { Some(tree) } else { None }
}

fn read_text<'t>(
    alloc: Global,
    text: &'t str,
    scratch: &'t mut Scratch,
) -> Result<Option<Value<'t>>, Memory>
    ensures { IfOk result (λ o. option_map (λ v. value_data v) o ≡ read text.now) }
{
    let Ok(mut reader) = Reader::new(text, scratch) else {
        return Err(Memory);
    };
    match read_tree(alloc, &mut reader)? {
        Some(tree) => Ok(in_range(tree)),
        None => Ok(None),
    }
}

/// The JSON value of a text, where it is UTF-8, is JSON, nests at most 127 deep, and has no number that is too large for a
/// float. It borrows from the text, and from the scratch the texts that were written with escapes; the scratch, which
/// grows to the length of the longest text, is kept from one text to the next.
#[tactic(auto, using(crate::proofs::Texts::json_of_text, crate::proofs::Texts::json_of_none))]
pub fn read_json<'t>(
    alloc: Global,
    text: &'t [u8],
    scratch: &'t mut Scratch,
) -> Result<Option<Value<'t>>, Memory>
    ensures { IfOk result (λ o. option_map (λ v. value_data v) o ≡ json_in text.now) }
{
    match simdutf8::compat::from_utf8(text) {
        Ok(text) => read_text(alloc, text, scratch),
        Err(_) => Ok(None),
    }
}
