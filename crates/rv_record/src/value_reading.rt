// The items of a JSON array, and the text of a key.
ghost use Rattle.std.specs.Prelude.{◌≡◌, IfOk, option_map};
ghost use Rattle.rv_json.specs.ValueData.{value_data};
ghost use Rattle.rv_rows.specs.Members.{within};
ghost use Rattle.rv_record.specs.ValueReading.{utf8_text_in, string_item, text_item, num_item, place_in, place_item, flag_item, role_item};

use json::Value;
use rv_base::{Bounded, Memory, Num};
use rv_json::{flag, item, text, whole};
use rv_rows::{Role, num_of_value, role_of_value, text_of_value, text_within};
use std::alloc::Global;

// The text that the bytes are, where they are UTF-8 and it is within the bounds.
#[tactic(auto, using(crate::specs::ReadTextLaws::text_some, crate::specs::ReadTextLaws::text_none))]
pub(crate) fn text_of_bytes<const MIN: usize, const MAX: usize>(
    alloc: Global,
    bytes: &[u8],
) -> Result<Option<Bounded<MIN, MAX>>, Memory>
    ensures { IfOk result (λ o. o ≡ utf8_text_in MIN MAX bytes.now) }
{
    match str::from_utf8(bytes) {
        Ok(text) => text_within(alloc, text),
        Err(_) => Ok(None),
    }
}

// The text at a position of an array, from 0, of any length, where it is there.
pub(crate) fn string_item<'t>(value: &Value<'t>, position: usize) -> Option<&'t str>
    ensures { option_map (λ s. s.now) result ≡ string_item position (value_data value.now) }
{
    text(item(value, position)?)
}

// The text at a position of an array, from 0, where it is there and within the bounds.
pub(crate) fn text_item<const MIN: usize, const MAX: usize>(
    alloc: Global,
    value: &Value<'_>,
    position: usize,
) -> Result<Option<Bounded<MIN, MAX>>, Memory>
    ensures { IfOk result (λ o. o ≡ text_item MIN MAX position (value_data value.now)) }
{
    match item(value, position) {
        None => Ok(None),
        Some(found) => text_of_value(alloc, found),
    }
}

// The same, which shares what a known text has where both have the same bytes.
pub(crate) fn text_item_like<const MIN: usize, const MAX: usize>(
    alloc: Global,
    value: &Value<'_>,
    position: usize,
    known: Option<&Bounded<MIN, MAX>>,
) -> Result<Option<Bounded<MIN, MAX>>, Memory>
    ensures { IfOk result (λ o. o ≡ text_item MIN MAX position (value_data value.now)) }
{
    let Some(found) = string_item(value, position) else {
        return Ok(None);
    };
    text_like(alloc, found, known)
}

// The text, where it is within the bounds; it shares what a known one has where both have the same bytes.
fn text_like<const MIN: usize, const MAX: usize>(
    alloc: Global,
    text: &str,
    known: Option<&Bounded<MIN, MAX>>,
) -> Result<Option<Bounded<MIN, MAX>>, Memory>
    ensures { IfOk result (λ o. o ≡ within MIN MAX text.now) }
{
    match known {
        Some(known) => {
            known.fits();
            if known.as_str() == text {
                Ok(Some(known.copy(alloc)?))
            } else {
                text_within(alloc, text)
            }
        }
        None => text_within(alloc, text),
    }
}

// The number at a position of an array, from 0, where it is there and is a `Num`.
pub(crate) fn num_item(value: &Value<'_>, position: usize) -> Option<Num>
    ensures { result ≡ num_item position (value_data value.now) }
{
    num_of_value(item(value, position)?)
}

// The place or version that a value is, where it is a whole number up to 2^32 - 1.
pub(crate) fn place_of_value(value: &Value<'_>) -> Option<u32>
    ensures { result ≡ place_in (value_data value.now) }
{
    let number = whole(value)?;
    u32::try_from(number).ok()
}

// The place or version at a position of an array, from 0, where it is there and is one.
pub(crate) fn place_item(value: &Value<'_>, position: usize) -> Option<u32>
    ensures { result ≡ place_item position (value_data value.now) }
{
    place_of_value(item(value, position)?)
}

// The flag at a position of an array, from 0, where it is there.
pub(crate) fn flag_item(value: &Value<'_>, position: usize) -> Option<bool>
    ensures { result ≡ flag_item position (value_data value.now) }
{
    flag(item(value, position)?)
}

// The role at a position of an array, from 0, where the text of one is there.
pub(crate) fn role_item(value: &Value<'_>, position: usize) -> Option<Role>
    ensures { result ≡ role_item position (value_data value.now) }
{
    role_of_value(item(value, position)?)
}
