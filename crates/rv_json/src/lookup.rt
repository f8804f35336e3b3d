// Looking into a value, and what the texts of numbers are.
ghost use Rattle.std.specs.Prelude.{◌≡◌, ◌==◌, ◌||◌, IfOk, is_some, option_map, option_and_then, slice_index, true, false};
ghost use Rattle.std.specs.Float.{binary64, float_is_finite};
ghost use Rattle.fast_float.specs.Text.{minus, nearest};
ghost use Rattle.json.specs.Value.{members_view};
ghost use Rattle.serde_json.specs.Data.{no_members};
ghost use Rattle.serde_json.specs.Find.{as_array, as_bool, as_null, as_number, as_object, as_str, as_u64, at, get};
ghost use Rattle.serde_json.specs.Read.{number_of};
ghost use Rattle.rv_json.specs.Numbers.{fits_below, fits_whole};
ghost use Rattle.rv_json.specs.Documents.{members_of};
ghost use Rattle.rv_json.specs.ValueData.{value_data, items_data, members_data};

use fast_float::Numeral;
use json::Value;
use rv_base::Memory;
use std::alloc::Global;
use std::collections::BTreeMap;

/// The values of an object's members by their names, in the order of the names' bytes.
pub type Members<'v, 't> = BTreeMap<&'t str, &'v Value<'t>>;

// Whether it is written with a sign.
fn is_signed(text: &str) -> bool
    ensures { result ≡ (slice_index text.now 0 == minus) }
{
    text.as_bytes().first() == Some(&b'-')
}

// The whole number that a number's text writes, where it fits 64 bits: without a point and an exponent, and not below 0.
#[tactic(auto, using(crate::specs::NumberLaws::signed_is_not_whole, crate::specs::NumberLaws::unsigned_is_whole, crate::specs::NumberLaws::some_iff, crate::specs::NumberLaws::whole_iff))]
fn whole_number(text: &str) -> Option<u64>
    ensures { result ≡ option_and_then as_u64 (number_of text.now) }
{
    if is_signed(text) {
        None
    } else {
        Numeral::scan(text.as_bytes()).to_u64()
    }
}

// Whether a number without a sign has a value: it is whole and fits 64 bits, or its float is finite.
fn is_unsigned_in_range(numeral: &Numeral<'_>) -> bool
    ensures { result ≡ (fits_whole numeral.now || float_is_finite (nearest binary64 false numeral.now)) }
{
    numeral.to_u64().is_some() || numeral.to_float::<f64>(false).is_finite()
}

// Whether the digits are those of a whole number below 0 that fits 64 bits.
fn is_below(numeral: &Numeral<'_>) -> bool
    ensures { result ≡ fits_below numeral.now }
{
    match numeral.to_u64() {
        Some(digits) => 0 < digits && digits <= 1 << 63,
        None => false,
    }
}

// Whether a number with a sign has a value, by what stands behind the sign.
fn is_signed_in_range(numeral: &Numeral<'_>) -> bool
    ensures { result ≡ (fits_below numeral.now || float_is_finite (nearest binary64 true numeral.now)) }
{
    is_below(numeral) || numeral.to_float::<f64>(true).is_finite()
}

/// Whether a number's text has a value: it is whole and fits 64 bits, or its float is finite.
#[tactic(auto, using(crate::specs::NumberLaws::unsigned_in_range, crate::specs::NumberLaws::signed_in_range))]
pub(crate) fn is_in_range(text: &str) -> bool
    ensures { result ≡ is_some (number_of text.now) }
{
    let bytes = text.as_bytes();
    if is_signed(text) {
        is_signed_in_range(&Numeral::scan(&bytes[1..]))
    } else {
        is_unsigned_in_range(&Numeral::scan(bytes))
    }
}

/// The text that a value is.
pub fn text<'t>(value: &Value<'t>) -> Option<&'t str>
    ensures { option_map (λ s. s.now) result ≡ as_str (value_data value.now) }
{
    value.as_str()
}

/// Whether a value is true or false, where it is one of them.
pub fn flag(value: &Value<'_>) -> Option<bool>
    ensures { result ≡ as_bool (value_data value.now) }
{
    value.as_bool()
}

/// The whole number that a value is, where it is one from 0 that fits 64 bits.
pub fn whole(value: &Value<'_>) -> Option<u64>
    ensures { result ≡ option_and_then as_u64 (as_number (value_data value.now)) }
{
    whole_number(value.as_number()?)
}

/// Whether a value is null.
pub fn is_null(value: &Value<'_>) -> bool
    ensures { result ≡ is_some (as_null (value_data value.now)) }
{
    value.is_null()
}

/// Whether a value is an object.
pub fn is_object(value: &Value<'_>) -> bool
    ensures { result ≡ is_some (as_object (value_data value.now)) }
{
    match value {
        Value::Object(_) => true,
        _ => false,
    }
}

/// The value at a position of an array, from 0.
pub fn item<'v, 't>(value: &'v Value<'t>, position: usize) -> Option<&'v Value<'t>>
    ensures { option_map (λ v. value_data v.now) result ≡ at position (value_data value.now) }
{
    value.at(position)
}

/// The value of the last member of that name of an object.
pub fn member<'v, 't>(value: &'v Value<'t>, name: &str) -> Option<&'v Value<'t>>
    ensures { option_map (λ v. value_data v.now) result ≡ get name.now (value_data value.now) }
{
    value.get(name)
}

/// The items of an array.
pub fn items<'v, 't>(value: &'v Value<'t>) -> Option<&'v [Value<'t>]>
    ensures { option_map (λ s. items_data s.now) result ≡ as_array (value_data value.now) }
{
    match value {
        Value::Array(items) => Some(items.as_slice()),
        _ => None,
    }
}

// The last member of each name.
fn last_of_each<'v, 't>(
    alloc: Global,
    found: &'v Vec<(&'t str, Value<'t>)>,
) -> Result<Members<'v, 't>, Memory>
    ensures { IfOk result (λ m. members_data m.entries ≡ members_of (members_view found.now.items) no_members) }
{
    let mut members = BTreeMap::new(alloc);
    for (name, value) in found {
        drop(members.insert(*name, value)?);
    }
    Ok(members)
}

/// The members of an object: of those with one name the last.
pub fn members<'v, 't>(
    alloc: Global,
    value: &'v Value<'t>,
) -> Result<Option<Members<'v, 't>>, Memory>
    ensures { IfOk result (λ o. option_map (λ m. members_data m.entries) o ≡ as_object (value_data value.now)) }
{
    match value {
        Value::Object(found) => Ok(Some(last_of_each(alloc, found)?)),
        _ => Ok(None),
    }
}
