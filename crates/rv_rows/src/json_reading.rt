// What values and the members of objects are read as.
ghost use Rattle.std.specs.Prelude.{◌≡◌, IfOk, IfSome, IfNone, Some, None, option_map};
ghost use Rattle.rv_json.specs.ValueData.{value_data, items_data, members_data};
ghost use Rattle.rv_rows.specs.Members.{named, within, text_in, num_in, ids_in, lists_in, each_item, role_in, role_or_edit};

use crate::lists::Lists;
use crate::role::Role;
use crate::sequences::Ids;
use json::Value;
use rv_base::{Bounded, Memory, Num, Sequence, TextRefusal};
use rv_json::{items, text, whole};
use std::alloc::Global;
use std::collections::btree_map::Iter;

/// The value of the next member, where that member has this name.
pub(crate) fn next_named<'m, 'v, 't>(
    left: &mut Iter<'m, &'t str, &'v Value<'t>>,
    name: &str,
) -> Option<&'v Value<'t>>
    ensures found { IfSome result (λ v. named name.now (members_data left.old) ≡ Some (value_data v.now, members_data left.new)) }
    ensures none { IfNone result (named name.now (members_data left.old) ≡ None) }
{
    let (key, value) = left.next()?;
    if *key == name { Some(*value) } else { None }
}

/// The text, where it is at least `MIN` and at most `MAX` bytes long.
pub fn text_within<const MIN: usize, const MAX: usize>(
    alloc: Global,
    text: &str,
) -> Result<Option<Bounded<MIN, MAX>>, Memory>
    ensures { IfOk result (λ o. o ≡ within MIN MAX text.now) }
{
    match Bounded::new(alloc, text) {
        Ok(text) => Ok(Some(text)),
        Err(TextRefusal::Memory) => Err(Memory),
        Err(_) => Ok(None),
    }
}

/// The text that a value is, where it is one within the bounds.
pub fn text_of_value<const MIN: usize, const MAX: usize>(
    alloc: Global,
    value: &Value<'_>,
) -> Result<Option<Bounded<MIN, MAX>>, Memory>
    ensures { IfOk result (λ o. o ≡ text_in MIN MAX (value_data value.now)) }
{
    match text(value) {
        None => Ok(None),
        Some(text) => text_within(alloc, text),
    }
}

// What each value is, where each is an id.
fn ids_of_values(alloc: Global, values: &[Value<'_>]) -> Result<Option<Ids>, Memory>
    ensures { IfOk result (λ o. o ≡ each_item (text_in 1 128) (items_data values.now)) }
{
    let mut ids = Sequence::new(alloc);
    for value in values {
        match text_of_value(alloc, value)? {
            Some(id) => ids.push(id)?,
            None => return Ok(None),
        }
    }
    Ok(Some(ids))
}

/// The ids that a value is, where it is an array of ids.
pub fn ids_of_value(alloc: Global, value: &Value<'_>) -> Result<Option<Ids>, Memory>
    ensures { IfOk result (λ o. o ≡ ids_in (value_data value.now)) }
{
    match items(value) {
        Some(values) => ids_of_values(alloc, values),
        None => Ok(None),
    }
}

/// The lists of an extent that a value is, where it is an array of at most 64 ids, each below the next.
pub fn lists_of_value(alloc: Global, value: &Value<'_>) -> Result<Option<Lists>, Memory>
    ensures { IfOk result (λ o. o ≡ lists_in (value_data value.now)) }
{
    match ids_of_value(alloc, value)? {
        Some(ids) => Ok(Lists::exact(ids)),
        None => Ok(None),
    }
}

/// The number that a value is, where it is a `Num`.
pub fn num_of_value(value: &Value<'_>) -> Option<Num>
    ensures { result ≡ num_in (value_data value.now) }
{
    let number = whole(value)?;
    Num::new(number).ok()
}

/// The role whose text a value is.
pub fn role_of_value(value: &Value<'_>) -> Option<Role>
    ensures { result ≡ role_in (value_data value.now) }
{
    Role::named(text(value)?)
}

/// The role of a new share, by the value that tells it: where no value stands there it is to edit, and a value that is no
/// role's text, null included, tells none.
pub fn role_or_edit(value: Option<&Value<'_>>) -> Option<Role>
    ensures { result ≡ role_or_edit (option_map (λ v. value_data v.now) value.entry) }
{
    match value {
        None => Some(Role::Edit),
        Some(value) => role_of_value(value),
    }
}
