// The members of bodies, which schema versions are served, and what pushes and pulls begin with.
ghost use Rattle.std.specs.Prelude.{◌≡◌, ℕ, List, Bool, IfOk, option_map};
ghost use Rattle.rv_json.specs.ValueData.{value_data, items_data};
ghost use Rattle.rv_wire.specs.Bodies.{GivesBody, group_in, is_schema_served};
ghost use Rattle.rv_wire.specs.Members.{text_member, string_member, bool_member, num_member, role_member, array_member};

use crate::fault::{FieldName, VersionKind, WireFault};
use json::Value;
use rv_base::{Bounded, Id, Memory, Num, Schemas};
use rv_json::{flag, is_object, items, member, text};
use rv_rows::{Role, num_of_value, role_of_value, text_of_value};
use std::alloc::Global;

// The text of a member, where it is there and within the bounds.
pub(crate) fn text_member<const MIN: usize, const MAX: usize>(
    alloc: Global,
    value: &Value<'_>,
    name: &str,
) -> Result<Option<Bounded<MIN, MAX>>, Memory>
    ensures { IfOk result (λ o. o ≡ text_member MIN MAX name.now (value_data value.now)) }
{
    match member(value, name) {
        None => Ok(None),
        Some(found) => text_of_value(alloc, found),
    }
}

// The text of a member, of any length.
pub(crate) fn string_member<'t>(value: &Value<'t>, name: &str) -> Option<&'t str>
    ensures { option_map (λ s. s.now) result ≡ string_member name.now (value_data value.now) }
{
    text(member(value, name)?)
}

// The member that is true or false.
pub(crate) fn bool_member(value: &Value<'_>, name: &str) -> Option<bool>
    ensures { result ≡ bool_member name.now (value_data value.now) }
{
    flag(member(value, name)?)
}

// The number of a member, where it is there and is a `Num`.
pub(crate) fn num_member(value: &Value<'_>, name: &str) -> Option<Num>
    ensures { result ≡ num_member name.now (value_data value.now) }
{
    num_of_value(member(value, name)?)
}

// The role whose text a member is.
pub(crate) fn role_member(value: &Value<'_>, name: &str) -> Option<Role>
    ensures { result ≡ role_member name.now (value_data value.now) }
{
    role_of_value(member(value, name)?)
}

// The items of a member that is an array.
pub(crate) fn array_member<'v, 't>(value: &'v Value<'t>, name: &str) -> Option<&'v [Value<'t>]>
    ensures { option_map (λ s. items_data s.now) result ≡ array_member name.now (value_data value.now) }
{
    items(member(value, name)?)
}

/// What says which schema versions of the application are served.
pub trait SchemaVersions {
    /// Whether a version is served.
    ghost serves: { Self → List ℕ → Bool };

    /// Whether this version is served. Takes no memory.
    fn is_served(&self, schema: &str) -> bool
        ensures { result ≡ serves self.now schema.now };
}

impl SchemaVersions for Schemas {
    ghost serves = { is_schema_served };

    fn is_served(&self, schema: &str) -> bool {
        self.as_slice()
            .iter()
            .any(|served| served.as_str() == schema)
    }
}

// The client group of a body of this kind, whose version stands at this member.
#[tactic(auto, unfolding(crate::specs::Bodies::group_in))]
pub(crate) fn group_of_value<S: SchemaVersions>(
    alloc: Global,
    value: &Value<'_>,
    kind: VersionKind,
    version: FieldName,
    schemas: &S,
) -> Result<Id, WireFault>
    ensures { GivesBody result (group_in kind version (S.serves schemas.now) (value_data value.now)) }
{
    if !is_object(value) {
        return Err(WireFault::NotJson);
    }
    let number = num_member(value, version.name()).ok_or(WireFault::Field(version))?;
    if number.get() != 1 {
        return Err(WireFault::Version(kind));
    }
    let schema = string_member(value, "schemaVersion").ok_or(WireFault::Field(
        FieldName::SchemaVersion,
    ))?;
    if !schemas.is_served(schema) {
        return Err(WireFault::Version(VersionKind::Schema));
    }
    let _profile = string_member(value, "profileID").ok_or(WireFault::Field(FieldName::ProfileId))?;
    text_member(alloc, value, "clientGroupID")?.ok_or(WireFault::Field(FieldName::ClientGroupId))
}
