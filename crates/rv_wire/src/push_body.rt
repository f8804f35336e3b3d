ghost use Rattle.std.specs.Prelude.{◌≡◌, IfOk, codes, unwrap_or, map};
ghost use Rattle.serde_json.specs.Data.{null};
ghost use Rattle.serde_json.specs.Find.{get};
ghost use Rattle.rv_json.specs.ValueData.{value_data};
ghost use Rattle.rv_base.specs.Chains.{each};
ghost use Rattle.rv_wire.specs.Bodies.{GivesBody, GivesAll, is_schema_served, mutation_in, mutations_in, push_in, push_body};
ghost use Rattle.rv_wire.specs.Calls.{call_in};

use crate::body::{
    SchemaVersions, array_member, group_of_value, num_member, string_member, text_member,
};
use crate::calls::read_call;
use crate::fault::{FieldName, VersionKind, WireFault};
use crate::push::Push;
use json::{Scratch, Value};
use rv_base::{Memory, Sequence};
use rv_json::{is_object, member, read_json};
use rv_rows::Call;
use rv_turns::Mutation;
use std::alloc::Global;

// The call of a mutation, whose arguments are null where they are absent.
#[tactic(auto, using(rv_json::proofs::Trees::view_null))]
fn call_of_mutation(alloc: Global, name: &str, value: &Value<'_>) -> Result<Call, Memory>
    ensures { IfOk result (λ call. call ≡ call_in name.now (unwrap_or (get (codes "args") (value_data value.now)) null)) }
{
    match member(value, "args") {
        Some(args) => read_call(alloc, name, args),
        None => read_call(alloc, name, &Value::Null),
    }
}

#[tactic(auto, unfolding(crate::specs::Bodies::mutation_in))]
fn mutation_of(alloc: Global, value: &Value<'_>) -> Result<Mutation, WireFault>
    ensures { GivesBody result (mutation_in (value_data value.now)) }
{
    if !is_object(value) {
        return Err(WireFault::Field(FieldName::Mutations));
    }
    let client = text_member(alloc, value, "clientID")?.ok_or(WireFault::Field(
        FieldName::ClientId,
    ))?;
    let id = num_member(value, "id").ok_or(WireFault::Field(FieldName::Id))?;
    let name = string_member(value, "name").ok_or(WireFault::Field(FieldName::Name))?;
    let call = call_of_mutation(alloc, name, value)?;
    Ok(Mutation { client, id, call })
}

fn mutations_of(alloc: Global, values: &[Value<'_>]) -> Result<Vec<Mutation>, WireFault>
    ensures { GivesAll (λ v. v.items) result (each mutation_in (map value_data values.now)) }
{
    let mut mutations = Vec::new(alloc);
    for value in values {
        let mutation = match mutation_of(alloc, value) {
            Ok(mutation) => mutation,
            Err(fault) => return Err(fault),
        };
        match mutations.push(mutation) {
            Ok(()) => {}
            Err(_) => return Err(WireFault::Memory),
        }
    }
    Ok(mutations)
}

#[tactic(auto, using(crate::proofs::Each::datas_values), unfolding(crate::specs::Bodies::mutations_in))]
fn mutations_of_body(alloc: Global, value: &Value<'_>) -> Result<Vec<Mutation>, WireFault>
    ensures { GivesAll (λ v. v.items) result (mutations_in (value_data value.now)) }
{
    let values = array_member(value, "mutations").ok_or(WireFault::Field(FieldName::Mutations))?;
    mutations_of(alloc, values)
}

/// The push that a value is, or the first thing that is wrong with it, in this order: no JSON object; `pushVersion` no
/// `Num`, then not 1; `schemaVersion` no text, then not served; `profileID` no text; `clientGroupID` no `Id`;
/// `mutations` no array; then of each mutation in turn: no object, `clientID` no `Id`, `id` no `Num`, `name` no text.
/// Other members are ignored, and arguments that are absent are null.
#[tactic(auto, unfolding(crate::specs::Bodies::push_in))]
pub fn push_of_value<S: SchemaVersions>(
    alloc: Global,
    value: &Value<'_>,
    schemas: &S,
) -> Result<Push, WireFault>
    ensures { GivesBody result (push_in (S.serves schemas.now) (value_data value.now)) }
{
    let kind = VersionKind::Push;
    let group = group_of_value(alloc, value, kind, FieldName::PushVersion, schemas)?;
    let mutations = mutations_of_body(alloc, value)?;
    Ok(Push {
        group,
        mutations: Sequence::from_vec(mutations),
    })
}

/// The push that a body's bytes are. Bytes that are not UTF-8, are no JSON or nest deeper than 127 are `NotJson`.
///
/// `scratch` is room to read in, which is kept from one text to the next.
pub fn read_push<S: SchemaVersions>(
    alloc: Global,
    body: &[u8],
    schemas: &S,
    scratch: &mut Scratch,
) -> Result<Push, WireFault>
    ensures { GivesBody result (push_body (S.serves schemas.now) body.now) }
{
    let value = read_json(alloc, body, scratch)?.ok_or(WireFault::NotJson)?;
    push_of_value(alloc, &value, schemas)
}
