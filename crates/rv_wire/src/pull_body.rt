ghost use Rattle.std.specs.Prelude.{◌≡◌, IfOk, codes};
ghost use Rattle.rv_json.specs.ValueData.{value_data};
ghost use Rattle.rv_wire.specs.Bodies.{GivesBody, is_schema_served, named_cookie, cookie_at, cookie_in, pull_in, pull_body};
ghost use Rattle.rv_wire.specs.Members.{text_member, num_member};

use crate::body::{SchemaVersions, group_of_value, num_member, text_member};
use crate::fault::{FieldName, VersionKind, WireFault};
use json::{Scratch, Value};
use rv_base::Memory;
use rv_json::{is_null, is_object, member, read_json};
use rv_rows::num_of_value;
use rv_turns::PullRequest;
use rv_views::Cookie;
use std::alloc::Global;

fn named_cookie(alloc: Global, value: &Value<'_>) -> Result<Option<Cookie>, Memory>
    ensures { IfOk result (λ o. o ≡ named_cookie (text_member 0 16384 (codes "cvrID") (value_data value.now)) (num_member (codes "order") (value_data value.now))) }
{
    let Some(place_text) = text_member(alloc, value, "cvrID")? else {
        return Ok(None);
    };
    match num_member(value, "order") {
        Some(order) => Ok(Some(Cookie::Named { place_text, order })),
        None => Ok(None),
    }
}

fn cookie_at(alloc: Global, value: &Value<'_>) -> Result<Option<Cookie>, Memory>
    ensures { IfOk result (λ o. o ≡ cookie_at (value_data value.now)) }
{
    if is_null(value) {
        return Ok(Some(Cookie::Null));
    }
    if is_object(value) {
        return named_cookie(alloc, value);
    }
    Ok(num_of_value(value).map(Cookie::Bare))
}

fn cookie_of(alloc: Global, value: &Value<'_>) -> Result<Cookie, WireFault>
    ensures { GivesBody result (cookie_in (value_data value.now)) }
{
    let Some(cookie) = member(value, "cookie") else {
        return Ok(Cookie::Null);
    };
    cookie_at(alloc, cookie)?.ok_or(WireFault::Field(FieldName::Cookie))
}

/// The pull that a value is, or the first thing that is wrong with it, in this order: no JSON object; `pullVersion` no
/// `Num`, then not 1; `schemaVersion` no text, then not served; `profileID` no text; `clientGroupID` no `Id`; and last
/// `cookie`, which is absent, null, a `Num`, or an object with a `Text` at `cvrID` and a `Num` at `order`. Other members
/// are ignored.
#[tactic(auto, unfolding(crate::specs::Bodies::pull_in))]
pub fn pull_of_value<S: SchemaVersions>(
    alloc: Global,
    value: &Value<'_>,
    schemas: &S,
) -> Result<PullRequest, WireFault>
    ensures { GivesBody result (pull_in (S.serves schemas.now) (value_data value.now)) }
{
    let kind = VersionKind::Pull;
    let group = group_of_value(alloc, value, kind, FieldName::PullVersion, schemas)?;
    let cookie = cookie_of(alloc, value)?;
    Ok(PullRequest { group, cookie })
}

/// The pull that a body's bytes are. Bytes that are not UTF-8, are no JSON or nest deeper than 127 are `NotJson`.
///
/// `scratch` is room to read in, which is kept from one text to the next.
pub fn read_pull<S: SchemaVersions>(
    alloc: Global,
    body: &[u8],
    schemas: &S,
    scratch: &mut Scratch,
) -> Result<PullRequest, WireFault>
    ensures { GivesBody result (pull_body (S.serves schemas.now) body.now) }
{
    let value = read_json(alloc, body, scratch)?.ok_or(WireFault::NotJson)?;
    pull_of_value(alloc, &value, schemas)
}
