// From the bytes of a line to what it asks.
ghost use Rattle.std.specs.Prelude.{◌≡◌, IfOk, option_map};
ghost use Rattle.rv_json.specs.ValueData.{value_data, members_data};
ghost use Rattle.rv_answering.specs.Requests.{verb_of, body_asks, one_member, two_members, retire_asked, stop_asked, close_asked, one_asks, body_asked, members_ask, line_of};
ghost use Rattle.rv_answering.specs.Reads.{IsReading, AreReadings, AreLines};

use crate::line::Line;
use crate::request::Request;
use json::{Scratch, Value};
use rv_base::{Memory, User};
use rv_json::{Members, flag, members, read_json};
use rv_rows::text_of_value;
use rv_wire::{SchemaVersions, WireFault, pull_of_value, push_of_value};
use std::alloc::Global;

/// What a line of the form asks: a request, or the first thing that is wrong with its body.
pub type Parsed = Result<Request, WireFault>;

/// The schema versions that a feed serves: the empty one, `1` and `2`.
#[derive(Clone, Copy, Debug)]
pub struct FeedSchemas;

impl SchemaVersions for FeedSchemas {
    ghost use Rattle.rv_answering.specs.Requests.{serves};

    ghost serves = { λ _. serves };

    fn is_served(&self, schema: &str) -> bool {
        schema.is_empty() || schema == "1" || schema == "2"
    }
}

// What the user of a line does.
#[derive(Clone, Copy, Debug, PartialEq, Eq)]
enum Verb {
    // A push.
    Push,
    // A pull.
    Pull,
}

fn verb_of(name: &str) -> Option<Verb>
    ensures { result ≡ verb_of name.now }
{
    match name {
        "push" => Some(Verb::Push),
        "pull" => Some(Verb::Pull),
        _ => None,
    }
}

// The request of a user's body.
fn body_asks(alloc: Global, verb: Verb, user: User, body: &Value<'_>) -> Parsed
    ensures { IsReading (body_asks verb user (value_data body.now)) result }
{
    match verb {
        Verb::Push => match push_of_value(alloc, body, &FeedSchemas) {
            Ok(push) => Ok(Request::Push { user, push }),
            Err(fault) => Err(fault),
        },
        Verb::Pull => match pull_of_value(alloc, body, &FeedSchemas) {
            Ok(pull) => Ok(Request::Pull { user, pull }),
            Err(fault) => Err(fault),
        },
    }
}

/// The names and values of an object's members, where it has two, in the order of the names. Takes no memory.
pub fn two_members<'v, 't>(
    members: &Members<'v, 't>,
) -> Option<(&'t str, &'v Value<'t>, &'t str, &'v Value<'t>)>
    ensures { option_map (λ t. ((t.0.now, value_data t.1.now), (t.2.now, value_data t.3.now))) result ≡ two_members (members_data members.now.entries) }
{
    let mut left = members.iter();
    let (first, first_value) = left.next()?;
    let (second, second_value) = left.next()?;
    if left.next().is_some() {
        return None;
    }
    Some((*first, *first_value, *second, *second_value))
}

// A push or a pull, where the members are those of one up to its body.
#[tactic(auto, unfolding(crate::specs::Requests::body_asked))]
fn body_asked(alloc: Global, members: &Members<'_, '_>) -> Result<Option<Parsed>, Memory>
    ensures { IfOk result (λ read. AreReadings (body_asked (members_data members.now.entries)) read) }
{
    let Some((name, body, second, user)) = two_members(members) else {
        return Ok(None);
    };
    let Some(verb) = verb_of(name) else {
        return Ok(None);
    };
    if second != "user" {
        return Ok(None);
    }
    match text_of_value(alloc, user)? {
        Some(user) => Ok(Some(body_asks(alloc, verb, user, body))),
        None => Ok(None),
    }
}

// A retirement, where this is the one member of one.
fn retire_asked(alloc: Global, name: &str, group: &Value<'_>) -> Result<Option<Parsed>, Memory>
    ensures { IfOk result (λ read. AreReadings (retire_asked name.now (value_data group.now)) read) }
{
    if name != "retire" {
        return Ok(None);
    }
    match text_of_value(alloc, group)? {
        Some(group) => Ok(Some(Ok(Request::Retire { group }))),
        None => Ok(None),
    }
}

// A stop, where this is the value of one.
fn stop_asked(value: &Value<'_>) -> Option<Line>
    ensures { AreLines (stop_asked (value_data value.now)) result }
{
    if flag(value)? { Some(Line::Stop) } else { None }
}

// The closing of the book, where this is the value of one.
fn close_asked(value: &Value<'_>) -> Option<Line>
    ensures { AreLines (close_asked (value_data value.now)) result }
{
    if flag(value)? {
        Some(Line::Asks(Ok(Request::Close)))
    } else {
        None
    }
}

// What the one member of an object asks.
fn one_asks(alloc: Global, name: &str, value: &Value<'_>) -> Result<Option<Line>, Memory>
    ensures { IfOk result (λ read. AreLines (one_asks name.now (value_data value.now)) read) }
{
    if name == "stop" {
        return Ok(stop_asked(value));
    }
    if name == "closeBook" {
        return Ok(close_asked(value));
    }
    Ok(retire_asked(alloc, name, value)?.map(Line::Asks))
}

/// The name and the value of an object's member, where it has one. Takes no memory.
pub fn one_member<'v, 't>(members: &Members<'v, 't>) -> Option<(&'t str, &'v Value<'t>)>
    ensures { option_map (λ t. (t.0.now, value_data t.1.now)) result ≡ one_member (members_data members.now.entries) }
{
    let mut left = members.iter();
    let (name, value) = left.next()?;
    if left.next().is_some() {
        return None;
    }
    Some((*name, *value))
}

// What an object's members ask.
fn members_ask(alloc: Global, members: &Members<'_, '_>) -> Result<Option<Line>, Memory>
    ensures { IfOk result (λ read. AreLines (members_ask (members_data members.now.entries)) read) }
{
    match one_member(members) {
        Some((name, value)) => one_asks(alloc, name, value),
        None => Ok(body_asked(alloc, members)?.map(Line::Asks)),
    }
}

/// What a line is, where it is of the form up to its body.
///
/// Memory that is refused in reading the line's JSON or its user is the error; memory that is refused in reading a body from
/// its JSON value is [`WireFault::Memory`], which is answered like other faults.
///
/// `scratch` is room to read in, which is kept from one text to the next.
pub fn line_of(alloc: Global, line: &[u8], scratch: &mut Scratch) -> Result<Option<Line>, Memory>
    ensures { IfOk result (λ read. AreLines (line_of line.now) read) }
{
    let Some(value) = read_json(alloc, line, scratch)? else {
        return Ok(None);
    };
    match members(alloc, &value)? {
        Some(members) => members_ask(alloc, &members),
        None => Ok(None),
    }
}
