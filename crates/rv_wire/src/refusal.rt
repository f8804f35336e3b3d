ghost use Rattle.std.specs.Prelude.{◌≡◌, ◌≤◌, ◌+◌, ◌++◌, ◌<◌, length, take, decimal, codes};
ghost use Rattle.serde_json.specs.Written.{compact_text};
ghost use Rattle.rv_wire.specs.Errors.{which_text, trouble_data, trouble_status, refusal_data, refusal_status, error_data, error_status, fault_error};

use crate::error_body::ErrorBody;
use crate::fault::WireFault;
use itoa::Buffer;
use rv_turns::{Refusal, Trouble, Which};

// Copies a text into the buffer from a place on, and answers the place after it.
pub(crate) fn put(out: &mut [u8; 128], at: usize, text: &[u8]) -> usize
    requires { at + length text.now ≤ 128 }
    ensures end { result ≡ at + length text.now }
    ensures text { take result out.new ≡ take at out.old ++ text.now }
{
    let end = at + text.len();
    out[at..end].copy_from_slice(text);
    end
}

pub(crate) fn put_number(out: &mut [u8; 128], at: usize, number: u64) -> usize
    requires { at + 20 ≤ 128 }
    ensures low { at ≤ result }
    ensures high { result ≤ at + 20 }
    ensures text { take result out.new ≡ take at out.old ++ decimal number }
{
    let mut buffer = Buffer::new();
    let digits = buffer.format(number);
    put(out, at, digits.as_bytes())
}

fn put_which(out: &mut [u8; 128], at: usize, which: Which) -> usize
    requires { at + 34 ≤ 128 }
    ensures bound { result ≤ at + 34 }
    ensures text { take result out.new ≡ take at out.old ++ (codes ",\"error\":\"Limit\",\"which\":\"" ++ which_text which ++ codes "\"}") }
{
    match which {
        Which::Book => put(out, at, b",\"error\":\"Limit\",\"which\":\"book\"}"),
        Which::Order => put(out, at, b",\"error\":\"Limit\",\"which\":\"order\"}"),
    }
}

fn put_limit(out: &mut [u8; 128], which: Which, number: u64) -> usize
    ensures bound { result ≤ 128 }
    ensures text { take result out.new ≡ (codes "{\"at\":" ++ decimal number) ++ (codes ",\"error\":\"Limit\",\"which\":\"" ++ which_text which ++ codes "\"}") }
{
    let at = put(out, 0, b"{\"at\":");
    let at = put_number(out, at, number);
    put_which(out, at, which)
}

// Writes a text after the first bytes of an object, and ends both.
fn put_text(out: &mut [u8; 128], first: &[u8], text: &[u8]) -> usize
    requires { length first.now + length text.now + 2 ≤ 128 }
    ensures bound { result ≤ 128 }
    ensures text { take result out.new ≡ (first.now ++ text.now) ++ codes "\"}" }
{
    let at = put(out, 0, first);
    let at = put(out, at, text);
    put(out, at, b"\"}")
}

// Writes two numbers, each after what names it, and ends the object.
fn put_numbers(out: &mut [u8; 128], first: &[u8], one: u64, second: &[u8], other: u64) -> usize
    requires { length first.now + length second.now + 41 ≤ 128 }
    ensures bound { result ≤ 128 }
    ensures text { take result out.new ≡ (((first.now ++ decimal one) ++ second.now) ++ decimal other) ++ codes "}" }
{
    let at = put(out, 0, first);
    let at = put_number(out, at, one);
    let at = put(out, at, second);
    let at = put_number(out, at, other);
    put(out, at, b"}")
}

// Writes a number after what names it, and ends the object.
pub(crate) fn put_last(out: &mut [u8; 128], first: &[u8], number: u64) -> usize
    requires { length first.now + 21 ≤ 128 }
    ensures bound { result ≤ 128 }
    ensures text { take result out.new ≡ (first.now ++ decimal number) ++ codes "}" }
{
    let at = put(out, 0, first);
    let at = put_number(out, at, number);
    put(out, at, b"}")
}

// Writes the JSON text of a turn that could not be kept.
fn trouble_text(trouble: &Trouble, out: &mut [u8; 128]) -> usize
    ensures length { result ≤ 128 }
    ensures text { take result out.new ≡ compact_text (trouble_data trouble.now) }
{
    match trouble {
        Trouble::Keeper => put(out, 0, b"{\"error\":\"keeper\"}"),
        Trouble::Changed { kept, found } => put_numbers(
            out,
            b"{\"error\":\"Changed\",\"found\":",
            *found,
            b",\"kept\":",
            *kept,
        ),
    }
}

// Writes the JSON text of a refused turn.
fn refusal_text(refusal: &Refusal, out: &mut [u8; 128]) -> usize
    ensures length { result ≤ 128 }
    ensures text { take result out.new ≡ compact_text (refusal_data refusal.now) }
{
    match refusal {
        Refusal::Future { expected, got } => put_numbers(
            out,
            b"{\"error\":\"Future\",\"expected\":",
            expected.get(),
            b",\"got\":",
            got.get(),
        ),
        Refusal::GroupOfOther => put(out, 0, b"{\"error\":\"GroupOfOther\"}"),
        Refusal::ClientOfOther => put(out, 0, b"{\"error\":\"ClientOfOther\"}"),
        Refusal::NotFound => put(out, 0, b"{\"error\":\"ClientStateNotFound\"}"),
        Refusal::NoGroup => put(out, 0, b"{\"error\":\"NoGroup\"}"),
        Refusal::Behind(length) => put_last(
            out,
            b"{\"error\":\"behind\",\"length\":",
            u64::from(*length),
        ),
        Refusal::Limit(which, number) => put_limit(out, *which, number.get()),
        Refusal::Trouble(trouble) => trouble_text(trouble, out),
        Refusal::Memory => put(out, 0, b"{\"error\":\"memory\"}"),
    }
}

/// Writes the JSON text of a refusal to the buffer's front, and answers how many bytes it has. Takes no memory.
pub fn error_text(error: &ErrorBody, out: &mut [u8; 128]) -> usize
    ensures length { result ≤ 128 }
    ensures text { take result out.new ≡ compact_text (error_data error.now) }
{
    match error {
        ErrorBody::VersionNotSupported(kind) => put_text(
            out,
            b"{\"error\":\"VersionNotSupported\",\"versionType\":\"",
            kind.name().as_bytes(),
        ),
        ErrorBody::NotJson => put(out, 0, b"{\"error\":\"NotJson\"}"),
        ErrorBody::Field(field) => put_text(
            out,
            b"{\"error\":\"Field\",\"field\":\"",
            field.name().as_bytes(),
        ),
        ErrorBody::Refused(refusal) => refusal_text(refusal, out),
    }
}

// The status that a turn is answered with which could not be kept.
fn trouble_status(trouble: &Trouble) -> u16
    ensures { result ≡ trouble_status trouble.now }
{
    match trouble {
        Trouble::Keeper => 503,
        Trouble::Changed { .. } => 500,
    }
}

// The status that a refused turn is answered with.
fn refusal_status(refusal: &Refusal) -> u16
    ensures { result ≡ refusal_status refusal.now }
{
    match refusal {
        Refusal::Future { .. } => 409,
        Refusal::GroupOfOther => 403,
        Refusal::ClientOfOther => 403,
        Refusal::NotFound => 200,
        Refusal::NoGroup => 404,
        Refusal::Behind(_) => 503,
        Refusal::Limit(_, _) => 507,
        Refusal::Trouble(trouble) => trouble_status(trouble),
        Refusal::Memory => 503,
    }
}

impl ErrorBody {
    /// The status that a refusal is answered with.
    pub fn status(&self) -> u16
        ensures { result ≡ error_status self.now }
    {
        match self {
            ErrorBody::VersionNotSupported(_) => 200,
            ErrorBody::NotJson => 400,
            ErrorBody::Field(_) => 400,
            ErrorBody::Refused(refusal) => refusal_status(refusal),
        }
    }
}

impl WireFault {
    /// The refusal that a body which is not taken is answered with.
    pub fn refusal(self) -> ErrorBody
        ensures { result ≡ fault_error self }
    {
        match self {
            WireFault::NotJson => ErrorBody::NotJson,
            WireFault::Field(field) => ErrorBody::Field(field),
            WireFault::Version(kind) => ErrorBody::VersionNotSupported(kind),
            WireFault::Memory => ErrorBody::Refused(Refusal::Memory),
        }
    }
}
