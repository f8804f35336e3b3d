// A request is read: a head, and a body of the length that the head gives (RFC 9112, sections 2.1 and 6.3).
ghost use Rattle.std.specs.Prelude.{◌≡◌, ◌≤◌, ◌⊎◌, length, IfOk};
ghost use Rattle.httparse.specs.Spans.{IsRequestOf, IsRequestWithin};
ghost use Rattle.rv_http.specs.Requests.{IsPartial, Waits, ReadsOne};
ghost use Rattle.rv_http.specs.Causes.{CountsReads, RequestIsSteady, saw_end, read_failed};
ghost use Rattle.rv_http.specs.Steps.{FindsHead, TakesFirstHead, search_ended, search_failed, head_end, body_end};

use crate::body::{BodyStop, read_body};
use crate::buffer::Buffer;
use crate::head::Head;
use crate::http_end::HttpEnd;
use crate::numbers::{BODY_LIMIT, HEAD_LIMIT, SPANS};
use crate::parts::Parts;
use crate::pending::Pending;
use crate::request::Request;
use crate::scan::{HeadScan, scan_head};
use httparse::spans::{HeaderSpan, RequestSpans};
use rv_base::{Failed, Memory, Source};
use std::alloc::Global;

/// Why no head was found.
#[derive(Clone, Copy, Debug, PartialEq, Eq)]
pub(crate) enum HeadStop {
    /// The source ended.
    Ended,
    /// A read failed.
    Fault,
    /// No head can come.
    Refused,
    /// There is no head in as many bytes as a head may have.
    TooLong,
}

// Reads until a head is complete, or can't come.
fn find_head<S: Source>(
    source: &mut S,
    pending: &mut Pending,
    spans: &mut [HeaderSpan],
) -> Result<RequestSpans, HeadStop>
    requires { length spans.old ≡ SPANS }

    // Nothing is read but where a head is waited for.
    ensures idle { IsPartial pending.old ⊎ ((source.new ≡ source.old) × (pending.new ≡ pending.old)) }
    ensures finds { FindsHead pending.old pending.new spans.new (S.state source.old).left (S.state source.new).left result }
    ensures counts { CountsReads (S.state source.old) (S.state source.new) (search_ended result) (search_failed result) }
    ensures steady { S.fails_no_more source.old → RequestIsSteady (S.fails_no_more source.new) (search_failed result) }
{
    loop {
        match scan_head(pending.bytes(), spans) {
            HeadScan::Whole(found) => return Ok(found),
            HeadScan::Refused => return Err(HeadStop::Refused),
            HeadScan::Open => {}
        }
        if pending.len() == HEAD_LIMIT {
            return Err(HeadStop::TooLong);
        }
        match pending.fill(source) {
            Ok(0) => return Err(HeadStop::Ended),
            Ok(_) => {}
            Err(Failed) => return Err(HeadStop::Fault),
        }
    }
}

// Takes a head off the front, with what the request has beside its body, and the number of body bytes.
fn take_head(
    alloc: Global,
    pending: &mut Pending,
    spans: &[HeaderSpan],
    found: RequestSpans,
) -> Result<(Parts, usize), HttpEnd>
    requires found { IsRequestOf pending.old spans.now found }
    requires within { IsRequestWithin pending.old spans.now found }
    ensures takes { TakesFirstHead pending.old pending.new result }
    ensures bound { IfOk result (λ taken. taken.1 ≤ BODY_LIMIT) }
{
    let head = Head::new(pending.bytes(), spans, found);
    let length = head.judge()?;
    let parts = match head.own_parts(alloc) {
        Ok(parts) => parts,
        Err(Memory) => return Err(HttpEnd::Memory(head.is_head())),
    };
    pending.forget(found.len);
    Ok((parts, length))
}

// What is told where no head was found, with so many bytes read.
fn head_end(stop: HeadStop, count: usize) -> HttpEnd
    ensures { result ≡ head_end stop count }
{
    match stop {
        HeadStop::Ended => {
            if count == 0 {
                HttpEnd::End
            } else {
                HttpEnd::Cut
            }
        }
        HeadStop::Fault => HttpEnd::ReadFault,
        HeadStop::Refused => HttpEnd::BadHead(false),
        HeadStop::TooLong => HttpEnd::HeadTooLarge(false),
    }
}

// What is told where no body was read, of a request with this method.
fn body_end(stop: BodyStop, head_only: bool) -> HttpEnd
    ensures { result ≡ body_end stop head_only }
{
    match stop {
        BodyStop::Ended => HttpEnd::Cut,
        BodyStop::Fault => HttpEnd::ReadFault,
        BodyStop::Memory => HttpEnd::Memory(head_only),
    }
}

// Reads a request, with space for the fields of its head.
fn read_into<S: Source>(
    alloc: Global,
    source: &mut S,
    pending: &mut Pending,
    spans: &mut [HeaderSpan],
) -> Result<Request, HttpEnd>
    requires { length spans.old ≡ SPANS }
    ensures idle { Waits pending.old ⊎ (source.new ≡ source.old) }
    ensures reads { ReadsOne pending.old pending.new (S.state source.old).left (S.state source.new).left result }
    ensures counts { CountsReads (S.state source.old) (S.state source.new) (saw_end result) (read_failed result) }
    ensures steady { S.fails_no_more source.old → RequestIsSteady (S.fails_no_more source.new) (read_failed result) }
{
    let found = match find_head(source, pending, spans) {
        Ok(found) => found,
        Err(stop) => return Err(head_end(stop, pending.len())),
    };
    let (parts, length) = match take_head(alloc, pending, spans, found) {
        Ok(taken) => taken,
        Err(end) => return Err(end),
    };
    match read_body(alloc, source, pending, length) {
        Ok(body) => Ok(parts.with_body(body)),
        Err(stop) => Err(body_end(stop, parts.head_only)),
    }
}

/// Reads the next request. Bytes after it stay in the buffer; after an error what was read stays read, and the connection
/// is of no more use.
pub fn read_request<S: Source>(
    alloc: Global,
    source: &mut S,
    buffer: &mut Buffer,
) -> Result<Request, HttpEnd>

    // Nothing is read but where a request is waited for.
    ensures idle { Waits buffer.old ⊎ (source.new ≡ source.old) }
    ensures reads { ReadsOne buffer.old buffer.new (S.state source.old).left (S.state source.new).left result }
    ensures counts { CountsReads (S.state source.old) (S.state source.new) (saw_end result) (read_failed result) }
    ensures steady { S.fails_no_more source.old → RequestIsSteady (S.fails_no_more source.new) (read_failed result) }
{
    read_into(alloc, source, &mut buffer.pending, &mut buffer.spans)
}
