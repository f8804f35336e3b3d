// Responses (RFC 9112, section 4; RFC 9110, section 15).
ghost use Rattle.std.specs.Prelude.{◌≡◌, ◌≤◌, ◌+◌, ◌++◌, true, length, take, decimal, codes};
ghost use Rattle.rv_base.specs.Outside.{Writes, IsSteady};
ghost use Rattle.rv_http.specs.Responses.{is_status, reason, own_field, close_field, response_head, sent_body, response_text};

use http::StatusCode;
use itoa::Buffer;
use rv_base::{Failed, Sink, write_all};
use thiserror::Error;

/// A response with a JSON body.
#[derive(Clone, Copy, Debug)]
pub struct Response<'a> {
    /// The status.
    pub status: u16,
    /// The body.
    pub body: &'a [u8],
    /// The connection ends after it.
    pub closes: bool,
    /// It answers a HEAD request, so the body is not sent.
    pub head_only: bool,
}

/// A write failed.
#[derive(Clone, Copy, Debug, PartialEq, Eq, Error)]
#[error("a write failed")]
pub struct WriteFault;

impl From<Failed> for WriteFault {
    fn from(_: Failed) -> Self {
        WriteFault
    }
}

// The most bytes of a head.
const BUFFER_LEN: usize = 256;

// Copies a text into the buffer from a position on, and answers the position after it.
fn put(out: &mut [u8; BUFFER_LEN], at: usize, text: &[u8]) -> usize
    requires { at + length text.now ≤ BUFFER_LEN }
    ensures end { result ≡ at + length text.now }
    ensures text { take result out.new ≡ take at out.old ++ text.now }
{
    let end = at + text.len();
    out[at..end].copy_from_slice(text);
    end
}

// Copies the digits of a number.
fn put_number(out: &mut [u8; BUFFER_LEN], at: usize, number: u64) -> usize
    requires { at + 20 ≤ BUFFER_LEN }
    ensures bound { result ≤ at + 20 }
    ensures text { take result out.new ≡ take at out.old ++ decimal number }
{
    let mut buffer = Buffer::new();
    let digits = buffer.format(number);
    put(out, at, digits.as_bytes())
}

// The reason of a status that is served.
fn reason(status: u16) -> &'static str
    requires { is_status status ≡ true }
    ensures value { result.now ≡ reason status }
    ensures bound { length result.now ≤ 31 }
{
    match StatusCode::from_u16(status) {
        Ok(code) => match code.canonical_reason() {
            Some(reason) => reason,
            None => "",
        },
        Err(_) => "",
    }
}

// The status line.
fn put_status(out: &mut [u8; BUFFER_LEN], status: u16) -> usize
    requires { is_status status ≡ true }
    ensures bound { result ≤ 63 }
    ensures text { take result out.new ≡ codes "HTTP/1.1 " ++ (decimal status ++ (codes " " ++ (reason status ++ codes "\r\n"))) }
{
    let at = put(out, 0, b"HTTP/1.1 ");
    let at = put_number(out, at, u64::from(status));
    let at = put(out, at, b" ");
    let at = put(out, at, reason(status).as_bytes());
    put(out, at, b"\r\n")
}

// The two fields that each response has.
fn put_content(out: &mut [u8; BUFFER_LEN], at: usize, count: usize) -> usize
    requires { at ≤ 63 }
    ensures bound { result ≤ 140 }
    ensures text { take result out.new ≡ take at out.old ++ (codes "Content-Type: application/json\r\nContent-Length: " ++ (decimal count ++ codes "\r\n")) }
{
    let at = put(
        out,
        at,
        b"Content-Type: application/json\r\nContent-Length: ",
    );
    let at = put_number(out, at, count as u64);
    put(out, at, b"\r\n")
}

// The field of a status: the challenge of 401 (RFC 9110, section 11.6.1), the methods of 405 (section 10.2.1).
fn put_own(out: &mut [u8; BUFFER_LEN], at: usize, status: u16) -> usize
    requires { at ≤ 140 }
    ensures bound { result ≤ 180 }
    ensures text { take result out.new ≡ take at out.old ++ own_field status }
{
    if status == 401 {
        put(out, at, b"WWW-Authenticate: Bearer realm=\"rv\"\r\n")
    } else if status == 405 {
        put(out, at, b"Allow: POST\r\n")
    } else {
        at
    }
}

// The field of an answer that closes (RFC 9112, section 9.6).
fn put_close(out: &mut [u8; BUFFER_LEN], at: usize, closes: bool) -> usize
    requires { at ≤ 180 }
    ensures bound { result ≤ 200 }
    ensures text { take result out.new ≡ take at out.old ++ close_field closes }
{
    if closes {
        put(out, at, b"Connection: close\r\n")
    } else {
        at
    }
}

// The head.
fn put_head(out: &mut [u8; BUFFER_LEN], response: &Response<'_>) -> usize
    requires { is_status response.now.status ≡ true }
    ensures bound { result ≤ BUFFER_LEN }
    ensures text { take result out.new ≡ response_head response.now }
{
    let at = put_status(out, response.status);
    let at = put_content(out, at, response.body.len());
    let at = put_own(out, at, response.status);
    let at = put_close(out, at, response.closes);
    put(out, at, b"\r\n")
}

// The body, which the answer to a HEAD request does not have (RFC 9110, section 9.3.2).
fn write_body<O: Sink>(sink: &mut O, response: &Response<'_>) -> Result<(), Failed>
    ensures writes { Writes (O.state sink.old) (O.state sink.new) result (sent_body response.now) }
    ensures steady { O.fails_no_more sink.old → IsSteady (O.fails_no_more sink.new) (O.state sink.old) (O.state sink.new) result }
{
    if response.head_only {
        Ok(())
    } else {
        write_all(sink, response.body)
    }
}

/// Writes a response. It takes no memory. After a write that fails the sink has a front of it.
pub fn write_response<O: Sink>(sink: &mut O, response: &Response<'_>) -> Result<(), WriteFault>
    requires { is_status response.now.status ≡ true }
    ensures writes { Writes (O.state sink.old) (O.state sink.new) result (response_text response.now) }
    ensures steady { O.fails_no_more sink.old → IsSteady (O.fails_no_more sink.new) (O.state sink.old) (O.state sink.new) result }
{
    let mut out = [0; BUFFER_LEN];
    let count = put_head(&mut out, response);
    write_all(sink, &out[..count])?;
    write_body(sink, response)?;
    Ok(())
}
