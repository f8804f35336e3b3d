// A scan of bytes: whether the head of a request is there (RFC 9112, sections 2.2, 3 and 5).
ghost use Rattle.std.specs.Prelude.{◌≡◌, ◌≤◌, length};
ghost use Rattle.rv_http.specs.Scans.{Scans};

use crate::numbers::{HEAD_LIMIT, SPANS};
use crate::target::ends_in_target;
use httparse::spans::{HeaderSpan, RequestSpans, parse_request};
use httparse::{Error, Status};

/// What the bytes are.
#[derive(Clone, Copy)]
pub(crate) enum HeadScan {
    /// They begin with a complete head.
    Whole(RequestSpans),
    /// A head can still come.
    Open,
    /// No head can come.
    Refused,
}

/// Scans for a head at the front of the bytes.
pub(crate) fn scan_head(bytes: &[u8], spans: &mut [HeaderSpan]) -> HeadScan
    requires few { length bytes.now ≤ HEAD_LIMIT }
    requires capacity { length spans.old ≡ SPANS }
    ensures { Scans bytes.now spans.new result }
{
    match parse_request(bytes, spans) {
        Ok(Status::Complete(found)) => HeadScan::Whole(found),
        Ok(Status::Partial) => HeadScan::Open,
        Err(Error::TooManyHeaders) => unreachable!(),
        Err(_) => {
            if ends_in_target(bytes) {
                HeadScan::Open
            } else {
                HeadScan::Refused
            }
        }
    }
}
