// The body of a request, whose length Content-Length gives (RFC 9112, section 6.3).
ghost use Rattle.std.specs.Prelude.{◌≡◌, ◌≤◌, ◌<◌, ◌⊎◌, take, length, OnOk};
ghost use Rattle.rv_http.specs.Causes.{CountsReads, RequestIsSteady};
ghost use Rattle.rv_http.specs.Steps.{Fills, ReadsBody, body_ended, body_failed};

use crate::numbers::{BODY_LIMIT, HEAD_LIMIT};
use crate::pending::{Pending, read_at};
use rv_base::{Bytes, Failed, Source};
use std::alloc::{AllocError, Global};

/// Why no body was read.
#[derive(Clone, Copy, Debug, PartialEq, Eq)]
pub(crate) enum BodyStop {
    /// The source ended.
    Ended,
    /// A read failed.
    Fault,
    /// Memory was refused.
    Memory,
}

impl From<Failed> for BodyStop {
    ghost use Rattle.std.specs.Prelude.{◌≡◌};
    ghost use Rattle.rv_http.specs.declared.body.BodyStop.TheVariants.{Fault};

    ghost from_gives = { λ _ e. e ≡ Fault };

    fn from(_: Failed) -> Self {
        BodyStop::Fault
    }
}

impl From<AllocError> for BodyStop {
    ghost use Rattle.std.specs.Prelude.{◌≡◌};
    ghost use Rattle.rv_http.specs.declared.body.BodyStop.TheVariants.{Memory};

    ghost from_gives = { λ _ e. e ≡ Memory };

    fn from(_: AllocError) -> Self {
        BodyStop::Memory
    }
}

// Room for more bytes of a body: twice as many as before, and no more than the body has.
fn grow(body: &mut Vec<u8>, size: usize) -> Result<(), AllocError>
    requires less { length body.old.items < size }
    requires bound { size ≤ BODY_LIMIT }
    ensures { OnOk result ((take (length body.old.items) body.new.items ≡ body.old.items) × (length body.old.items < length body.new.items) × (length body.new.items ≤ size)) }
{
    let capacity = (body.len() * 2).max(HEAD_LIMIT).min(size);
    body.resize(capacity, 0)
}

// Fills a body from this position on.
fn fill_body<S: Source>(
    source: &mut S,
    body: &mut Vec<u8>,
    from: usize,
    size: usize,
) -> Result<(), BodyStop>
    requires from { from ≤ length body.old.items }
    requires capacity { length body.old.items ≤ size }
    requires bound { size ≤ BODY_LIMIT }
    ensures idle { (from < size) ⊎ (source.new ≡ source.old) }
    ensures bytes { Fills from size body.old.items body.new.items (S.state source.old).left (S.state source.new).left result }
    ensures counts { CountsReads (S.state source.old) (S.state source.new) (body_ended result) (body_failed result) }
    ensures steady { S.fails_no_more source.old → RequestIsSteady (S.fails_no_more source.new) (body_failed result) }
{
    let mut at = from;
    while at < size {
        if at == body.len() {
            grow(body, size)?;
        }
        let count = read_at(source, body, at)?;
        if count == 0 {
            return Err(BodyStop::Ended);
        }
        at += count;
    }
    Ok(())
}

/// Reads a body of so many bytes: those that were read ahead, and then the source's. Memory is taken as the bytes come.
pub(crate) fn read_body<S: Source>(
    alloc: Global,
    source: &mut S,
    pending: &mut Pending,
    size: usize,
) -> Result<Bytes, BodyStop>
    requires { size ≤ BODY_LIMIT }

    // Nothing is read where the whole body was read ahead.
    ensures idle { (length pending.old < size) ⊎ (source.new ≡ source.old) }
    ensures bytes { ReadsBody size pending.old pending.new (S.state source.old).left (S.state source.new).left result }
    ensures counts { CountsReads (S.state source.old) (S.state source.new) (body_ended result) (body_failed result) }
    ensures steady { S.fails_no_more source.old → RequestIsSteady (S.fails_no_more source.new) (body_failed result) }
{
    let mut body = vec![in alloc; 0; size.min(HEAD_LIMIT)]?;
    let count = pending.give(&mut body);
    fill_body(source, &mut body, count, size)?;
    Ok(Bytes::from_vec(body))
}
