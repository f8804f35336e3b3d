// Bytes that were read ahead.
ghost use Rattle.std.specs.Prelude.{◌≡◌, ◌≤◌, ◌<◌, ◌++◌, ◌+◌, ℕ, List, [], length, take, drop, min, OnErr, IfOk, is_err};
ghost use Rattle.std.specs.Io.KnownBytes.{Keeps, Consumes, IsAtEnd};
ghost use Rattle.rv_http.specs.Causes.{CountsReads, RequestIsSteady, read_ended};

use crate::numbers::HEAD_LIMIT;
use rv_base::{Failed, Memory, Source};
use std::alloc::Global;
use std::marker::Model;

/// Bytes that were read and not taken yet, at most as many as a head may have.
#[derive(Drop)]
pub(crate) struct Pending {
    bytes: Vec<u8>,
    end: usize,
}

impl Model for Pending {
    ghost use Rattle.std.specs.Prelude.{ℕ, List, ◌≡◌, ◌≤◌, length, take};
    ghost use Rattle.rv_http.specs.declared.numbers.TheConstants.{HEAD_LIMIT};

    ghost Value = { List ℕ };

    ghost view = { λ p. take p.end p.bytes.items };

    ghost invariant = { λ p. (length p.bytes.items ≡ HEAD_LIMIT) × (p.end ≤ HEAD_LIMIT) };
}

/// Reads some bytes of the source into the bytes from a position on, none only at its end.
pub(crate) fn read_at<S: Source>(
    source: &mut S,
    bytes: &mut [u8],
    at: usize,
) -> Result<usize, Failed>
    requires { at < length bytes.old }
    ensures size { length bytes.new ≡ length bytes.old }
    ensures bytes { IfOk result (λ n. (more : List ℕ) × (take (at + n) bytes.new ≡ take at bytes.old ++ more) × (length more ≡ n) × (at + n ≤ length bytes.new) × Consumes (S.state source.old).left (S.state source.new).left more) }
    ensures end { IfOk result (λ n. n ≡ 0 → IsAtEnd (S.state source.new).left) }
    ensures err { OnErr result ((take at bytes.new ≡ take at bytes.old) × Keeps (S.state source.old).left (S.state source.new).left) }
    ensures counts { CountsReads (S.state source.old) (S.state source.new) (read_ended result) (is_err result) }
    ensures steady { S.fails_no_more source.old → RequestIsSteady (S.fails_no_more source.new) (is_err result) }
{
    let count = source.read(&mut bytes[at..])?;
    Ok(count)
}

impl Pending {
    /// None yet.
    pub(crate) fn new(alloc: Global) -> Result<Self, Memory>
        ensures { IfOk result (λ pending. pending ≡ []) }
    {
        let bytes = vec![in alloc; 0; HEAD_LIMIT]?;
        Ok(Pending { bytes, end: 0 })
    }

    /// Lets them go. It clears and takes no memory.
    pub(crate) fn clear(&mut self)
        ensures { self.new ≡ [] }
    {
        self.end = 0;
    }

    /// The bytes.
    pub(crate) fn bytes(&self) -> &[u8]
        ensures value { result.now ≡ self.now }
        ensures few { length self.now ≤ HEAD_LIMIT }
    {
        &self.bytes[..self.end]
    }

    /// How many there are.
    pub(crate) fn len(&self) -> usize
        ensures value { result ≡ length self.now }
        ensures few { result ≤ HEAD_LIMIT }
    {
        self.end
    }

    /// Takes some bytes from the source, none only at its end.
    pub(crate) fn fill<S: Source>(&mut self, source: &mut S) -> Result<usize, Failed>
        requires capacity { length self.old < HEAD_LIMIT }
        ensures bytes { IfOk result (λ n. (more : List ℕ) × (self.new ≡ self.old ++ more) × (length more ≡ n) × Consumes (S.state source.old).left (S.state source.new).left more) }
        ensures end { IfOk result (λ n. n ≡ 0 → IsAtEnd (S.state source.new).left) }
        ensures err { OnErr result ((self.new ≡ self.old) × Keeps (S.state source.old).left (S.state source.new).left) }
        ensures counts { CountsReads (S.state source.old) (S.state source.new) (read_ended result) (is_err result) }
        ensures steady { S.fails_no_more source.old → RequestIsSteady (S.fails_no_more source.new) (is_err result) }
    {
        let count = read_at(source, &mut self.bytes, self.end)?;
        self.end += count;
        Ok(count)
    }

    /// Takes bytes off the front.
    pub(crate) fn forget(&mut self, count: usize)
        requires { count ≤ length self.old }
        ensures { self.new ≡ drop count self.old }
    {
        self.bytes.copy_within(count..self.end, 0);
        self.end -= count;
    }

    /// Moves as many bytes as both have to the front of a body.
    pub(crate) fn give(&mut self, body: &mut [u8]) -> usize
        ensures count { result ≡ min (length self.old) (length body.old) }
        ensures few { length self.old ≤ HEAD_LIMIT }
        ensures size { length body.new ≡ length body.old }
        ensures bytes { self.old ≡ take result body.new ++ self.new }
    {
        let count = self.end.min(body.len());
        body[..count].copy_from_slice(&self.bytes[..count]);
        self.forget(count);
        count
    }
}
