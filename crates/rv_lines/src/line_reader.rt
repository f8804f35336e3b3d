// A reader of lines, over a buffer that is filled from a source until a line is in it.
ghost use Rattle.std.specs.Prelude.{◌≡◌, ◌≤◌, ◌<◌, [], length, take, drop, slice_index, true, IfSome, MatchOption, None, Ok};
ghost use Rattle.rv_lines.specs.Lines.{HasNoLf, holds_line};
ghost use Rattle.rv_lines.specs.Found.{FindsLine, KeepsUnread, ReadsPiece, finds_end};
ghost use Rattle.rv_lines.specs.Reading.{unread, GivesNext, ReadsFor, gives_end, read_failed, NextLineIsSteady};
ghost use Rattle.rv_lines.specs.declared.line_reader.Found.TheVariants.{At};

use crate::next::Next;
use memchr::memchr;
use rv_base::{Fault, Source};
use std::alloc::Global;
use std::marker::Model;

// The most bytes of a line, its LF not counted.
const LINE_LIMIT: usize = 4_195_328;

// The most bytes of one read.
const PIECE: usize = 4096;

/// Bytes of a source that were read ahead, and the line that was given last.
#[derive(Drop)]
pub struct LineReader {
    buffer: Vec<u8>,
    // where the line begins and ends, and where the bytes after it begin
    start: usize,
    end: usize,
    next: usize,
}

impl Model for LineReader {
    ghost use Rattle.std.specs.Prelude.{◌≤◌, length, take, drop};
    ghost use Rattle.rv_lines.specs.Reading.{Reading};

    ghost Value = { Reading };

    ghost view = { λ r. record { line = drop r.start (take r.end r.buffer.items); pending = drop r.next r.buffer.items } };

    ghost invariant = { λ r. (r.start ≤ r.end) × (r.end ≤ r.next) × (r.next ≤ length r.buffer.items) };
}

// Where the next line ends.
#[derive(Clone, Copy)]
enum Found {
    // At an LF, which stands at this index.
    At(usize),
    // With the input.
    Rest,
    // After more bytes than a line may have.
    Long,
}

// The first LF, of bytes that have none before this index.
fn find_lf(bytes: &[u8], from: usize) -> Option<usize>
    requires within { from ≤ length bytes.now }
    requires searched { HasNoLf (take from bytes.now) }
    ensures { MatchOption result (HasNoLf bytes.now) (λ i. (i < length bytes.now) × HasNoLf (take i bytes.now) × (slice_index bytes.now i ≡ 10)) }
{
    match memchr(b'\n', &bytes[from..]) {
        Some(at) => Some(from + at),
        None => None,
    }
}

// Takes some bytes from the source, none only at its end. The space is made first, so that nothing that was read is lost.
fn read_more<S: Source>(buffer: &mut Vec<u8>, source: &mut S) -> Result<usize, Fault>
    ensures piece { ReadsPiece buffer.old.items (S.state source.old) buffer.new.items (S.state source.new) result }
    ensures steady { S.fails_no_more source.old → NextLineIsSteady (S.fails_no_more source.new) result }
{
    buffer.reserve(PIECE)?;
    let mut piece = [0; PIECE];
    let count = source.read(&mut piece)?;
    buffer.extend_from_slice(&piece[..count])?;
    Ok(count)
}

// The length of the line that begins at this index, where the buffer holds its LF and it is no longer than a line may be.
fn held_line(buffer: &[u8], start: usize) -> Option<usize>
    requires { start ≤ length buffer.now }
    ensures { IfSome result (λ n. FindsLine (drop start buffer.now) None (Ok (At n))) }
{
    match find_lf(&buffer[start..], 0) {
        Some(at) if at <= LINE_LIMIT => Some(at),
        _ => None,
    }
}

// Fills the buffer until the end of its first line is known.
fn find_line<S: Source>(buffer: &mut Vec<u8>, source: &mut S) -> Result<Found, Fault>
    ensures unread { KeepsUnread buffer.old.items (S.state source.old).left buffer.new.items (S.state source.new).left }
    ensures found { FindsLine buffer.new.items (S.state source.new).left result }

    // Nothing is read while the buffer holds a whole line, and no more than one piece that the line did not need.
    ensures idle { holds_line buffer.old.items ≡ true → source.new ≡ source.old }
    ensures reads { ReadsFor buffer.old.items (S.state source.old) (S.state source.new) (finds_end result) (read_failed result) }
    ensures steady { S.fails_no_more source.old → NextLineIsSteady (S.fails_no_more source.new) result }
{
    let mut searched = 0;
    loop {
        if let Some(at) = find_lf(buffer, searched) {
            return Ok(if at <= LINE_LIMIT {
                Found::At(at)
            } else {
                Found::Long
            });
        }
        if buffer.len() > LINE_LIMIT {
            return Ok(Found::Long);
        }
        searched = buffer.len();
        let count = read_more(buffer, source)?;
        if count == 0 {
            return Ok(Found::Rest);
        }
    }
}

// Takes bytes off the front.
fn forget(buffer: &mut Vec<u8>, count: usize)
    requires { count ≤ length buffer.old.items }
    ensures { buffer.new.items ≡ drop count buffer.old.items }
{
    buffer.drain(..count);
}

impl LineReader {
    /// A reader that has read nothing yet.
    pub fn new(alloc: Global) -> Self
        ensures line { result.line ≡ [] }
        ensures pending { result.pending ≡ [] }
    {
        LineReader {
            buffer: Vec::new(alloc),
            start: 0,
            end: 0,
            next: 0,
        }
    }

    /// Goes to the next line. After a read that failed, or where memory was refused, nothing is lost: what was read of the
    /// line stays, and the call may be made again.
    pub fn next<S: Source>(&mut self, source: &mut S) -> Result<Next, Fault>
        ensures gives { GivesNext (unread self.old.pending (S.state source.old).left) (unread self.new.pending (S.state source.new).left) self.new result }

        // Nothing is read while a whole line is held, and no more than one piece that the line did not need.
        ensures idle { holds_line self.old.pending ≡ true → source.new ≡ source.old }
        ensures reads { ReadsFor self.old.pending (S.state source.old) (S.state source.new) (gives_end result) (read_failed result) }
        ensures steady { S.fails_no_more source.old → NextLineIsSteady (S.fails_no_more source.new) result }
    {
        let Some(length) = held_line(&self.buffer, self.next) else {
            return self.fill(source);
        };
        self.start = self.next;
        self.end = self.start + length;
        self.next = self.end + 1;
        Ok(Next::Line)
    }

    // Goes to the next line, where no whole one is held or it is too long. What was given goes first, so that it goes once
    // for each piece that is read and not once for each line.
    fn fill<S: Source>(&mut self, source: &mut S) -> Result<Next, Fault>
        ensures gives { GivesNext (unread self.old.pending (S.state source.old).left) (unread self.new.pending (S.state source.new).left) self.new result }

        // Nothing is read while a whole line is held, and no more than one piece that the line did not need.
        ensures idle { holds_line self.old.pending ≡ true → source.new ≡ source.old }
        ensures reads { ReadsFor self.old.pending (S.state source.old) (S.state source.new) (gives_end result) (read_failed result) }
        ensures steady { S.fails_no_more source.old → NextLineIsSteady (S.fails_no_more source.new) result }
    {
        forget(&mut self.buffer, self.next);
        self.start = 0;
        self.end = 0;
        self.next = 0;
        match find_line(&mut self.buffer, source)? {
            Found::At(at) => {
                self.end = at;
                self.next = at + 1;
                Ok(Next::Line)
            }
            Found::Rest => {
                self.end = self.buffer.len();
                self.next = self.end;
                if self.end == 0 {
                    Ok(Next::End)
                } else {
                    Ok(Next::Last)
                }
            }
            Found::Long => Ok(Next::TooLong),
        }
    }

    /// The line that was read last.
    pub fn line(&self) -> &[u8]
        ensures { result.now ≡ self.now.line }
    {
        &self.buffer[self.start..self.end]
    }
}
