// The texts that are written.
ghost use Rattle.std.specs.Prelude.{◌≡◌, ◌++◌, decimal, codes, IfOk};
ghost use Rattle.rv_base.specs.Outside.{Writes, IsSteady};
ghost use Rattle.rv_answering.specs.declared.answer.Answer.TheVariants.{Closed, Refused, Retired};
ghost use Rattle.std.specs.List.{flat_map};
ghost use Rattle.rv_cli.specs.Texts.{import_ending_text, line_text, place_text, shown_byte, text_of, serve_text, status_text, usage_text};

use crate::ending::Ending;
use crate::import_ending::ImportEnding;
use crate::serve_ending::ServeEnding;
use itoa::Buffer;
use percent_encoding::percent_encode_byte;
use rv_answering::Answer;
use rv_base::{Failed, Memory, Sink, write_all};
use rv_record::Damage;
use rv_wire::{ErrorBody, closed_text, error_text, retired_text};
use std::alloc::Global;

fn write_number<O: Sink>(out: &mut O, number: u64) -> Result<(), Failed>
    ensures writes { Writes (O.state out.old) (O.state out.new) result (decimal number) }
    ensures steady { O.fails_no_more out.old → IsSteady (O.fails_no_more out.new) (O.state out.old) (O.state out.new) result }
{
    let mut buffer = Buffer::new();
    write_all(out, buffer.format(number).as_bytes())
}

// A text, and LF.
fn write_ended<O: Sink>(out: &mut O, text: &[u8]) -> Result<(), Failed>
    ensures writes { Writes (O.state out.old) (O.state out.new) result (text.now ++ codes "\n") }
    ensures steady { O.fails_no_more out.old → IsSteady (O.fails_no_more out.new) (O.state out.old) (O.state out.new) result }
{
    write_all(out, text)?;
    write_all(out, b"\n")
}

// A space, a text, and LF.
fn write_body<O: Sink>(out: &mut O, body: &[u8]) -> Result<(), Failed>
    ensures writes { Writes (O.state out.old) (O.state out.new) result (codes " " ++ (body.now ++ codes "\n")) }
    ensures steady { O.fails_no_more out.old → IsSteady (O.fails_no_more out.new) (O.state out.old) (O.state out.new) result }
{
    match write_all(out, b" ") {
        Ok(()) => write_ended(out, body),
        Err(Failed) => Err(Failed),
    }
}

// The line of an answer in pieces, which takes no memory.
fn write_pieces<O: Sink>(out: &mut O, status: u16, body: &[u8]) -> Result<(), Failed>
    ensures writes { Writes (O.state out.old) (O.state out.new) result (line_text status body.now) }
    ensures steady { O.fails_no_more out.old → IsSteady (O.fails_no_more out.new) (O.state out.old) (O.state out.new) result }
{
    write_number(out, u64::from(status))?;
    write_body(out, body)
}

// The longest body that is copied so that its line is one write: as much as a pipe of Linux takes at once.
const ONE_WRITE: usize = 65_536;

// The line of an answer.
fn whole_line(alloc: Global, status: u16, body: &[u8]) -> Result<Vec<u8>, Memory>
    ensures { IfOk result (λ line. line.items ≡ line_text status body.now) }
{
    let mut buffer = Buffer::new();
    let mut line = Vec::with_capacity(alloc, body.len().saturating_add(5))?;
    line.extend_from_slice(buffer.format(u64::from(status)).as_bytes())?;
    line.push(b' ')?;
    line.extend_from_slice(body)?;
    line.push(b'\n')?;
    Ok(line)
}

// Writes the line of an answer at once, or in pieces where it is longer than a pipe takes at once or there is no memory for the whole of it.
fn write_line<O: Sink>(alloc: Global, out: &mut O, status: u16, body: &[u8]) -> Result<(), Failed>
    ensures writes { Writes (O.state out.old) (O.state out.new) result (line_text status body.now) }
    ensures steady { O.fails_no_more out.old → IsSteady (O.fails_no_more out.new) (O.state out.old) (O.state out.new) result }
{
    if body.len() > ONE_WRITE {
        return write_pieces(out, status, body);
    }
    match whole_line(alloc, status, body) {
        Ok(line) => write_all(out, line.as_slice()),
        Err(Memory) => write_pieces(out, status, body),
    }
}

fn write_refusal<O: Sink>(alloc: Global, out: &mut O, refusal: &ErrorBody) -> Result<(), Failed>
    ensures writes { Writes (O.state out.old) (O.state out.new) result (text_of (Refused refusal.now)) }
    ensures steady { O.fails_no_more out.old → IsSteady (O.fails_no_more out.new) (O.state out.old) (O.state out.new) result }
{
    let mut buffer = [0; 128];
    let length = error_text(refusal, &mut buffer);
    write_line(alloc, out, refusal.status(), &buffer[..length])
}

fn write_retired<O: Sink>(alloc: Global, out: &mut O, place: u32) -> Result<(), Failed>
    ensures writes { Writes (O.state out.old) (O.state out.new) result (text_of (Retired place)) }
    ensures steady { O.fails_no_more out.old → IsSteady (O.fails_no_more out.new) (O.state out.old) (O.state out.new) result }
{
    let mut buffer = [0; 128];
    let length = retired_text(place, &mut buffer);
    write_line(alloc, out, 200, &buffer[..length])
}

fn write_closed<O: Sink>(alloc: Global, out: &mut O, place: u32) -> Result<(), Failed>
    ensures writes { Writes (O.state out.old) (O.state out.new) result (text_of (Closed place)) }
    ensures steady { O.fails_no_more out.old → IsSteady (O.fails_no_more out.new) (O.state out.old) (O.state out.new) result }
{
    let mut buffer = [0; 128];
    let length = closed_text(place, &mut buffer);
    write_line(alloc, out, 200, &buffer[..length])
}

/// Writes the line of an answer: its status, a space, its body, and LF.
pub(crate) fn write_answer<O: Sink>(
    alloc: Global,
    out: &mut O,
    answer: &Answer,
) -> Result<(), Failed>
    ensures writes { Writes (O.state out.old) (O.state out.new) result (text_of answer.now) }
    ensures steady { O.fails_no_more out.old → IsSteady (O.fails_no_more out.new) (O.state out.old) (O.state out.new) result }
{
    match answer {
        Answer::Pushed => write_line(alloc, out, 200, b"{}"),
        Answer::Pulled(reply) => write_line(alloc, out, 200, reply.text.as_slice()),
        Answer::Retired(place) => write_retired(alloc, out, *place),
        Answer::Closed(place) => write_closed(alloc, out, *place),
        Answer::Refused(refusal) => write_refusal(alloc, out, refusal),
    }
}

/// Writes what is counted, the number, and LF.
pub(crate) fn write_count<O: Sink>(out: &mut O, label: &[u8], number: u64) -> Result<(), Failed>
    ensures writes { Writes (O.state out.old) (O.state out.new) result (label.now ++ (decimal number ++ codes "\n")) }
    ensures steady { O.fails_no_more out.old → IsSteady (O.fails_no_more out.new) (O.state out.old) (O.state out.new) result }
{
    let mut buffer = Buffer::new();
    match write_all(out, label) {
        Ok(()) => write_ended(out, buffer.format(number).as_bytes()),
        Err(Failed) => Err(Failed),
    }
}

// Writes a byte of a key as it is shown.
fn write_shown<O: Sink>(out: &mut O, byte: u8) -> Result<(), Failed>
    ensures writes { Writes (O.state out.old) (O.state out.new) result (shown_byte byte) }
    ensures steady { O.fails_no_more out.old → IsSteady (O.fails_no_more out.new) (O.state out.old) (O.state out.new) result }
{
    if byte.is_ascii_graphic() && byte != b'%' {
        write_all(out, &[byte])
    } else {
        write_all(out, percent_encode_byte(byte).as_bytes())
    }
}

// Writes a key as it is shown.
fn write_key<O: Sink>(out: &mut O, key: &[u8]) -> Result<(), Failed>
    ensures writes { Writes (O.state out.old) (O.state out.new) result (flat_map shown_byte key.now) }
    ensures steady { O.fails_no_more out.old → IsSteady (O.fails_no_more out.new) (O.state out.old) (O.state out.new) result }
{
    for byte in key {
        match write_shown(out, *byte) {
            Ok(()) => {}
            Err(Failed) => return Err(Failed),
        }
    }
    Ok(())
}

// A shelf, a space and a key.
fn write_place<O: Sink>(out: &mut O, damage: &Damage) -> Result<(), Failed>
    ensures writes { Writes (O.state out.old) (O.state out.new) result (place_text damage.now) }
    ensures steady { O.fails_no_more out.old → IsSteady (O.fails_no_more out.new) (O.state out.old) (O.state out.new) result }
{
    write_number(out, u64::from(damage.shelf))?;
    match write_all(out, b" ") {
        Ok(()) => write_key(out, damage.key.as_slice()),
        Err(Failed) => Err(Failed),
    }
}

fn write_damaged<O: Sink>(out: &mut O, damage: &Damage) -> Result<(), Failed>
    ensures writes { Writes (O.state out.old) (O.state out.new) result (codes "damaged: " ++ (place_text damage.now ++ codes "\n")) }
    ensures steady { O.fails_no_more out.old → IsSteady (O.fails_no_more out.new) (O.state out.old) (O.state out.new) result }
{
    match write_all(out, b"damaged: ") {
        Ok(()) => write_place_ended(out, damage),
        Err(Failed) => Err(Failed),
    }
}

// A shelf, a space and a key, and LF.
fn write_place_ended<O: Sink>(out: &mut O, damage: &Damage) -> Result<(), Failed>
    ensures writes { Writes (O.state out.old) (O.state out.new) result (place_text damage.now ++ codes "\n") }
    ensures steady { O.fails_no_more out.old → IsSteady (O.fails_no_more out.new) (O.state out.old) (O.state out.new) result }
{
    write_place(out, damage)?;
    write_all(out, b"\n")
}

/// Writes the text of an ending.
pub(crate) fn write_ending<O: Sink>(out: &mut O, ending: &Ending) -> Result<(), Failed>
    ensures writes { Writes (O.state out.old) (O.state out.new) result (status_text ending.now) }
    ensures steady { O.fails_no_more out.old → IsSteady (O.fails_no_more out.new) (O.state out.old) (O.state out.new) result }
{
    match ending {
        Ending::Done => Ok(()),
        Ending::Keeper => write_all(out, b"keeper\n"),
        Ending::Damaged(damage) => write_damaged(out, damage),
        Ending::Write => Ok(()),
        Ending::Read => write_all(out, b"read\n"),
        Ending::Memory => write_all(out, b"memory\n"),
        Ending::Malformed(number) => write_count(out, b"line ", *number),
    }
}

/// Writes the text of an ending of `serve`.
pub(crate) fn write_serve_ending<O: Sink>(out: &mut O, ending: &ServeEnding) -> Result<(), Failed>
    ensures writes { Writes (O.state out.old) (O.state out.new) result (serve_text ending.now) }
    ensures steady { O.fails_no_more out.old → IsSteady (O.fails_no_more out.new) (O.state out.old) (O.state out.new) result }
{
    match ending {
        ServeEnding::Done => Ok(()),
        ServeEnding::BadAccounts(number) => write_count(out, b"accounts: bad ", u64::from(*number)),
        ServeEnding::TwiceAccounts(number) => {
            write_count(out, b"accounts: twice ", u64::from(*number))
        }
        ServeEnding::NotOpened(ending) => write_ending(out, ending),
        ServeEnding::Net => write_all(out, b"net\n"),
        ServeEnding::Memory => write_all(out, b"memory\n"),
        ServeEnding::Write => Ok(()),
    }
}

/// Writes the text of an ending of `import`.
pub(crate) fn write_import_ending<O: Sink>(
    alloc: Global,
    out: &mut O,
    ending: &ImportEnding,
) -> Result<(), Failed>
    ensures writes { Writes (O.state out.old) (O.state out.new) result (import_ending_text ending.now) }
    ensures steady { O.fails_no_more out.old → IsSteady (O.fails_no_more out.new) (O.state out.old) (O.state out.new) result }
{
    match ending {
        ImportEnding::Done => Ok(()),
        ImportEnding::Read => write_all(out, b"read\n"),
        ImportEnding::TooLarge => write_all(out, b"csv size\n"),
        ImportEnding::BadRecord(number) => write_count(out, b"csv ", u64::from(*number)),
        ImportEnding::Refused(refusal) => write_refusal(alloc, out, &ErrorBody::Refused(*refusal)),
        ImportEnding::Memory => write_all(out, b"memory\n"),
        ImportEnding::Write => Ok(()),
    }
}

/// Writes the text of words that are no line of the command set.
pub(crate) fn write_usage<O: Sink>(out: &mut O) -> Result<(), Failed>
    ensures writes { Writes (O.state out.old) (O.state out.new) result usage_text }
    ensures steady { O.fails_no_more out.old → IsSteady (O.fails_no_more out.new) (O.state out.old) (O.state out.new) result }
{
    write_all(
        out,
        b"usage: rv feed|serve|retire|lists|activity|check|make|close-book|ship|follow|import|export\n",
    )
}
