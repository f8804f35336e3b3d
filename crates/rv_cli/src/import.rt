// The command `import`: the store is opened, the input is read whole, and its records are turns of the desk.
ghost use Rattle.std.specs.Prelude.{◌≡◌, ◌≢◌, ◌⊎◌};
ghost use Rattle.rv_base.specs.Causes.{Rose};
ghost use Rattle.rv_import.specs.Importing.{import_text};
ghost use Rattle.rv_cli.specs.Headline.{WritesOnly};
ghost use Rattle.rv_cli.specs.Importing.{ImportsInput, ImportsWith, WritesCounts, WritesCame};
ghost use Rattle.rv_cli.specs.Input.{WholeIsSteady};
ghost use Rattle.rv_cli.specs.ImportPromise.{WasImported, import_statuses};
ghost use Rattle.rv_cli.specs.Steadiness.{ImportIsSteady};
ghost use Rattle.rv_cli.specs.StorePromise.{CountStays, KeepsStore};
ghost use Rattle.rv_cli.specs.Texts.{import_ending_text};

use crate::import_ending::ImportEnding;
use crate::input::read_input;
use crate::input_fault::InputFault;
use crate::store::{open_desk, refuse_opening};
use crate::texts::write_import_ending;
use rv_base::{Bytes, Failed, Memory, Sink, Source, User, write_all};
use rv_desk::Desk;
use rv_import::{ImportCounts, ImportEnd, ImportName, import};
use rv_keeper::{Keeper, Place};
use rv_turns::Turns;
use std::alloc::Global;

// Reads the input whole, and takes the turns of its records.
fn import_input<T: Turns, S: Source>(
    alloc: Global,
    turns: &mut T,
    user: &User,
    name: &ImportName,
    input: &mut S,
) -> Result<ImportEnd, InputFault>
    ensures imports { ImportsInput T.takes user.now name.now turns.old (S.state input.old) (S.state input.new) result turns.new }
    ensures steady { S.fails_no_more input.old → WholeIsSteady (S.fails_no_more input.new) result }
{
    let bytes = read_input(alloc, input)?;
    Ok(import(alloc, turns, user, name, bytes.as_slice()))
}

// The same at a desk, with the keeper that is left.
fn import_at<K: Keeper, S: Source>(
    alloc: Global,
    desk: Desk<K>,
    user: &User,
    name: &ImportName,
    input: &mut S,
) -> (Result<ImportEnd, InputFault>, K)
    ensures imports { ImportsWith K.Keeper desk user.now name.now (S.state input.old) (S.state input.new) result }
    ensures steady_input { S.fails_no_more input.old → WholeIsSteady (S.fails_no_more input.new) result.0 }
    ensures steady_keeper { K.fails_no_more desk.keeper → K.fails_no_more result.1 × (K.faults result.1 ≡ K.faults desk.keeper) }
{
    let mut desk = desk;
    let came = import_input(alloc, &mut desk, user, name, input);
    (came, desk.close())
}

// Ends so, with the text of the ending.
fn end_with<O: Sink>(alloc: Global, out: &mut O, ending: ImportEnding) -> ImportEnding
    ensures same { result ≡ ending }
    ensures text { WritesOnly (O.state out.old) (O.state out.new) (import_ending_text ending) }
    ensures steady { O.fails_no_more out.old → O.fails_no_more out.new }
{
    let _ = write_import_ending(alloc, out, &ending);
    ending
}

// Writes the text of the counts.
fn write_counted<O: Sink>(out: &mut O, text: &Bytes) -> ImportEnding
    ensures writes { WritesCounts (O.state out.old) (O.state out.new) text.now result }
    ensures steady { O.fails_no_more out.old → ImportIsSteady (O.fails_no_more out.new) (O.state out.old).refusals (O.state out.new).refusals result }
{
    match write_all(out, text.as_slice()) {
        Ok(()) => ImportEnding::Done,
        Err(Failed) => ImportEnding::Write,
    }
}

// Writes how many records there were.
fn write_counts<O: Sink>(alloc: Global, out: &mut O, counts: &ImportCounts) -> ImportEnding
    ensures writes { WritesCounts (O.state out.old) (O.state out.new) (import_text counts.now) result }
    ensures steady { O.fails_no_more out.old → ImportIsSteady (O.fails_no_more out.new) (O.state out.old).refusals (O.state out.new).refusals result }
{
    match counts.text(alloc) {
        Ok(text) => write_counted(out, &text),
        Err(Memory) => end_with(alloc, out, ImportEnding::Memory),
    }
}

// Writes what came of the input.
fn write_came<O: Sink>(
    alloc: Global,
    out: &mut O,
    came: &Result<ImportEnd, InputFault>,
) -> ImportEnding
    ensures writes { WritesCame (O.state out.old) (O.state out.new) came.now result }
    ensures steady { O.fails_no_more out.old → ImportIsSteady (O.fails_no_more out.new) (O.state out.old).refusals (O.state out.new).refusals result }
{
    match came {
        Ok(ImportEnd::Done(counts)) => write_counts(alloc, out, counts),
        Ok(ImportEnd::TooLarge) => end_with(alloc, out, ImportEnding::TooLarge),
        Ok(ImportEnd::BadRecord(number)) => end_with(alloc, out, ImportEnding::BadRecord(*number)),
        Ok(ImportEnd::Refused(refusal)) => end_with(alloc, out, ImportEnding::Refused(*refusal)),
        Ok(ImportEnd::Memory) => end_with(alloc, out, ImportEnding::Memory),
        Err(InputFault::Read) => end_with(alloc, out, ImportEnding::Read),
        Err(InputFault::TooLarge) => end_with(alloc, out, ImportEnding::TooLarge),
        Err(InputFault::Memory) => end_with(alloc, out, ImportEnding::Memory),
    }
}

/// Enters the records of the input, which is CSV, as todos of a user, one mutation each: the command `import STORE USER NAME`. The
/// store is opened first, and the input is read whole before the first turn. The status is 0, 4, 5, 6, 7, 8, 11 or 12, as
/// [`run`](crate::run) says.
pub fn run_import<P: Place, S: Source, O: Sink>(
    alloc: Global,
    place: &mut P,
    store: &str,
    user: &User,
    name: &ImportName,
    input: &mut S,
    out: &mut O,
) -> u8
    // What was entered are the turns of the records that were read, from the book that the store kept, and the store keeps the book that
    // they leave.
    ensures import { WasImported P.Place S.Source O.Sink store.now user.now name.now place.old place.new input.old input.new out.old out.new result }

    // The store is kept as by each command.
    ensures keeps { KeepsStore P.Place store.now import_statuses (Unit {0}) place.old place.new result }
    ensures still { CountStays P.Place (Unit {0}) place.old place.new }

    // A fault is told exactly where one rose, but for a write of a status's own text that failed.
    ensures keeper { result ≡ 4 → Rose (P.faults place.old) (P.faults place.new) }
    ensures read { result ≡ 6 → Rose (S.state input.old).faults (S.state input.new).faults }
    ensures read_told { result ≡ 6 ⊎ (S.state input.new).faults ≡ (S.state input.old).faults }
    ensures write { result ≡ 7 → Rose (O.state out.old).faults (O.state out.new).faults }
    ensures write_told { result ≡ 7 ⊎ (O.state out.new).faults ≡ (O.state out.old).faults ⊎ ((result ≢ 0) × Rose (O.state out.old).faults (O.state out.new).faults) }

    // Over an input and an output that fail no more it is none of the faults, but for want of memory in the output.
    ensures steady_input { S.fails_no_more input.old → S.fails_no_more input.new × (result ≢ 6) }
    ensures steady_output { O.fails_no_more out.old → O.fails_no_more out.new × (Rose (O.state out.old).refusals (O.state out.new).refusals ⊎ (result ≢ 7)) }
{
    match open_desk(alloc, place, store) {
        Ok(desk) => {
            let (came, keeper) = import_at(alloc, desk, user, name, input);
            place.close_keeper(store, keeper);
            write_came(alloc, out, &came).status()
        }
        Err(ending) => refuse_opening(out, &ending),
    }
}
