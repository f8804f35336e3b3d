// The reports of a store.
ghost use Rattle.std.specs.Prelude.{◌≢◌, ◌⊎◌, ◌++◌, codes, decimal};
ghost use Rattle.rv_base.specs.Causes.{Rose};
ghost use Rattle.rv_cli.specs.Headline.{ReportsActivity, ReportsLists, ReportsSound, ReportsView, WritesLines, WritesWhole};
ghost use Rattle.rv_cli.specs.ReportPromise.{MakesNone, WasReported, report_statuses};
ghost use Rattle.rv_cli.specs.Reporting.{WritesMade, WritesUntil};
ghost use Rattle.rv_cli.specs.Steadiness.{OutputIsSteady};
ghost use Rattle.rv_cli.specs.StorePromise.{CountStays, KeepsStore};

use crate::ending::Ending;
use crate::store::{check_store, open_existing_desk, refuse_opening};
use crate::texts::{write_count, write_ending};
use rv_base::{Bytes, Failed, Fault, Memory, Sink, User, write_all};
use rv_book::Book;
use rv_keeper::Place;
use rv_report::{activity_text, export_text, lists_text};
use rv_standby::ship;
use std::alloc::Global;

// Writes the text of a report.
fn write_text<O: Sink>(out: &mut O, text: &Bytes) -> Ending
    ensures writes { WritesUntil (O.state out.old) (O.state out.new) text.now result }
    ensures steady { O.fails_no_more out.old → OutputIsSteady (O.fails_no_more out.new) (O.state out.old).refusals (O.state out.new).refusals result }
{
    match write_all(out, text.as_slice()) {
        Ok(()) => Ending::Done,
        Err(Failed) => Ending::Write,
    }
}

// Writes a report, or that memory was refused for it.
pub(crate) fn write_report<O: Sink>(out: &mut O, report: &Result<Bytes, Memory>) -> Ending
    ensures writes { WritesMade (O.state out.old) (O.state out.new) report.now result }
    ensures steady { O.fails_no_more out.old → OutputIsSteady (O.fails_no_more out.new) (O.state out.old).refusals (O.state out.new).refusals result }
{
    match report {
        Ok(text) => write_text(out, text),
        Err(Memory) => {
            let _ = write_ending(out, &Ending::Memory);
            Ending::Memory
        }
    }
}

// Writes that a store is sound.
fn report_sound<O: Sink>(out: &mut O, entries: u32) -> Ending
    ensures writes { WritesUntil (O.state out.old) (O.state out.new) (codes "ok " ++ (decimal entries ++ codes "\n")) result }
    ensures steady { O.fails_no_more out.old → OutputIsSteady (O.fails_no_more out.new) (O.state out.old).refusals (O.state out.new).refusals result }
{
    match write_count(out, b"ok ", u64::from(entries)) {
        Ok(()) => Ending::Done,
        Err(Failed) => Ending::Write,
    }
}

// Writes the lines of a book, one after another, or a front of them and that memory was refused.
fn write_lines<O: Sink>(alloc: Global, out: &mut O, book: &Book) -> Ending
    ensures writes { WritesLines book.now.book (O.state out.old) (O.state out.new) result }
    ensures steady { O.fails_no_more out.old → OutputIsSteady (O.fails_no_more out.new) (O.state out.old).refusals (O.state out.new).refusals result }
{
    match ship(alloc, out, book) {
        Ok(()) => Ending::Done,
        Err(Fault::Failed) => Ending::Write,
        Err(Fault::Memory) => {
            let _ = write_ending(out, &Ending::Memory);
            Ending::Memory
        }
    }
}

/// Writes the lists of the book that the store keeps, as [`lists_text`](rv_report::lists_text): the command `lists STORE`. The
/// status is 0, 4, 5, 7 or 8; it is 4 where the store isn't there, and none is made. The store stays as it is.
pub fn run_lists<P: Place, O: Sink>(alloc: Global, place: &mut P, store: &str, out: &mut O) -> u8
    // What is written is a text of the book that the store kept, which it still keeps.
    ensures report { WasReported P.Place O.Sink store.now (WritesWhole ReportsLists) place.old place.new out.old out.new result }

    // The store is kept as by each command, and is one that is there.
    ensures keeps { KeepsStore P.Place store.now report_statuses (P.has place.old store.now) place.old place.new result }
    ensures still { CountStays P.Place (P.has place.old store.now) place.old place.new }
    ensures none { MakesNone P.Place store.now place.old place.new result }
    ensures steady { O.fails_no_more out.old → O.fails_no_more out.new × (Rose (O.state out.old).refusals (O.state out.new).refusals ⊎ (result ≢ 7)) }
{
    match open_existing_desk(alloc, place, store) {
        Ok(desk) => {
            let report = lists_text(alloc, desk.tables());
            place.close_keeper(store, desk.close());
            write_report(out, &report).status()
        }
        Err(ending) => refuse_opening(out, &ending),
    }
}

/// Writes who did how much in the book that the store keeps, as [`activity_text`](rv_report::activity_text): the command
/// `activity STORE`. The status is 0, 4, 5, 7 or 8; it is 4 where the store isn't there, and none is made. The store stays as it is.
pub fn run_activity<P: Place, O: Sink>(alloc: Global, place: &mut P, store: &str, out: &mut O) -> u8
    ensures report { WasReported P.Place O.Sink store.now (WritesWhole ReportsActivity) place.old place.new out.old out.new result }
    ensures keeps { KeepsStore P.Place store.now report_statuses (P.has place.old store.now) place.old place.new result }
    ensures still { CountStays P.Place (P.has place.old store.now) place.old place.new }
    ensures none { MakesNone P.Place store.now place.old place.new result }
    ensures steady { O.fails_no_more out.old → O.fails_no_more out.new × (Rose (O.state out.old).refusals (O.state out.new).refusals ⊎ (result ≢ 7)) }
{
    match open_existing_desk(alloc, place, store) {
        Ok(desk) => {
            let report = activity_text(alloc, desk.book());
            place.close_keeper(store, desk.close());
            write_report(out, &report).status()
        }
        Err(ending) => refuse_opening(out, &ending),
    }
}

/// Writes the rows that the user sees in the book that the store keeps, as [`export_text`](rv_import::export_text): the command
/// `export STORE USER`. The status is 0, 4, 5, 7 or 8; it is 4 where the store isn't there, and none is made. The store stays as it
/// is.
pub fn run_export<P: Place, O: Sink>(
    alloc: Global,
    place: &mut P,
    store: &str,
    user: &User,
    out: &mut O,
) -> u8
    ensures report { WasReported P.Place O.Sink store.now (WritesWhole (ReportsView user.now)) place.old place.new out.old out.new result }
    ensures keeps { KeepsStore P.Place store.now report_statuses (P.has place.old store.now) place.old place.new result }
    ensures still { CountStays P.Place (P.has place.old store.now) place.old place.new }
    ensures none { MakesNone P.Place store.now place.old place.new result }
    ensures steady { O.fails_no_more out.old → O.fails_no_more out.new × (Rose (O.state out.old).refusals (O.state out.new).refusals ⊎ (result ≢ 7)) }
{
    match open_existing_desk(alloc, place, store) {
        Ok(desk) => {
            let report = export_text(alloc, desk.tables(), user);
            place.close_keeper(store, desk.close());
            write_report(out, &report).status()
        }
        Err(ending) => refuse_opening(out, &ending),
    }
}

/// Writes that the store is sound, with its book's length: the command `check STORE`. The status is 0, 4, 5, 7 or 8,
/// where 4 also tells that the store isn't there, and none is made, and 5 what is wrong first. The store stays as it is.
pub fn run_check<P: Place, O: Sink>(alloc: Global, place: &mut P, store: &str, out: &mut O) -> u8
    ensures report { WasReported P.Place O.Sink store.now (WritesWhole ReportsSound) place.old place.new out.old out.new result }
    ensures keeps { KeepsStore P.Place store.now report_statuses (P.has place.old store.now) place.old place.new result }
    ensures still { CountStays P.Place (P.has place.old store.now) place.old place.new }
    ensures none { MakesNone P.Place store.now place.old place.new result }
    ensures steady { O.fails_no_more out.old → O.fails_no_more out.new × (Rose (O.state out.old).refusals (O.state out.new).refusals ⊎ (result ≢ 7)) }
{
    match check_store(alloc, place, store) {
        Ok(entries) => report_sound(out, entries).status(),
        Err(ending) => refuse_opening(out, &ending),
    }
}

/// Writes the book that the store keeps as lines, which a standby takes, as [`ship`](rv_standby::ship): the command `ship STORE`. The status
/// is 0, 4, 5, 7 or 8; it is 4 where the store isn't there, and none is made. The store stays as it is. Memory does not grow with the
/// number of lines.
pub fn run_ship<P: Place, O: Sink>(alloc: Global, place: &mut P, store: &str, out: &mut O) -> u8
    ensures report { WasReported P.Place O.Sink store.now WritesLines place.old place.new out.old out.new result }
    ensures keeps { KeepsStore P.Place store.now report_statuses (P.has place.old store.now) place.old place.new result }
    ensures still { CountStays P.Place (P.has place.old store.now) place.old place.new }
    ensures none { MakesNone P.Place store.now place.old place.new result }
    ensures steady { O.fails_no_more out.old → O.fails_no_more out.new × (Rose (O.state out.old).refusals (O.state out.new).refusals ⊎ (result ≢ 7)) }
{
    match open_existing_desk(alloc, place, store) {
        Ok(desk) => {
            let ending = write_lines(alloc, out, desk.book());
            place.close_keeper(store, desk.close());
            ending.status()
        }
        Err(ending) => refuse_opening(out, &ending),
    }
}
