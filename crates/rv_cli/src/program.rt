// The program.
ghost use Rattle.std.specs.Prelude.{◌≡◌, ◌≢◌, ◌⊎◌, None, Ok, false};
ghost use Rattle.rv_base.specs.Causes.{Rose};
ghost use Rattle.rv_answering.specs.declared.line.Line.TheVariants.{Asks};
ghost use Rattle.rv_answering.specs.declared.request.Request.TheVariants.{Close, Retire};
ghost use Rattle.rv_cli.specs.Texts.{usage_text, status_text};
ghost use Rattle.rv_cli.specs.Headline.{AllAsk, WritesOnly};
ghost use Rattle.rv_cli.specs.Commands.{asked_by, asks_to_follow};
ghost use Rattle.rv_cli.specs.FeedPromise.{WasFed, feed_statuses};
ghost use Rattle.rv_cli.specs.ReplyPromises.{WasAnswered, reply_statuses};
ghost use Rattle.rv_cli.specs.StorePromise.{CountStays, KeepsStore};
ghost use Rattle.rv_cli.specs.Promises.{Obeys};
ghost use Rattle.rv_cli.specs.Running.{outside, ran};
ghost use Rattle.rv_cli.specs.Replying.{Replies, WritesReply};
ghost use Rattle.rv_cli.specs.Steadiness.{OutputIsSteady};
ghost use Rattle.rv_cli.specs.declared.ending.Ending.TheVariants as endings;

use crate::ending::Ending;
use crate::follow::run_follow;
use crate::import::run_import;
use crate::lines::feed;
use crate::make::run_make;
use crate::reports::{run_activity, run_check, run_export, run_lists, run_ship};
use crate::serve::run_serve;
use crate::store::{open_desk, refuse_opening};
use crate::texts::{write_answer, write_ending, write_usage};
use rv_answering::{Answer, close_book, retire_group};
use rv_base::{Failed, Id, Memory, Sink, Source};
use rv_desk::Desk;
use rv_keeper::{Keeper, Place};
use rv_net::{Listen, Net, PokeListen};
use rv_poke::PokeLink;
use rv_words::{Command, command_of};
use rv_workers::Crew;
use std::alloc::Global;
use std::sync::Wait;

/// Answers the lines of the input, each as it was read, from the book that the store keeps: the command `feed STORE`. The status is
/// 0, 4, 5, 6, 7, 8 or 10, as [`run`] says.
pub fn run_feed<P: Place, S: Source, O: Sink>(
    alloc: Global,
    place: &mut P,
    store: &str,
    input: &mut S,
    out: &mut O,
) -> u8
    // What is written are the answers of a run from the book that the store kept over the lines that were read, and the store keeps
    // the book that the run leaves. Where all lines are of the form, the status is none of a line that isn't.
    ensures feed { WasFed P.Place S.Source O.Sink store.now place.old place.new input.old input.new out.old out.new result }
    ensures complete { AllAsk (S.state input.old).left (result ≢ 10) }

    // The store is kept as by each command.
    ensures keeps { KeepsStore P.Place store.now feed_statuses (Unit {0}) place.old place.new result }
    ensures still { CountStays P.Place (Unit {0}) place.old place.new }

    // Over an input and an output that fail no more it is none of the faults, but for want of memory in the output.
    ensures steady_input { S.fails_no_more input.old → S.fails_no_more input.new × (result ≢ 6) }
    ensures steady_output { O.fails_no_more out.old → O.fails_no_more out.new × (Rose (O.state out.old).refusals (O.state out.new).refusals ⊎ (result ≢ 7)) }
{
    match open_desk(alloc, place, store) {
        Ok(desk) => {
            let (ending, keeper) = feed(alloc, desk, input, out);
            place.close_keeper(store, keeper);
            let _ = write_ending(out, &ending);
            ending.status()
        }
        Err(ending) => refuse_opening(out, &ending),
    }
}

// The answer of a desk to a retirement, with its keeper.
fn retired<K: Keeper>(desk: Desk<K>, group: &Id) -> (Answer, K)
    ensures retired { Replies K.Keeper desk (Asks (Ok (Retire group.now))) result }
    ensures steady { K.fails_no_more desk.keeper → K.fails_no_more result.1 × (K.faults result.1 ≡ K.faults desk.keeper) }
{
    let mut desk = desk;
    let answer = retire_group(&mut desk, group);
    (answer, desk.close())
}

// The answer of a desk to the closing of its book, with its keeper.
fn closed<K: Keeper>(desk: Desk<K>) -> (Answer, K)
    ensures closed { Replies K.Keeper desk (Asks (Ok Close)) result }
    ensures steady { K.fails_no_more desk.keeper → K.fails_no_more result.1 × (K.faults result.1 ≡ K.faults desk.keeper) }
{
    let mut desk = desk;
    let answer = close_book(&mut desk);
    (answer, desk.close())
}

// Writes the one answer of a run.
fn write_reply<O: Sink>(alloc: Global, out: &mut O, answer: &Answer) -> Ending
    ensures replies { WritesReply (O.state out.old) (O.state out.new) answer.now result }
    ensures steady { O.fails_no_more out.old → OutputIsSteady (O.fails_no_more out.new) (O.state out.old).refusals (O.state out.new).refusals result }
{
    match write_answer(alloc, out, answer) {
        Ok(()) => Ending::Done,
        Err(Failed) => Ending::Write,
    }
}

/// Retires a client group of the book that the store keeps: the command `retire STORE GROUP`. The status is 0, 4, 5, 7 or 8.
pub fn run_retire<P: Place, O: Sink>(
    alloc: Global,
    place: &mut P,
    store: &str,
    group: &Id,
    out: &mut O,
) -> u8
    // What is written is the answer at the book that the store kept, and the store keeps the book that it leaves.
    ensures answered { WasAnswered P.Place O.Sink store.now (Asks (Ok (Retire group.now))) place.old place.new out.old out.new result }
    ensures keeps { KeepsStore P.Place store.now reply_statuses (Unit {0}) place.old place.new result }
    ensures still { CountStays P.Place (Unit {0}) place.old place.new }
    ensures steady { O.fails_no_more out.old → O.fails_no_more out.new × (Rose (O.state out.old).refusals (O.state out.new).refusals ⊎ (result ≢ 7)) }
{
    match open_desk(alloc, place, store) {
        Ok(desk) => {
            let (answer, keeper) = retired(desk, group);
            place.close_keeper(store, keeper);
            write_reply(alloc, out, &answer).status()
        }
        Err(ending) => refuse_opening(out, &ending),
    }
}

/// Closes the book that the store keeps: the command `close-book STORE`. The status is 0, 4, 5, 7 or 8.
pub fn run_close<P: Place, O: Sink>(alloc: Global, place: &mut P, store: &str, out: &mut O) -> u8
    // What is written is the answer at the book that the store kept, and the store keeps the book that it leaves.
    ensures answered { WasAnswered P.Place O.Sink store.now (Asks (Ok Close)) place.old place.new out.old out.new result }
    ensures keeps { KeepsStore P.Place store.now reply_statuses (Unit {0}) place.old place.new result }
    ensures still { CountStays P.Place (Unit {0}) place.old place.new }
    ensures steady { O.fails_no_more out.old → O.fails_no_more out.new × (Rose (O.state out.old).refusals (O.state out.new).refusals ⊎ (result ≢ 7)) }
{
    match open_desk(alloc, place, store) {
        Ok(desk) => {
            let (answer, keeper) = closed(desk);
            place.close_keeper(store, keeper);
            write_reply(alloc, out, &answer).status()
        }
        Err(ending) => refuse_opening(out, &ending),
    }
}

// The words are no line of the command set.
fn refuse_words<O: Sink>(out: &mut O) -> u8
    ensures status { result ≡ 2 }
    ensures text { WritesOnly (O.state out.old) (O.state out.new) usage_text }
    ensures steady { O.fails_no_more out.old → O.fails_no_more out.new }
{
    let _ = write_usage(out);
    2
}

// Memory was refused in reading the words.
fn give_up<O: Sink>(out: &mut O) -> u8
    ensures status { result ≡ 8 }
    ensures text { WritesOnly (O.state out.old) (O.state out.new) (status_text endings.Memory) }
    ensures steady { O.fails_no_more out.old → O.fails_no_more out.new }
{
    let _ = write_ending(out, &Ending::Memory);
    8
}

/// Does what the words say, and answers the status of the process.
///
/// The first word is the program's name and is not read. `feed STORE` answers the lines of the input, each as it was read, from the
/// book that the store keeps; `serve STORE` answers the requests of connections so, which workers serve side by side, and pokes clients;
/// `retire STORE GROUP` retires a client group there, and `close-book STORE` closes the book; `lists STORE`, `activity STORE` and `check STORE` are reports of the store,
/// which stays as it is, and so is `export STORE USER`, the rows that the user sees as CSV; `make SEED N` tells what comes of N
/// requests that a seed makes over a fresh store in memory, and touches no other. `ship STORE` writes the book as lines, and `follow --port PORT` takes such lines from one
/// connection and answers pulls on it. `import STORE USER NAME` reads the input whole, which
/// is CSV, and enters a todo of the user for each of its records. STORE is `memory`, which begins empty, or the name of a store of the
/// place.
///
/// Status 0: the input was read to its end, and all that was asked is answered. 2: the words are no line of the command set. 3: the
/// accounts file is not of the form. 4: the place or the keeper failed in opening, the accounts file could not be read, or a report
/// is asked of a store that isn't there. 5: the store is damaged, first at this shelf and key. 6: a read failed. 7: a write failed.
/// 8: memory was refused outside a request. 9: the net failed. 10: the line that is named is not of the form, or of `follow` may not
/// come next. 11: the CSV has more than
/// 16,777,216 bytes, or the record that is named is not of the form. 12: a record was refused as the line says. Each but 0 and 7 has a
/// text of its own, which is written last.
pub fn run<R: Wait + Sync, P: Place, S: Source, O: Sink, N: Net, C: Crew>(
    alloc: Global,
    runtime: &R,
    words: &[String],
    place: &mut P,
    input: &mut S,
    out: &mut O,
    net: &mut N,
    crew: &mut C,
) -> u8
where
    <N::Listen as Listen>::In: Send,
    <N::Listen as Listen>::Out: Send,
    <N::Pokes as PokeListen>::Link: PokeLink + Send,
    // What the words ask for is done as its command promises; or memory was refused in reading them.
    ensures command { Obeys (outside P.Place P.Kept.Keeper S.Source O.Sink N.Net N.Listen.Listen N.Listen.In.Source N.Listen.Out.Sink N.Pokes.PokeListen N.Pokes.Link.PokeLink)
        words.now (ran place.old place.new input.old input.new out.old out.new net.old net.new result) }
    ensures usage { result ≡ 2 → asked_by words.now ≡ None }

    // A fault is told exactly where one rose, but for a write of a status's own text that failed. Reads and writes of `follow` are those
    // of its connection, of which its own promise tells.
    ensures keeper { result ≡ 4 → Rose (P.faults place.old) (P.faults place.new) }
    ensures net { result ≡ 9 → Rose (N.faults net.old) (N.faults net.new) }
    ensures read { asks_to_follow words.now ≡ false → result ≡ 6 → Rose (S.state input.old).faults (S.state input.new).faults }
    ensures read_told { result ≡ 6 ⊎ (S.state input.new).faults ≡ (S.state input.old).faults }
    ensures write { asks_to_follow words.now ≡ false → result ≡ 7 → Rose (O.state out.old).faults (O.state out.new).faults }
    ensures write_told { result ≡ 7 ⊎ (O.state out.new).faults ≡ (O.state out.old).faults ⊎ ((result ≢ 0) × Rose (O.state out.old).faults (O.state out.new).faults) }

    // Over an input and an output that fail no more it is none of the faults, but for want of memory in the output.
    ensures steady_input { S.fails_no_more input.old → S.fails_no_more input.new × (asks_to_follow words.now ≡ false → result ≢ 6) }
    ensures steady_output { O.fails_no_more out.old → O.fails_no_more out.new × (asks_to_follow words.now ≡ false → Rose (O.state out.old).refusals (O.state out.new).refusals ⊎ (result ≢ 7)) }
{
    let command = match command_of(alloc, words) {
        Ok(Some(command)) => command,
        Ok(None) => return refuse_words(out),
        Err(Memory) => return give_up(out),
    };
    match command {
        Command::Feed { store } => run_feed(alloc, place, store.as_str(), input, out),
        Command::Retire { store, group } => run_retire(alloc, place, store.as_str(), &group, out),
        Command::CloseBook { store } => run_close(alloc, place, store.as_str(), out),
        Command::Lists { store } => run_lists(alloc, place, store.as_str(), out),
        Command::Activity { store } => run_activity(alloc, place, store.as_str(), out),
        Command::Check { store } => run_check(alloc, place, store.as_str(), out),
        Command::Ship { store } => run_ship(alloc, place, store.as_str(), out),
        Command::Export { store, user } => run_export(alloc, place, store.as_str(), &user, out),
        Command::Import { store, user, name } => {
            run_import(alloc, place, store.as_str(), &user, &name, input, out)
        }
        Command::Make { seed, requests } => run_make(alloc, seed, requests, out),
        Command::Serve { store, options } => run_serve(
            alloc,
            runtime,
            crew,
            place,
            store.as_str(),
            &options,
            out,
            net,
        ),
        Command::Follow { port } => run_follow(alloc, port, out, net),
    }
}
