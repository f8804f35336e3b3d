// Runs over stores that stay, and what they then hold.
use crate::case::Case;
use crate::running::{Finished, Pieces, run_alone};
use rv_base::Memory;
use rv_doubles::MemoryPlace;
use std::alloc::Global;
use std::sync::Wait;
use std::thread::Threads;
use trial_stage::Part::{Number, Text};
use trial_stage::{Stage, joined, store_text};

// What a store of a place holds.
fn held_text(alloc: Global, place: &MemoryPlace, name: &str) -> Result<String, Memory> {
    match place.store(name) {
        Some(store) => {
            let cells = store.shelves.cells(alloc)?;
            store_text(alloc, cells.as_slice(), store.generation)
        }
        None => joined(alloc, &[Text("no store\n")]),
    }
}

// How a run of the case ended, and the place that it left.
#[derive(Drop)]
struct Left {
    finished: Finished,
    place: MemoryPlace,
}

// Runs the case with this input over a place of its own.
fn run<R: Threads + Wait + Sync>(
    stage: &Stage<'_, R>,
    case: &Case,
    input: &[u8],
) -> Result<Left, Memory> {
    let mut place = case.new_place(stage.host.alloc())?;
    let pieces = Pieces::of(100_000);
    let finished = run_alone(stage, &case.words, &mut place, input, pieces)?;
    Ok(Left { finished, place })
}

/// `cells` runs the case, and prints the cells that its store then holds, each as `SHELF KEY BODY`, and the generation.
pub fn cells<R: Threads + Wait + Sync>(
    stage: &Stage<'_, R>,
    case: &Case,
) -> Result<String, Memory> {
    let left = run(stage, case, &case.input)?;
    held_text(stage.host.alloc(), &left.place, case.name())
}

// The generation of a store of a place: the length of the book that it is kept for.
fn generation(place: &MemoryPlace, name: &str) -> u64 {
    match place.store(name) {
        Some(store) => store.generation,
        None => 0,
    }
}

/// `length` runs the case, and prints the length of the book that its store is then kept for.
pub fn length<R: Threads + Wait + Sync>(
    stage: &Stage<'_, R>,
    case: &Case,
) -> Result<String, Memory> {
    let left = run(stage, case, &case.input)?;
    let length = generation(&left.place, case.name());
    joined(
        stage.host.alloc(),
        &[Text("length "), Number(length), Text("\n")],
    )
}

// Runs the case. From here on its store is what this left.
fn run_and_keep<R: Threads + Wait + Sync>(
    stage: &Stage<'_, R>,
    case: &mut Case,
) -> Result<Finished, Memory> {
    let left = run(stage, case, &case.input)?;
    case.take(stage.host.alloc(), &left.place)?;
    Ok(left.finished)
}

/// `keep` runs the case. From here on its store is what this left, and there is no input.
pub fn keep<R: Threads + Wait + Sync>(
    stage: &Stage<'_, R>,
    case: &mut Case,
) -> Result<String, Memory> {
    let _finished = run_and_keep(stage, case)?;
    case.input = Vec::new(stage.host.alloc());
    Ok(String::new(stage.host.alloc()))
}

// The words are to retire a group.
fn say_retirement(alloc: Global, case: &mut Case, group: &str) -> Result<(), Memory> {
    let words = joined(
        alloc,
        &[
            Text("rv retire "),
            Text(case.name()),
            Text(" "),
            Text(group),
        ],
    )?;
    case.say(alloc, words.as_str())
}

/// `retire GROUP` retires a group of the case's store, which is what this left from here on.
pub fn retire<R: Threads + Wait + Sync>(
    stage: &Stage<'_, R>,
    case: &mut Case,
    group: &str,
) -> Result<String, Memory> {
    let alloc = stage.host.alloc();
    say_retirement(alloc, case, group)?;
    run_and_keep(stage, case)?.joined(alloc)
}

// Runs the case in pieces of 7 bytes over the place that stays.
fn run_next<R: Threads + Wait + Sync>(
    stage: &Stage<'_, R>,
    case: &mut Case,
) -> Result<Finished, Memory> {
    let mut place = case.lasting_place(stage.host.alloc())?;
    let finished = case.run_in(stage, &mut place, Pieces::of(7));
    case.place = Some(place);
    finished
}

/// `next` runs the case in pieces of 7 bytes over a place that stays as it is left until the case ends, prints what is written and
/// the status, and leaves no input.
pub fn next<R: Threads + Wait + Sync>(
    stage: &Stage<'_, R>,
    case: &mut Case,
) -> Result<String, Memory> {
    let alloc = stage.host.alloc();
    let finished = run_next(stage, case)?;
    case.input = Vec::new(alloc);
    finished.joined(alloc)
}

/// `held NAME` prints the cells that the store of a name holds in the place that stays, as `cells` does.
pub fn held(alloc: Global, case: &mut Case, name: &str) -> Result<String, Memory> {
    let place = case.lasting_place(alloc)?;
    let text = held_text(alloc, &place, name);
    case.place = Some(place);
    text
}
