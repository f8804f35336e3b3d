// Lines that are answered over a SQLite database on two disks in memory.
use crate::answering::{fed, held_text};
use crate::failing::FailingKeeper;
use crate::feeding::{draw_all, plan_of, played_over};
use crate::schedules::{Troubles, schedule, troubles_of};
use rv_base::Memory;
use rv_keeper::{Keeper, MemoryKeeper};
use rv_sqlite::SqliteKeeper;
use sqlite::{Connection, FileStore, Files, Options};
use sqlite_disk::Memory as MemoryDisk;
use std::alloc::Global;
use trial_stage::Part::Text;
use trial_stage::joined;

// A store that a database on two disks in memory keeps.
type Store = FileStore<MemoryDisk>;

// The connection to a database on two empty disks.
fn on_disks(alloc: Global) -> Result<Connection<Store>, Memory> {
    let disks = Files {
        log: MemoryDisk::new(alloc),
        db: MemoryDisk::new(alloc),
    };
    match Connection::open_files(alloc, disks, Options::new(1)) {
        Ok(connection) => Ok(connection),
        Err(_) => Err(Memory),
    }
}

// The keeper of such a database.
fn given(alloc: Global) -> Result<SqliteKeeper<Store>, Memory> {
    Ok(SqliteKeeper::adopt(alloc, on_disks(alloc)?))
}

// What lines were answered, and what the store then held.
#[derive(Drop)]
struct Ended {
    told: String,
    held: String,
}

// Answers lines over a keeper with the troubles of words.
fn played<K: Keeper + Drop>(
    alloc: Global,
    kept: K,
    words: &str,
    lines: &str,
) -> Result<Ended, Memory> {
    let keeper = FailingKeeper::new(kept, troubles_of(alloc, words)?);
    let (told, mut keeper) = fed(alloc, keeper, lines);
    let told = told?;
    let held = held_text(alloc, &mut keeper)?;
    Ok(Ended { told, held })
}

// Whether the lines were answered the same over both, and both hold the same.
fn sameness(one: &Ended, other: &Ended) -> &'static str {
    if one.told.as_str() != other.told.as_str() {
        return "other answers\n";
    }
    if one.held.as_str() != other.held.as_str() {
        return "other cells\n";
    }
    "the same answers, the same cells\n"
}

// The lines, with a stop after each.
fn with_stops(alloc: Global, lines: &str) -> Result<String, Memory> {
    let mut stopped = String::new(alloc);
    for line in lines.lines() {
        stopped.push_str(line)?;
        stopped.push_str("\n{\"stop\":true}\n")?;
    }
    Ok(stopped)
}

// Answers lines over a keeper in memory and over one of a database, with the troubles of words.
fn beside(alloc: Global, words: &str, lines: &str) -> Result<String, Memory> {
    let memory = MemoryKeeper::new(alloc, Vec::new(alloc));
    let one = played(alloc, memory, words, lines)?;
    let other = played(alloc, given(alloc)?, words, lines)?;
    joined(alloc, &[Text(sameness(&one, &other))])
}

/// `databases`: whether the lines, with a stop after each, are answered the same over a keeper in memory as over a database on disks, and
/// whether both then hold the same cells at the same generation. `databases CALLS`: the same of the lines as they are, over keepers with
/// these troubles, as `before3,generation1`.
pub fn compared(alloc: Global, lines: &str, words: &str) -> Result<Option<String>, Memory> {
    if words.is_empty() {
        let lines = with_stops(alloc, lines)?;
        return Ok(Some(beside(alloc, words, lines.as_str())?));
    }
    Ok(Some(beside(alloc, words, lines)?))
}

/// `SEED N FAILS STOPS`, or with a fifth number: as `drawn`, of lines that are answered over a database on disks.
pub fn generated(alloc: Global, words: &str) -> Result<Option<String>, Memory> {
    let Some(plan) = plan_of(words) else {
        return Ok(None);
    };
    let drawn = draw_all(alloc, plan)?;
    let troubles = Troubles::of(schedule(alloc, plan.seed, plan.fails)?);
    let keeper = FailingKeeper::new(given(alloc)?, troubles);
    Ok(Some(played_over(alloc, keeper, &drawn)?))
}
