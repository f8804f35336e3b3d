// The turns of an import.
ghost use Rattle.std.specs.Prelude.{◌≡◌, ◌<◌, ◌≤◌, ◌-◌, ◌^◌, length};
ghost use Rattle.rv_turns.specs.Asks.{Ask};
ghost use Rattle.rv_import.specs.Imports.{asked_of, import_limit};
ghost use Rattle.rv_import.specs.Importing.{Imported, Imports, importer, is_skipped};
ghost use Rattle.rv_import.specs.Steps.{EndsRefused, counts_after};

use crate::import_end::{ImportCounts, ImportEnd};
use crate::import_records::{ImportRecords, Stop};
use crate::importing::{ImportName, import_group};
use rv_base::{Id, Memory, User};
use rv_turns::{Asked, Mutation, Outcome, Refusal, Turns};
use std::alloc::Global;

// The most bytes that an import has.
const LIMIT: usize = 16_777_216;

// Takes the turn of a mutation of a group.
fn take<T: Turns>(turns: &mut T, user: &User, group: &Id, mutation: Mutation) -> Outcome
    ensures { T.takes turns.old (Ask.mutation (record { user = user.now; group = group.now }) mutation) result turns.new }
{
    let Mutation { client, id, call } = mutation;
    turns.take(Asked::Mutation {
        user,
        group,
        client: &client,
        id,
        call,
    })
}

fn is_skipped(outcome: &Outcome) -> bool
    ensures { result ≡ is_skipped outcome.now }
{
    matches!(outcome, Outcome::Skipped(_))
}

// The counts after one more outcome.
fn counted(counts: ImportCounts, outcome: &Outcome) -> ImportCounts
    requires records { counts.records < 2 ^ 32 - 1 }
    requires acted { counts.acted ≤ counts.records }
    requires skipped { counts.skipped ≤ counts.records }
    ensures { result ≡ counts_after counts outcome.now }
{
    ImportCounts {
        records: counts.records + 1,
        acted: counts.acted + u32::from(outcome.has_acted()),
        skipped: counts.skipped + u32::from(is_skipped(outcome)),
    }
}

// How an import ends at this refusal.
fn refused_end(refusal: Refusal) -> ImportEnd
    ensures { EndsRefused refusal result }
{
    match refusal {
        Refusal::Memory => ImportEnd::Memory,
        other => ImportEnd::Refused(other),
    }
}

// Takes the turns of these mutations in order, up to the first refusal.
fn take_each<T: Turns>(
    alloc: Global,
    turns: &mut T,
    user: &User,
    group: &Id,
    mut records: ImportRecords<'_>,
) -> ImportEnd
    requires { length records.mutations < 2 ^ 32 }
    ensures { Imported T.takes (record { user = user.now; group = group.now }) records.entry turns.old result turns.new }
{
    let mut counts = ImportCounts {
        records: 0,
        acted: 0,
        skipped: 0,
    };
    loop {
        let mutation = match records.next(alloc) {
            Ok(mutation) => mutation,
            Err(Stop::End) => return ImportEnd::Done(counts),
            Err(Stop::BadRecord(number)) => return ImportEnd::BadRecord(number),
            Err(Stop::Memory) => return ImportEnd::Memory,
        };
        let outcome = take(turns, user, group, mutation);
        if let Some(refusal) = outcome.refusal() {
            return refused_end(refusal);
        }
        counts = counted(counts, &outcome);
    }
}

// Takes the turns of an import that is not too large.
fn take_all<T: Turns>(
    alloc: Global,
    turns: &mut T,
    user: &User,
    name: &ImportName,
    bytes: &[u8],
) -> ImportEnd
    requires { length bytes.now ≤ import_limit }
    ensures { Imported T.takes (importer user.now) (asked_of user.now name.now bytes.now) turns.old result turns.new }
{
    let Ok(group) = import_group(alloc, user) else {
        return ImportEnd::Memory;
    };
    match ImportRecords::new(alloc, user, name, bytes) {
        Ok(Some(records)) => take_each(alloc, turns, user, &group, records),
        Ok(None) => ImportEnd::BadRecord(0),
        Err(Memory) => ImportEnd::Memory,
    }
}

/// Imports todos from CSV for a user, under a name. The first record is the header `list,text,complete`, and each record after it
/// is one mutation of the client `csv/USER/NAME` in the group `csv/USER`, whose number is the record's: a new todo, or
/// `Void(BadArgs)` where its fields are not of the sizes and forms. So a file that is imported twice acts once.
///
/// The turns are taken in order, up to the first record that is not three fields of UTF-8 or the first refusal. Memory does not grow
/// with the number of records.
pub fn import<T: Turns>(
    alloc: Global,
    turns: &mut T,
    user: &User,
    name: &ImportName,
    bytes: &[u8],
) -> ImportEnd
    ensures { Imports T.takes user.now name.now bytes.now turns.old result turns.new }
{
    if bytes.len() > LIMIT {
        return ImportEnd::TooLarge;
    }
    take_all(alloc, turns, user, name, bytes)
}
