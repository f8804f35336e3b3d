// Runs of the requests that a seed makes.
ghost use Rattle.std.specs.Prelude.{◌≡◌, [], length, IfOk, OnOk};
ghost use Rattle.rv_desk.specs.DeskStates.{served};
ghost use Rattle.rv_keeper.specs.Keeping.{holding};
ghost use Rattle.rv_make.specs.Answered.{lacked_memory, no_counts, MayCount};
ghost use Rattle.rv_make.specs.Devices.{first_devices, told_so};
ghost use Rattle.rv_make.specs.Plays.{Plays, fresh, IsSummary};
ghost use Rattle.rv_make.specs.Playing.{PlaysAll, PlaysOne};
ghost use Rattle.rv_make.specs.Threes.{held_by, with_held};

use crate::asking::take;
use crate::counts::{AnswerCounts, lacked_memory};
use crate::devices::{Device, first_devices, keep_cookie};
use crate::generator::Generator;
use crate::made::MadeRequest;
use crate::summary::Summary;
use crate::three::Three;
use rv_base::Memory;
use rv_desk::{Desk, OpenFault};
use rv_keeper::{Keeper, MemoryKeeper};
use rv_rows::Tables;
use rv_turns::Outcome;
use std::alloc::Global;

// Keeps what came of a request of the user of this number: the cookie that was answered, if one was.
#[tactic(auto, using(crate::proofs::PlayLaws::held_again))]
fn keep(devices: &mut Three<Device>, user: u32, outcome: Outcome)
    ensures { devices.new ≡ with_held user (told_so (held_by user devices.old) outcome) devices.old }
{
    match outcome {
        Outcome::Pulled(reply) => keep_cookie(devices, user, reply.cookie),
        Outcome::Acted(_) => {}
        Outcome::Skipped(_) => {}
        Outcome::Retired(_) => {}
        Outcome::Closed(_) => {}
        Outcome::Refused(_) => {}
    }
}

// Takes the turn of a request, counts what came of it, and keeps the cookie that was answered. Fails where memory is refused.
fn play_one<K: Keeper>(
    alloc: Global,
    desk: &mut Desk<K>,
    devices: &mut Three<Device>,
    counts: &mut AnswerCounts,
    request: MadeRequest,
) -> Result<(), Memory>
    requires { MayCount counts.old }
    ensures { OnOk result (PlaysOne K.Keeper desk.old devices.old counts.old request desk.new devices.new counts.new) }
{
    let user = request.user_number();
    let outcome = take(alloc, desk, devices, request)?;
    if lacked_memory(&outcome) {
        return Err(Memory);
    }
    *counts = counts.after(&outcome);
    keep(devices, user, outcome);
    Ok(())
}

// How many rows there are: a byte for each, so that a slice bounds their number.
fn count_rows(alloc: Global, tables: &Tables) -> Result<u64, Memory>
    ensures { IfOk result (λ count. count ≡ length tables.now.rows) }
{
    let mut marks: Vec<u8> = Vec::new(alloc);
    for (_row, _version) in tables.iter() {
        marks.push(0)?;
    }
    Ok(marks.len() as u64)
}

// The summary of a run of so many requests that were answered so.
fn summary_of<K: Keeper>(
    alloc: Global,
    desk: &Desk<K>,
    requests: u32,
    counts: AnswerCounts,
) -> Result<Summary, Memory>
    ensures { IfOk result (λ summary. IsSummary requests counts desk.now.book summary) }
{
    let rows = count_rows(alloc, desk.tables())?;
    Ok(Summary {
        requests,
        acted: counts.acted,
        skipped: counts.skipped,
        looks: counts.looks,
        same: counts.same,
        entries: desk.book().len(),
        rows,
    })
}

// Takes the turns of the first `n` requests that a seed makes, from the first scene on.
fn play_all<K: Keeper>(
    alloc: Global,
    desk: &mut Desk<K>,
    devices: &mut Three<Device>,
    counts: &mut AnswerCounts,
    seed: u32,
    n: u32,
) -> Result<(), Memory>
    requires fresh { served K.faults desk.old ≡ fresh }
    requires devices { devices.old ≡ first_devices }
    requires counts { counts.old ≡ no_counts }
    requires steady { K.fails_no_more desk.old.keeper }
    ensures { OnOk result (PlaysAll K.Keeper seed n devices.new counts.new desk.new) }
{
    let mut generator = Generator::new(seed);
    for _index in 0..n {
        let request = generator.next(alloc)?;
        play_one(alloc, desk, devices, counts, request)?;
    }
    Ok(())
}

// The summary of the first `n` requests that a seed makes, at a desk that has taken none.
fn play_at<K: Keeper>(
    alloc: Global,
    desk: &mut Desk<K>,
    seed: u32,
    n: u32,
) -> Result<Summary, Memory>
    requires fresh { served K.faults desk.old ≡ fresh }
    requires steady { K.fails_no_more desk.old.keeper }
    ensures { IfOk result (λ summary. Plays seed n summary) }
{
    let mut devices = first_devices(alloc)?;
    let mut counts = AnswerCounts::none();
    play_all(alloc, desk, &mut devices, &mut counts, seed, n)?;
    summary_of(alloc, desk, n, counts)
}

// The desk of a keeper that holds nothing and fails at no call.
fn open_fresh<K: Keeper + Drop>(alloc: Global, keeper: K) -> Result<Desk<K>, Memory>
    requires holds { K.holds keeper (holding [] 0) }
    requires steady { K.fails_no_more keeper }
    requires faults { K.faults keeper ≡ 0 }
    ensures fresh { IfOk result (λ desk. served K.faults desk ≡ fresh) }
    ensures steady { IfOk result (λ desk. K.fails_no_more desk.keeper) }
{
    match Desk::open(alloc, keeper, u32::MAX) {
        Ok(desk) => Ok(desk),
        Err((OpenFault::Memory, _keeper)) => Err(Memory),
        Err((OpenFault::Keeper, _keeper)) => unreachable!(),
        Err((OpenFault::Damaged(_), _keeper)) => unreachable!(),
    }
}

/// Runs the first `n` requests that a seed makes over a fresh store in memory, one turn each, and tells how they were answered. Its
/// memory grows with the book alone.
pub fn play(alloc: Global, seed: u32, n: u32) -> Result<Summary, Memory>
    ensures { IfOk result (λ summary. Plays seed n summary) }
{
    let keeper = MemoryKeeper::new(alloc, Vec::new(alloc));
    let mut desk = open_fresh(alloc, keeper)?;
    let summary = play_at(alloc, &mut desk, seed, n);
    let _keeper = desk.close();
    summary
}
