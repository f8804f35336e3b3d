// The desk of a store, a check of one, and why a store did not open.
ghost use Rattle.std.specs.Prelude.{◌≡◌, IsOk};
ghost use Rattle.rv_cli.specs.Texts.{status_of, status_text};
ghost use Rattle.rv_cli.specs.Headline.{WritesOnly};
ghost use Rattle.rv_keeper.specs.Stores.{OthersStay};
ghost use Rattle.rv_cli.specs.Steadiness.{CheckIsSteady, DeskIsSteady};
ghost use Rattle.rv_cli.specs.Storing.{OpensKept, OpensStore, ToldBefore};
ghost use Rattle.rv_cli.specs.Reporting.{ChecksKept, ChecksStore};

use crate::ending::Ending;
use crate::texts::write_ending;
use rv_base::Sink;
use rv_book::BOOK_LIMIT;
use rv_desk::Desk;
use rv_keeper::Place;
use rv_report::{CheckAnswer, check};
use std::alloc::Global;

// The desk of the store's keeper; or why there is none, and then the keeper is back.
fn open_kept<P: Place>(
    alloc: Global,
    place: &mut P,
    store: &str,
    kept: P::Kept,
) -> Result<Desk<P::Kept>, Ending>
    requires { P.tells place.old → P.is_out place.old store.now }
    ensures opens { OpensKept P.Place P.Kept.Keeper store.now kept place.old result place.new }
    ensures told { P.tells place.new → P.tells place.old }
    ensures others { P.tells place.new → OthersStay P.holds P.may_leave P.is_out P.has P.accounts store.now place.old place.new }
    ensures steady { P.fails_no_more place.old → P.Kept.fails_no_more kept → P.Kept.faults kept ≡ 0 → P.fails_no_more place.new × (P.faults place.new ≡ P.faults place.old) × DeskIsSteady P.Kept.fails_no_more P.Kept.faults result }
{
    match Desk::open(alloc, kept, BOOK_LIMIT) {
        Ok(desk) => Ok(desk),
        Err((fault, keeper)) => {
            place.close_keeper(store, keeper);
            Err(Ending::of_fault(fault))
        }
    }
}

/// Opens the desk of a store. Where it does not open, the keeper is given back.
pub(crate) fn open_desk<P: Place>(
    alloc: Global,
    place: &mut P,
    store: &str,
) -> Result<Desk<P::Kept>, Ending>
    ensures opens { OpensStore P.Place P.Kept.Keeper store.now place.old result place.new }
    ensures told { ToldBefore P.Place P.Kept.Keeper place.old result place.new }
    ensures others { P.tells place.new → OthersStay P.holds P.may_leave P.is_out P.has P.accounts store.now place.old place.new }
    ensures steady { P.fails_no_more place.old → P.fails_no_more place.new × (P.faults place.new ≡ P.faults place.old) × DeskIsSteady P.Kept.fails_no_more P.Kept.faults result }
{
    let kept = place.open_keeper(store)?;
    open_kept(alloc, place, store, kept)
}

/// Opens the desk of a store that is there. Where it is not there, or does not open, none is made, and a keeper is given back.
pub(crate) fn open_existing_desk<P: Place>(
    alloc: Global,
    place: &mut P,
    store: &str,
) -> Result<Desk<P::Kept>, Ending>
    ensures opens { OpensStore P.Place P.Kept.Keeper store.now place.old result place.new }
    ensures there { P.tells place.new → IsOk result → P.has place.old store.now }
    ensures none_made { P.tells place.new → P.has place.new store.now → P.has place.old store.now }
    ensures others { P.tells place.new → OthersStay P.holds P.may_leave P.is_out P.has P.accounts store.now place.old place.new }
    ensures steady { P.fails_no_more place.old → P.has place.old store.now → P.fails_no_more place.new × (P.faults place.new ≡ P.faults place.old) × DeskIsSteady P.Kept.fails_no_more P.Kept.faults result }
{
    let kept = place.open_existing(store)?;
    open_kept(alloc, place, store, kept)
}

// What a check of the store's keeper finds, which then is back.
fn check_kept<P: Place>(
    alloc: Global,
    place: &mut P,
    store: &str,
    kept: P::Kept,
) -> Result<u32, Ending>
    requires { P.tells place.old → P.is_out place.old store.now }
    ensures checks { ChecksKept P.Place P.Kept.Keeper store.now kept place.old result place.new }
    ensures told { P.tells place.new → P.tells place.old }
    ensures others { P.tells place.new → OthersStay P.holds P.may_leave P.is_out P.has P.accounts store.now place.old place.new }
    ensures steady { P.fails_no_more place.old → P.Kept.fails_no_more kept → P.Kept.faults kept ≡ 0 → P.fails_no_more place.new × (P.faults place.new ≡ P.faults place.old) × CheckIsSteady result }
{
    let (answer, keeper) = check(alloc, kept);
    place.close_keeper(store, keeper);
    match answer {
        CheckAnswer::Sound(entries) => Ok(entries),
        CheckAnswer::Damaged(damage) => Err(Ending::Damaged(damage)),
        CheckAnswer::Keeper => Err(Ending::Keeper),
        CheckAnswer::Memory => Err(Ending::Memory),
    }
}

/// How many entries the book has that the store is kept as, which is there; or why it is kept as none.
pub(crate) fn check_store<P: Place>(
    alloc: Global,
    place: &mut P,
    store: &str,
) -> Result<u32, Ending>
    ensures checks { ChecksStore P.Place store.now place.old result place.new }
    ensures there { P.tells place.new → IsOk result → P.has place.old store.now }
    ensures none_made { P.tells place.new → P.has place.new store.now → P.has place.old store.now }
    ensures others { P.tells place.new → OthersStay P.holds P.may_leave P.is_out P.has P.accounts store.now place.old place.new }
    ensures steady { P.fails_no_more place.old → P.has place.old store.now → P.fails_no_more place.new × (P.faults place.new ≡ P.faults place.old) × CheckIsSteady result }
{
    let kept = place.open_existing(store)?;
    check_kept(alloc, place, store, kept)
}

/// Why a store did not open, as the status's text.
pub(crate) fn refuse_opening<O: Sink>(out: &mut O, ending: &Ending) -> u8
    ensures status { result ≡ status_of ending.now }
    ensures text { WritesOnly (O.state out.old) (O.state out.new) (status_text ending.now) }
    ensures steady { O.fails_no_more out.old → O.fails_no_more out.new }
{
    let _ = write_ending(out, ending);
    ending.status()
}
