// Keeping what is prepared: the changes of cells that it makes are committed, and then it is entered. Settling what is in doubt: the
// keeper's generation tells whether it was kept.
ghost use Rattle.std.specs.Prelude.{◌≡◌, None, Some};
ghost use Rattle.rv_doubt.specs.Keeping.{IsKept, keep_trouble};
ghost use Rattle.rv_doubt.specs.Kept.{Assures, AreInStep, LeavesInStep, parts_served};
ghost use Rattle.rv_doubt.specs.Settling.{HasSettled, IsFound, settle_trouble};
ghost use Rattle.rv_state.specs.Ready.{IsPrepared, next_of};

use crate::doubt::leave_in_doubt;
use rv_base::{Failed, Fault};
use rv_keeper::Keeper;
use rv_state::{Prepared, State};
use rv_store::changes_for;
use rv_turns::Trouble;
use std::alloc::Global;

/// Commits what is changed, and enters what is prepared. All memory is taken before the commit. Where the keeper fails, it is in
/// doubt.
pub fn keep<K: Keeper>(
    alloc: Global,
    state: &mut State,
    doubt: &mut Option<Prepared>,
    keeper: &mut K,
    prepared: Prepared,
) -> Result<(), Fault>
    requires prepared { IsPrepared state.old prepared }
    requires settled { doubt.old ≡ None }
    requires in_step { AreInStep state.old doubt.old (K.tells keeper.old) (K.holds keeper.old) }
    requires left { LeavesInStep state.old doubt.old (K.honest keeper.old) (K.may_leave keeper.old) }
    ensures kept { IsKept (parts_served state.old doubt.old (K.faults keeper.old)) (next_of prepared) result (parts_served state.new doubt.new (K.faults keeper.new)) }
    ensures assured { Assures K.tells K.fails_no_more keeper.old (keep_trouble result) keeper.new }
    ensures in_step { AreInStep state.new doubt.new (K.tells keeper.new) (K.holds keeper.new) }
    ensures left { LeavesInStep state.new doubt.new (K.honest keeper.new) (K.may_leave keeper.new) }
{
    let changes = changes_for(alloc, state, &prepared)?;
    let from = u64::from(state.book().len());
    match keeper.commit(from, &changes) {
        Ok(()) => {
            state.enter(prepared);
            Ok(())
        }
        Err(Fault::Failed) => {
            leave_in_doubt(doubt, prepared);
            Err(Fault::Failed)
        }
        Err(Fault::Memory) => Err(Fault::Memory),
    }
}

/// Settles what is in doubt, if anything is: it is entered where it was kept, and dropped where it was not. Where the keeper
/// does not say so, it stays in doubt. Takes no memory.
pub fn settle<K: Keeper>(
    state: &mut State,
    doubt: &mut Option<Prepared>,
    keeper: &mut K,
) -> Result<(), Trouble>
    requires in_step { AreInStep state.old doubt.old (K.tells keeper.old) (K.holds keeper.old) }
    requires left { LeavesInStep state.old doubt.old (K.honest keeper.old) (K.may_leave keeper.old) }
    ensures settled { HasSettled (parts_served state.old doubt.old (K.faults keeper.old)) result (parts_served state.new doubt.new (K.faults keeper.new)) }
    ensures assured { Assures K.tells K.fails_no_more keeper.old (settle_trouble result) keeper.new }
    ensures found { IsFound K.asks state.old.book keeper.old (settle_trouble result) keeper.new }
    ensures in_step { AreInStep state.new doubt.new (K.tells keeper.new) (K.holds keeper.new) }
    ensures left { LeavesInStep state.new doubt.new (K.honest keeper.new) (K.may_leave keeper.new) }
{
    match doubt.take() {
        Some(prepared) => settle_one(state, doubt, keeper, prepared),
        None => Ok(()),
    }
}

// Settles this, which was in doubt: it is entered where it was kept, and dropped where it was not. Where the keeper does
// not say so, it stays in doubt.
#[tactic(auto, using(crate::proofs::Leaving::settled_in_step, crate::proofs::Leaving::left_as_held))]
fn settle_one<K: Keeper>(
    state: &mut State,
    doubt: &mut Option<Prepared>,
    keeper: &mut K,
    prepared: Prepared,
) -> Result<(), Trouble>
    requires none { doubt.old ≡ None }
    requires in_step { AreInStep state.old (Some prepared) (K.tells keeper.old) (K.holds keeper.old) }
    requires left { LeavesInStep state.old (Some prepared) (K.honest keeper.old) (K.may_leave keeper.old) }
    ensures settled { HasSettled (parts_served state.old (Some prepared) (K.faults keeper.old)) result (parts_served state.new doubt.new (K.faults keeper.new)) }
    ensures assured { Assures K.tells K.fails_no_more keeper.old (settle_trouble result) keeper.new }
    ensures found { IsFound K.asks state.old.book keeper.old (settle_trouble result) keeper.new }
    ensures in_step { AreInStep state.new doubt.new (K.tells keeper.new) (K.holds keeper.new) }
    ensures left { LeavesInStep state.new doubt.new (K.honest keeper.new) (K.may_leave keeper.new) }
{
    let kept = u64::from(state.book().len());
    match keeper.generation(kept) {
        Ok(found) => {
            if found == kept {
                return Ok(());
            }
            if found == kept + 1 {
                state.enter(prepared);
                return Ok(());
            }
            leave_in_doubt(doubt, prepared);
            Err(Trouble::Changed { kept, found })
        }
        Err(Failed) => {
            leave_in_doubt(doubt, prepared);
            Err(Trouble::Keeper)
        }
    }
}
