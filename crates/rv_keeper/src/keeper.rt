ghost use Rattle.std.specs.Prelude.{◌≡◌, ◌<◌, ◌-◌, ◌^◌, ◌⊎◌, ℕ, Option, Result, IsOk, IfOk, IsErrOf};
ghost use Rattle.rv_base.specs.Causes.{Rose};
ghost use Rattle.rv_base.specs.declared.outside.Failed.{Failed};
ghost use Rattle.rv_base.specs.declared.fault.Fault.{Fault};
ghost use Rattle.rv_base.specs.declared.fault.Fault.TheVariants.{Memory};
ghost use Rattle.rv_keeper.specs.declared.loaded.Loaded.{Loaded};
ghost use Rattle.rv_keeper.specs.Cells.{AreCells, AreChanges};
ghost use Rattle.rv_keeper.specs.Keeping.{LoadsHeld, Made, HasKeepCause, HasGenerationCause, KeepsSteady};
ghost use Rattle.rv_keeper.specs.Crashes.{IsHeld, IsMade, IsSettled, LeavesMore};

use crate::change::Change;
use crate::loaded::Loaded;
use rv_base::{Failed, Fault};

/// Where cells and a generation are kept.
pub trait Keeper {
    /// The keeper tells what it holds. One that has once stopped to tell does not tell again.
    ghost tells: { Self → Type 0 };

    /// These are the cells and the generation that are held. It is said where the keeper tells.
    ghost holds: { Self → Loaded → Type 0 };

    /// Of what a crash may leave the keeper says what is true. One that has once stopped to say it does not say it again.
    ghost honest: { Self → Type 0 };

    /// A crash now may leave these cells and this generation, or what is none. It is said where the keeper is honest.
    ghost may_leave: { Self → Option Loaded → Type 0 };

    /// A load: the keeper, what it answers, and the keeper that it leaves.
    ghost loads: { Self → Result Loaded Fault → Self → Type 0 };

    /// A question for the generation from this number: the keeper, the number, what it answers, and the keeper that it leaves.
    ghost asks: { Self → ℕ → Result ℕ Failed → Self → Type 0 };

    /// How often a call has failed, or was answered what can't be. It stands still at 2^64 - 1.
    ghost faults: { Self → ℕ };

    /// No call fails any more.
    ghost fails_no_more: { Self → Type 0 };

    /// How often a call has failed, or was answered what can't be.
    fn fault_count(&self) -> u64
        ensures { result ≡ faults self.now };

    /// The cells and the generation. The cells are on shelves from 1, in the order of shelves and then of keys, each place
    /// once; what is held otherwise is a fault, and `Failed`.
    fn load(&mut self) -> Result<Loaded, Fault>
        ensures loads { loads self.old result self.new }
        ensures order { IfOk result (λ loaded. AreCells loaded.cells) }
        ensures tells { tells self.new → tells self.old }
        ensures same { tells self.new → (held : Loaded) → holds self.old held → holds self.new held }
        ensures told { tells self.new → IfOk result (λ loaded. LoadsHeld loaded (holds self.old) (holds self.new)) }
        ensures honest { honest self.new → honest self.old × (IsOk result → tells self.new) }
        ensures clean { honest self.new → tells self.old → tells self.new ⊎ Rose (faults self.old) (faults self.new) }
        ensures crash { honest self.new → LeavesMore (may_leave self.old) (may_leave self.new) (IsHeld (tells self.old) (holds self.old)) }
        ensures settled { tells self.new → IsSettled (holds self.new) (may_leave self.new) }
        ensures cause { HasKeepCause (faults self.old) (faults self.new) result }
        ensures steady { fails_no_more self.old → KeepsSteady (fails_no_more self.new) result };

    /// The generation. It is `from` or the one after it, the generation that a commit from `from` leaves; any other answer
    /// is a fault. Takes no memory.
    fn generation(&mut self, from: u64) -> Result<u64, Failed>
        requires { from < 2 ^ 64 - 1 }
        ensures asks { asks self.old from result self.new }
        ensures tells { tells self.new → tells self.old }
        ensures same { tells self.new → (held : Loaded) → holds self.old held → holds self.new held }
        ensures told { tells self.new → IfOk result (λ n. (held : Loaded) → holds self.old held → held.generation ≡ n) }
        ensures honest { honest self.new → honest self.old × (IsOk result → tells self.new) }
        ensures clean { honest self.new → tells self.old → tells self.new ⊎ Rose (faults self.old) (faults self.new) }
        ensures crash { honest self.new → LeavesMore (may_leave self.old) (may_leave self.new) (IsHeld (tells self.old) (holds self.old)) }
        ensures settled { tells self.new → IsSettled (holds self.new) (may_leave self.new) }
        ensures cause { HasGenerationCause from (faults self.old) (faults self.new) result }
        ensures steady { fails_no_more self.old → fails_no_more self.new × IsOk result };

    /// Makes all the changes, and the generation is the one after `from`. Each place is named once. At `Failed` all is as
    /// before or as after `Ok`, and at `Memory` as before.
    fn commit(&mut self, from: u64, changes: &[Change]) -> Result<(), Fault>
        requires from { from < 2 ^ 64 - 1 }
        requires changes { AreChanges changes.now }
        ensures tells { tells self.new → tells self.old }
        ensures made { tells self.new → (held : Loaded) → holds self.old held → Made from changes.now result (holds self.new) held }
        ensures honest { honest self.new → honest self.old × (IsOk result → tells self.new) }
        ensures clean { honest self.new → tells self.old → tells self.new ⊎ Rose (faults self.old) (faults self.new) }
        ensures crash { honest self.new → LeavesMore (may_leave self.old) (may_leave self.new) (IsMade (tells self.old) (holds self.old) from changes.now) }
        ensures memory { honest self.new → IsErrOf result Memory → LeavesMore (may_leave self.old) (may_leave self.new) (λ left. ⊥) }
        ensures settled { tells self.new → IsSettled (holds self.new) (may_leave self.new) }
        ensures cause { HasKeepCause (faults self.old) (faults self.new) result }
        ensures steady { fails_no_more self.old → KeepsSteady (fails_no_more self.new) result };

    /// What fails no more tells.
    ghost steady_tells: { (keeper : Self) → fails_no_more keeper → tells keeper };

    /// What tells is honest.
    ghost tells_honestly: { (keeper : Self) → tells keeper → honest keeper };

    /// A keeper that tells holds one thing.
    ghost holds_one: { (keeper : Self) (one two : Loaded) → tells keeper → holds keeper one → holds keeper two → one ≡ two };
}
