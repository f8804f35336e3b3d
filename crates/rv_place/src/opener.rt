ghost use Rattle.std.specs.Prelude.{◌≡◌, ℕ, List, IfOk, IsOk};
ghost use Rattle.rv_keeper.specs.declared.loaded.Loaded.{Loaded};
ghost use Rattle.rv_keeper.specs.Stores.{LeavesAsGiven, OpensWith};

use rv_base::{Bytes, Fault};
use rv_keeper::Keeper;

/// Who opens the store of a run, and reads its accounts file.
pub trait Opener {
    /// What stands for what the store's file held before. The opening uses it up.
    type Start: Drop;

    /// What keeps the store.
    type Kept: Keeper + Drop;

    /// The file of the store held this.
    ghost held: { Loaded → Type 0 };

    /// A store of this name was looked for, and was there.
    ghost found: { Self → List ℕ → Type 0 };

    /// Looks whether the store of this name is there. It fails where it isn't. Nothing is made.
    fn find(&self, name: &str) -> Result<(), Fault>
        ensures { IsOk result → found self.now name.now };

    /// The bytes of the file at a path.
    fn read_file(&self, path: &str) -> Result<Bytes, Fault>;

    /// Opens the store of this name, and makes it where it is not there. The store `memory` is a fresh one in memory, which holds no cell.
    /// What a crash leaves of a file before its cells were loaded once is not said.
    fn open(&self, name: &str, start: Self::Start) -> Result<Self::Kept, Fault>
        ensures fresh { IfOk result (λ kept. Self.Kept.faults kept ≡ 0) }
        ensures kept { IfOk result (λ kept. Self.Kept.tells kept → OpensWith name.now held (Self.Kept.holds kept)) }
        ensures crash { IfOk result (λ kept. LeavesAsGiven name.now (λ left. Unit {0}) (Self.Kept.may_leave kept)) };

    /// The file held one thing.
    ghost held_one: { (one two : Loaded) → held one → held two → one ≡ two };
}
