ghost use Rattle.std.specs.Prelude.{◌≡◌, ℕ, List, [], Option, IfOk, IsOk, MatchResult, OnErr, OnOk};
ghost use Rattle.rv_keeper.specs.declared.loaded.Loaded.{Loaded};
ghost use Rattle.rv_keeper.specs.Keeping.{HasKeepCause, holding};
ghost use Rattle.rv_keeper.specs.Stores.{CallIsSteady, LeavesAsGiven, OpensWith, OthersStay, PlaceStays, TakesUp};

use crate::keeper::Keeper;
use rv_base::{Bytes, Fault};

/// Where the keepers of stores come from, by the stores' names, and go back to; and where accounts files are read.
pub trait Place {
    /// What keeps one store.
    type Kept: Keeper + Send;

    /// The place tells what its stores hold. One that has once stopped to tell does not tell again.
    ghost tells: { Self → Type 0 };

    /// The store of this name holds these cells and this generation. It is said where the place tells, of stores whose keepers
    /// are not out.
    ghost holds: { Self → List ℕ → Loaded → Type 0 };

    /// Of what a crash may leave of its stores the place says what is true. One that has once stopped to say it does not say it again.
    ghost honest: { Self → Type 0 };

    /// A crash now may leave of the store of this name these cells and this generation, or what is none. It is said where the
    /// place is honest, of stores whose keepers are not out.
    ghost may_leave: { Self → List ℕ → Option Loaded → Type 0 };

    /// The keeper of the store of this name is out. It is said where the place tells.
    ghost is_out: { Self → List ℕ → Type 0 };

    /// A store of this name is there. It is said where the place tells.
    ghost has: { Self → List ℕ → Type 0 };

    /// The accounts file of this name has these bytes. It is said where the place tells.
    ghost accounts: { Self → List ℕ → List ℕ → Type 0 };

    /// A place of this type knows what its accounts files have before they are read.
    ghost knows_files: { Type 0 };

    /// How often a call has failed, and how many keepers came back that had failed. It stands still at 2^64 - 1.
    ghost faults: { Self → ℕ };

    /// No call fails any more but of a store or a file that isn't there, and no call of a keeper that is given.
    ghost fails_no_more: { Self → Type 0 };

    /// How often a call has failed, and how many keepers came back that had failed.
    fn fault_count(&self) -> u64
        ensures { result ≡ faults self.now };

    /// The keeper of a store, which holds what the store holds; that of the store `memory` holds no cell, at generation 0,
    /// whatever was kept there before. Its count of faults is 0. A store that isn't there is made, with no cell. While the keeper
    /// is out, it alone tells of its store: that the place told before is known where the keeper tells.
    fn open_keeper(&mut self, name: &str) -> Result<Self::Kept, Fault>
        ensures tells { tells self.new → MatchResult result (λ kept. Self.Kept.tells kept → tells self.old) (λ fault. tells self.old) }
        ensures kept { tells self.new → IfOk result (λ kept. Self.Kept.tells kept → OpensWith name.now (holds self.old name.now) (Self.Kept.holds kept)) }
        ensures out { tells self.new → OnOk result (is_out self.new name.now) }
        ensures honest { honest self.new → MatchResult result (λ kept. Self.Kept.honest kept → honest self.old) (λ fault. honest self.old) }
        ensures crash { honest self.new → IfOk result (λ kept. Self.Kept.honest kept → LeavesAsGiven name.now (may_leave self.old name.now) (Self.Kept.may_leave kept)) }
        ensures others { tells self.new → OthersStay holds may_leave is_out has accounts name.now self.old self.new }
        ensures made { tells self.new → OnOk result (has self.new name.now) }
        ensures refused { tells self.new → OnErr result (PlaceStays holds may_leave is_out has accounts self.old self.new) }
        ensures fresh { IfOk result (λ kept. Self.Kept.faults kept ≡ 0) }
        ensures cause { HasKeepCause (faults self.old) (faults self.new) result }
        ensures steady { fails_no_more self.old → CallIsSteady (fails_no_more self.new) (Unit {0}) result × IfOk result Self.Kept.fails_no_more };

    /// The keeper of a store that is there, as of [`open_keeper`](Place::open_keeper). Of a store that isn't there it fails, and
    /// makes none. The store `memory` is always there.
    fn open_existing(&mut self, name: &str) -> Result<Self::Kept, Fault>
        ensures tells { tells self.new → MatchResult result (λ kept. Self.Kept.tells kept → tells self.old) (λ fault. tells self.old) }
        ensures kept { tells self.new → IfOk result (λ kept. Self.Kept.tells kept → OpensWith name.now (holds self.old name.now) (Self.Kept.holds kept)) }
        ensures out { tells self.new → OnOk result (is_out self.new name.now) }
        ensures honest { honest self.new → MatchResult result (λ kept. Self.Kept.honest kept → honest self.old) (λ fault. honest self.old) }
        ensures crash { honest self.new → IfOk result (λ kept. Self.Kept.honest kept → LeavesAsGiven name.now (may_leave self.old name.now) (Self.Kept.may_leave kept)) }
        ensures others { tells self.new → OthersStay holds may_leave is_out has accounts name.now self.old self.new }
        ensures there { tells self.new → IsOk result → has self.old name.now }
        ensures none_made { tells self.new → (other : List ℕ) → has self.new other → has self.old other }
        ensures refused { tells self.new → OnErr result (PlaceStays holds may_leave is_out has accounts self.old self.new) }
        ensures fresh { IfOk result (λ kept. Self.Kept.faults kept ≡ 0) }
        ensures cause { HasKeepCause (faults self.old) (faults self.new) result }
        ensures steady { fails_no_more self.old → CallIsSteady (fails_no_more self.new) (has self.old name.now) result × IfOk result Self.Kept.fails_no_more };

    /// Takes the keeper of a store back: the store then holds what the keeper holds. It can't fail, and takes no memory. The
    /// count of faults rises where the keeper has failed.
    fn close_keeper(&mut self, name: &str, kept: Self::Kept)
        requires { tells self.old → is_out self.old name.now }
        ensures tells { tells self.new → tells self.old × Self.Kept.tells kept }
        ensures kept { tells self.new → (held : Loaded) → Self.Kept.holds kept held → holds self.new name.now held }
        ensures honest { honest self.new → honest self.old × Self.Kept.honest kept }
        ensures crash { honest self.new → (left : Option Loaded) → may_leave self.new name.now left → Self.Kept.may_leave kept left }
        ensures others { tells self.new → OthersStay holds may_leave is_out has accounts name.now self.old self.new }
        ensures faults { TakesUp (Self.Kept.faults kept) (faults self.old) (faults self.new) }
        ensures steady { fails_no_more self.old → fails_no_more self.new };

    /// The bytes of the accounts file of this name, of any content. It fails where there is none. Nothing else changes.
    fn read_accounts(&mut self, name: &str) -> Result<Bytes, Fault>
        ensures tells { tells self.new → tells self.old }
        ensures honest { honest self.new → honest self.old }
        ensures reads { tells self.new → (file : List ℕ) → accounts self.old name.now file → IfOk result (λ bytes. bytes ≡ file) }
        ensures there { knows_files → tells self.new → IfOk result (λ bytes. accounts self.old name.now bytes) }
        ensures stays { tells self.new → PlaceStays holds may_leave is_out has accounts self.old self.new }
        ensures cause { HasKeepCause (faults self.old) (faults self.new) result }
        ensures steady { fails_no_more self.old → CallIsSteady (fails_no_more self.new) ((file : List ℕ) × accounts self.old name.now file) result };

    /// What fails no more tells.
    ghost steady_tells: { (place : Self) → fails_no_more place → tells place };

    /// What tells is honest.
    ghost tells_honestly: { (place : Self) → tells place → honest place };

    /// A store of a place that tells holds one thing.
    ghost holds_one: { (place : Self) (name : List ℕ) (one two : Loaded) → tells place → holds place name one → holds place name two → one ≡ two };

    /// A store that isn't there holds no cell, at generation 0, so it opens empty.
    ghost absent_is_empty: { (place : Self) (name : List ℕ) → tells place → ¬ has place name → holds place name (holding [] 0) };
}
