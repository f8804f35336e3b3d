ghost use Rattle.std.specs.Prelude.{◌≡◌, ◌≤◌, IfOk, IsOk, MatchResult, OnErr, OnOk};
ghost use Rattle.rv_base.specs.Causes.{Rose};
ghost use Rattle.rv_keeper.specs.Keeping.{HasKeepCause};
ghost use Rattle.rv_keeper.specs.Stores.{LeavesAsGiven, OpensWith, OthersStay, PlaceStays, TakesUp};
ghost use Rattle.rv_place.specs.declared.opened.Opened.TheVariants.{Not};
ghost use Rattle.rv_place.specs.Places.{Opens, PlaceFile, PlaceHas, PlaceHolds, PlaceLeaves, PlaceOut, PlaceTells, TakesBack, keeper_back};
ghost use Rattle.rv_place.specs.PlaceLaws.{opened_honestly, opened_one};

use crate::opened::Opened;
use crate::opener::Opener;
use rv_base::{Bytes, Fault};
use rv_keeper::{Keeper, Place};
use std::alloc::Global;
use std::mem;

/// The stores of a run, which opens one of them, and once. What accounts files have is not told before they are read, and of a store that is
/// not opened it is not told whether it is there. The count of faults stands still at 2^64 - 1.
///
/// It tells what the store holds: until it is opened what its opener says that its file held, while its keeper is out as that tells, and then
/// what its keeper held as it came back.
#[derive(Drop)]
pub struct RunPlace<O, S, K> {
    alloc: Global,
    opener: O,
    opened: Opened<S, K>,
    faults: u64,
}

impl<S: Drop, K: Keeper + Drop, O: Opener<Start = S, Kept = K> + Drop> RunPlace<O, S, K> {
    /// The stores of a run, by who opens them, where no store was opened yet.
    pub fn new(alloc: Global, opener: O, start: S) -> RunPlace<O, S, K>
        ensures opened { result.opened ≡ Not start }
        ensures faults { result.faults ≡ 0 }
    {
        RunPlace {
            alloc,
            opener,
            opened: Opened::Not(start),
            faults: 0,
        }
    }

    // The same answer, with a fault counted where it is one.
    fn counted<T>(&mut self, answer: Result<T, Fault>) -> Result<T, Fault>
        ensures same { result ≡ answer }
        ensures rest { self.new ≡ record self.old { faults = self.new.faults } }
        ensures cause { HasKeepCause self.old.faults self.new.faults result }
    {
        match answer {
            Ok(value) => Ok(value),
            Err(Fault::Memory) => Err(Fault::Memory),
            Err(Fault::Failed) => {
                self.count_fault();
                Err(Fault::Failed)
            }
        }
    }

    // Counts a fault.
    fn count_fault(&mut self)
        ensures rest { self.new ≡ record self.old { faults = self.new.faults } }
        ensures later { self.old.faults ≤ self.new.faults }
        ensures rose { Rose self.old.faults self.new.faults }
    {
        self.faults = self.faults.saturating_add(1);
    }

    // Counts a keeper that came back after so many faults.
    fn count_returned(&mut self, faults: u64)
        ensures rest { self.new ≡ record self.old { faults = self.new.faults } }
        ensures faults { TakesUp faults self.old.faults self.new.faults }
    {
        if faults > 0 {
            self.count_fault();
        }
    }

    // A copy of a name.
    fn copy_name(&self, name: &str) -> Result<Bytes, Fault>
        ensures { IfOk result (λ bytes. bytes ≡ name.now) }
    {
        match Vec::from_slice(self.alloc, name.as_bytes()) {
            Ok(bytes) => Ok(Bytes::from_vec(bytes)),
            Err(_) => Err(Fault::Memory),
        }
    }

    // Opens the first store.
    fn open_first(&mut self, name: &str) -> Result<K, Fault>
        ensures opens { Opens K.Keeper O.held self.old.opened self.new.opened name.now result }
        ensures faults { self.new.faults ≡ self.old.faults }
    {
        let own = self.copy_name(name)?;
        match mem::replace(&mut self.opened, Opened::Lost) {
            Opened::Not(start) => {
                let kept = self.opener.open(name, start)?;
                self.opened = Opened::Out(own);
                Ok(kept)
            }
            other => {
                self.opened = other;
                Err(Fault::Failed)
            }
        }
    }

    // Opens the first store, and counts a fault.
    fn open_store(&mut self, name: &str) -> Result<K, Fault>
        ensures opens { Opens K.Keeper O.held self.old.opened self.new.opened name.now result }
        ensures cause { HasKeepCause self.old.faults self.new.faults result }
    {
        let answer = self.open_first(name);
        self.counted(answer)
    }

    // Opens the first store, where there is one of this name. An opening makes a store that is missing, so it is looked for first. One that
    // is taken away between the two is made anew, and empty.
    fn open_found(&mut self, name: &str) -> Result<K, Fault>
        ensures found { IsOk result → O.found self.old.opener name.now }
        ensures opens { Opens K.Keeper O.held self.old.opened self.new.opened name.now result }
        ensures cause { HasKeepCause self.old.faults self.new.faults result }
    {
        let found = self.opener.find(name);
        match self.counted(found) {
            Ok(()) => self.open_store(name),
            Err(fault) => Err(fault),
        }
    }

    // Takes a keeper back for the store of this name, where that is out.
    fn take_back(&mut self, name: &str, kept: K)
        ensures back { TakesBack self.old.opened self.new.opened name.now kept }
        ensures faults { self.new.faults ≡ self.old.faults }
    {
        match mem::replace(&mut self.opened, Opened::Lost) {
            Opened::Out(own) => {
                if own.as_slice() == name.as_bytes() {
                    self.opened = Opened::Back(own, kept);
                }
            }
            _ => {}
        }
    }

    /// The keeper of the store that was opened, where it came back.
    pub fn into_keeper(self) -> Option<K>
        ensures { result ≡ keeper_back self.opened }
    {
        let RunPlace {
            alloc: _,
            opener: _opener,
            opened,
            faults: _,
        } = self;
        match opened {
            Opened::Back(_name, kept) => Some(kept),
            _ => None,
        }
    }
}

impl<S: Drop, K: Keeper + Send + Drop, O: Opener<Start = S, Kept = K> + Drop> Place
    for RunPlace<O, S, K> {
    type Kept = K;

    ghost tells = { PlaceTells K.tells };

    ghost holds = { PlaceHolds K.holds O.held };

    ghost honest = { PlaceTells K.honest };

    ghost may_leave = { PlaceLeaves K.may_leave };

    ghost is_out = { PlaceOut };

    ghost has = { PlaceHas };

    ghost accounts = { PlaceFile };

    ghost knows_files = { ⊥ };

    ghost faults = { λ s. s.faults };

    // It may fail whatever comes.
    ghost fails_no_more = { λ s. ⊥ };

    fn fault_count(&self) -> u64 {
        self.faults
    }

    fn open_keeper(&mut self, name: &str) -> Result<K, Fault> {
        self.open_store(name)
    }

    fn open_existing(&mut self, name: &str) -> Result<K, Fault>
        ensures tells { PlaceTells K.tells self.new → MatchResult result (λ kept. K.tells kept → PlaceTells K.tells self.old) (λ fault. PlaceTells K.tells self.old) }
        ensures kept { PlaceTells K.tells self.new → IfOk result (λ kept. K.tells kept → OpensWith name.now (PlaceHolds K.holds O.held self.old name.now) (K.holds kept)) }
        ensures out { PlaceTells K.tells self.new → OnOk result (PlaceOut self.new name.now) }
        ensures honest { PlaceTells K.honest self.new → MatchResult result (λ kept. K.honest kept → PlaceTells K.honest self.old) (λ fault. PlaceTells K.honest self.old) }
        ensures crash { PlaceTells K.honest self.new → IfOk result (λ kept. K.honest kept → LeavesAsGiven name.now (PlaceLeaves K.may_leave self.old name.now) (K.may_leave kept)) }
        ensures others { PlaceTells K.tells self.new → OthersStay (PlaceHolds K.holds O.held) (PlaceLeaves K.may_leave) PlaceOut PlaceHas PlaceFile name.now self.old self.new }
        ensures refused { PlaceTells K.tells self.new → OnErr result (PlaceStays (PlaceHolds K.holds O.held) (PlaceLeaves K.may_leave) PlaceOut PlaceHas PlaceFile self.old self.new) }
        ensures fresh { IfOk result (λ kept. K.faults kept ≡ 0) }
        ensures cause { HasKeepCause self.old.faults self.new.faults result }

        // The store was looked for before it was opened, and was there.
        ensures found { IsOk result → O.found self.old.opener name.now }
    {
        self.open_found(name)
    }

    fn close_keeper(&mut self, name: &str, kept: K) {
        self.count_returned(kept.fault_count());
        self.take_back(name, kept);
    }

    fn read_accounts(&mut self, name: &str) -> Result<Bytes, Fault> {
        let read = self.opener.read_file(name);
        self.counted(read)
    }

    ghost steady_tells = { λ place steady. absurd steady };

    ghost tells_honestly = { λ place told. opened_honestly K.tells K.honest K.tells_honestly place.opened told };

    ghost holds_one = { λ place name one two told is also. opened_one K.tells K.holds O.held O.held_one K.holds_one place.opened name one two told is also };

    ghost absent_is_empty = { λ place name told absent. absurd (absent tt) };
}
