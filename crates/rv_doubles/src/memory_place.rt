// A place in memory, which fails at the calls of a list.
ghost use Rattle.std.specs.Prelude.{◌≡◌, ◌≤◌, ◌≢◌, ◌||◌, ℕ, List, [], true, false, drop, nat_lt, not, codes, if◌then◌else◌, is_none, Option, Some, IsOk, IfOk, OnOk, OnErr, IfSome, IfNone};
ghost use Rattle.std.specs.List.{position_from};
ghost use Rattle.std.specs.Option.{option_copied};
ghost use Rattle.std.specs.Str.{bytes_eq};
ghost use Rattle.std.proofs.Common.{sym, ◌∙◌};
ghost use Rattle.rv_base.specs.Causes.{Rose};
ghost use Rattle.rv_doubles.specs.InMemory.{fails_next};
ghost use Rattle.rv_keeper.specs.declared.loaded.Loaded.{Loaded};
ghost use Rattle.rv_keeper.specs.Keeping.{HasKeepCause, holding};
ghost use Rattle.rv_doubles.specs.MemoryStores.{StandsAt, StoreHolds, StoreIsOut, accounts_file, bytes_of, file_of, first_schedule, found_store, given, has_store, kept_store, out_store, store_of, with_file, with_store};
ghost use Rattle.rv_keeper.specs.Schedules.{counted_fault, has_failed, next_call};
ghost use Rattle.rv_doubles.specs.PlaceStates.{IsSteadyKeeper, IsSteadyPlace, place_file, place_has, place_holds, place_leaves, place_out};
ghost use Rattle.rv_doubles.specs.AbsentStoreLaws.{absent_holds};
ghost use Rattle.rv_keeper.specs.Stores.{CallIsSteady, LeavesAsGiven, OpensWith, OthersStay, PlaceStays, TakesUp};

use crate::accounts_file::{self, AccountsFile};
use crate::store::Store;
use rv_base::{Bytes, Fault, Memory};
use rv_keeper::{Fails, MemoryKeeper, Place, Schedule, Shelves};
use std::alloc::Global;

/// Holds stores and accounts files in memory, and fails at the calls of a list. It tells what its stores hold and its files
/// have. Its counts stand still at 2^64 - 1.
#[derive(Drop)]
pub struct MemoryPlace {
    /// Where names are copied.
    pub alloc: Global,
    /// The stores.
    pub stores: Vec<Store>,
    /// The accounts files.
    pub files: Vec<AccountsFile>,
    /// The schedules of the keepers that are still to be given, the next one first. A keeper beyond them fails at no call.
    pub schedules: Vec<Schedule>,
    /// The numbers of the calls of `open_keeper` and `open_existing` that fail, from 1. Both are counted together.
    pub failing: Vec<u64>,
    /// How many calls of `open_keeper` and `open_existing` there were.
    pub calls: u64,
    /// How many calls failed, those of `read_accounts` too, and how many keepers came back that had failed.
    pub faults: u64,
}

impl MemoryPlace {
    /// A place that has no store and no accounts file.
    pub fn new(alloc: Global, schedules: Vec<Schedule>, failing: Vec<u64>) -> Self
        ensures stores { result.stores.items ≡ [] }
        ensures files { result.files.items ≡ [] }
        ensures others { result ≡ record { alloc = alloc; stores = result.stores; files = result.files; schedules = schedules; failing = failing; calls = 0; faults = 0 } }
    {
        MemoryPlace {
            alloc,
            stores: Vec::new(alloc),
            files: Vec::new(alloc),
            schedules,
            failing,
            calls: 0,
            faults: 0,
        }
    }

    /// The store of this name, if there is one.
    pub fn store(&self, name: &str) -> Option<&Store>
        ensures { option_copied result ≡ store_of name.now self.now.stores.items }
    {
        self.stores.iter().find(|store| store.is_named(name))
    }

    /// Adds a store that holds these cells, at this generation; one that has its name is replaced. `Err` is want of memory,
    /// and nothing is changed.
    pub fn add_store(&mut self, name: &str, shelves: Shelves, generation: u64) -> Result<(), Memory>
        ensures rest { self.new ≡ record self.old { stores = self.new.stores } }
        ensures ok { OnOk result (self.new.stores.items ≡ with_store (kept_store name.now shelves generation) self.old.stores.items) }
        ensures err { OnErr result (self.new.stores.items ≡ self.old.stores.items) }
    {
        let at = find_or_add(self.alloc, &mut self.stores, name)?;
        self.stores[at].take_back(shelves, generation);
        Ok(())
    }

    /// The accounts file of this name, if there is one.
    pub fn file(&self, name: &str) -> Option<&AccountsFile>
        ensures { option_copied result ≡ file_of name.now self.now.files.items }
    {
        self.files.iter().find(|file| file.is_named(name))
    }

    /// Adds an accounts file that has these bytes; one that has its name is replaced. `Err` is want of memory, and nothing is
    /// changed.
    ///
    /// No case plays it: without it what is said of accounts files would be said of places that have none.
    pub fn add_file(&mut self, name: &str, bytes: Bytes) -> Result<(), Memory>
        ensures rest { self.new ≡ record self.old { files = self.new.files } }
        ensures ok { OnOk result (self.new.files.items ≡ with_file (accounts_file name.now bytes) self.old.files.items) }
        ensures err { OnErr result (self.new.files.items ≡ self.old.files.items) }
    {
        accounts_file::write(self.alloc, &mut self.files, name, bytes)
    }

    // Whether a store of this name is there.
    fn has_store(&self, name: &str) -> bool
        ensures { result ≡ has_store self.now.stores.items name.now }
    {
        match self.store(name) {
            Some(_) => true,
            None => name == "memory",
        }
    }

    // Takes out what the store of a name holds. One that is not there is added first.
    fn take_out(&mut self, name: &str) -> Result<(Shelves, u64), Memory>
        ensures rest { self.new ≡ record self.old { stores = self.new.stores } }
        ensures held { IfOk result (λ held. let store = found_store name.now self.old.stores.items in (held.0 ≡ store.shelves) × (held.1 ≡ store.generation)) }
        ensures ok { OnOk result (self.new.stores.items ≡ with_store (out_store name.now) self.old.stores.items) }
        ensures err { OnErr result (self.new.stores.items ≡ self.old.stores.items) }
    {
        let at = find_or_add(self.alloc, &mut self.stores, name)?;
        Ok(self.stores[at].give_out(self.alloc))
    }

    // Takes cells and a generation back into the store of a name, which is there.
    fn put_back(&mut self, name: &str, shelves: Shelves, generation: u64)
        requires { StoreIsOut self.old.stores.items name.now }
        ensures rest { self.new ≡ record self.old { stores = self.new.stores } }
        ensures stores { self.new.stores.items ≡ with_store (kept_store name.now shelves generation) self.old.stores.items }
    {
        match find(&self.stores, name) {
            Some(at) => self.stores[at].take_back(shelves, generation),
            None => unreachable!(),
        }
    }

    // Counts a fault.
    fn count_fault(&mut self)
        ensures after { self.new ≡ record self.old { faults = next_call self.old.faults } }
        ensures later { self.old.faults ≤ self.new.faults }
        ensures rose { Rose self.old.faults self.new.faults }
    {
        self.faults = self.faults.saturating_add(1);
    }

    // Counts a keeper that came back after so many faults.
    fn count_returned(&mut self, faults: u64)
        ensures faults { TakesUp faults self.old.faults self.new.faults }
        ensures after { self.new ≡ record self.old { faults = counted_fault (nat_lt 0 faults) self.old.faults } }
    {
        if faults > 0 {
            self.count_fault();
        }
    }

    // The calls at which the next keeper fails.
    fn next_schedule(&mut self) -> Vec<Fails>
        ensures rest { self.new ≡ record self.old { schedules = self.new.schedules } }
        ensures schedules { self.new.schedules.items ≡ drop 1 self.old.schedules.items }
        ensures first { result.items ≡ first_schedule self.old.schedules.items }
    {
        if self.schedules.is_empty() {
            Vec::new(self.alloc)
        } else {
            self.schedules.remove(0).into_vec()
        }
    }

    // Counts a call that opens a store, and tells whether it fails: where the store isn't there, and at the calls of the list.
    fn next_opening_fails(&mut self, is_there: bool) -> bool
        ensures result { result ≡ (not is_there || fails_next self.old.calls self.old.failing.items) }
        ensures after { self.new ≡ record self.old { calls = next_call self.old.calls } }
    {
        self.calls = self.calls.saturating_add(1);
        !is_there || self.failing.contains(&self.calls)
    }

    // The keeper of the store of a name, where it is there.
    fn open_store(&mut self, name: &str, is_there: bool) -> Result<MemoryKeeper, Fault>
        ensures cause { HasKeepCause self.old.faults self.new.faults result }
        ensures fails { has_failed result ≡ (not is_there || fails_next self.old.calls self.old.failing.items) }
        ensures gives { IfOk result (λ kept. (holding kept.shelves kept.generation ≡ given name.now (found_store name.now self.old.stores.items)) × (kept.schedule.items ≡ first_schedule self.old.schedules.items)) }
        ensures fresh { IfOk result (λ kept. (kept.loads ≡ 0) × (kept.questions ≡ 0) × (kept.commits ≡ 0) × (kept.faults ≡ 0)) }
        ensures ok { OnOk result ((self.new.stores.items ≡ with_store (out_store name.now) self.old.stores.items) × (self.new.schedules.items ≡ drop 1 self.old.schedules.items)) }
        ensures err { OnErr result ((self.new.stores.items ≡ self.old.stores.items) × (self.new.schedules.items ≡ self.old.schedules.items)) }
        ensures after { self.new ≡ record self.old { stores = self.new.stores; schedules = self.new.schedules; calls = next_call self.old.calls; faults = counted_fault (has_failed result) self.old.faults } }
    {
        if self.next_opening_fails(is_there) {
            self.count_fault();
            return Err(Fault::Failed);
        }
        let (shelves, generation) = self.take_out(name)?;
        let schedule = self.next_schedule();
        Ok(keeper_of(self.alloc, name, schedule, shelves, generation))
    }
}

// The index of the first store of a name.
fn find(stores: &[Store], name: &str) -> Option<usize>
    ensures { result ≡ position_from (λ store. bytes_eq name.now store.name) 0 stores.now }
{
    stores.iter().position(|store| store.is_named(name))
}

// Where the store of a name stands. One that is not there is added, and holds no cell, at generation 0.
fn find_or_add(alloc: Global, stores: &mut Vec<Store>, name: &str) -> Result<usize, Memory>
    ensures ok { IfOk result (λ at. StandsAt name.now stores.old.items stores.new.items at) }
    ensures err { OnErr result (stores.new.items ≡ stores.old.items) }
{
    if let Some(at) = find(stores, name) {
        return Ok(at);
    }
    let at = stores.len();
    stores.push(Store {
        name: Bytes::from_vec(name.as_bytes().to_vec(alloc)?),
        shelves: Shelves::new(alloc),
        generation: 0,
        is_out: false,
    })?;
    Ok(at)
}

// The keeper of a store that gave these out; that of the store `memory` begins empty.
fn keeper_of(
    alloc: Global,
    name: &str,
    schedule: Vec<Fails>,
    shelves: Shelves,
    generation: u64,
) -> MemoryKeeper
    ensures held { holding result.shelves result.generation ≡ (if bytes_eq name.now (codes "memory") then holding [] 0 else holding shelves generation) }
    ensures schedule { result.schedule.items ≡ schedule.items }
    ensures calls { (result.loads ≡ 0) × (result.questions ≡ 0) × (result.commits ≡ 0) }
    ensures faults { result.faults ≡ 0 }
{
    if name == "memory" {
        MemoryKeeper::new(alloc, schedule)
    } else {
        MemoryKeeper::with(alloc, schedule, shelves, generation)
    }
}

impl Place for MemoryPlace {
    type Kept = MemoryKeeper;

    // It tells whatever comes.
    ghost tells = { λ s. Unit {0} };

    ghost holds = { place_holds };

    ghost honest = { λ s. Unit {0} };

    // A crash leaves what they hold.
    ghost may_leave = { place_leaves };

    ghost is_out = { place_out };

    ghost has = { place_has };

    ghost accounts = { place_file };

    ghost knows_files = { Unit };

    ghost faults = { λ s. s.faults };

    // No opening that is to come fails, and no call of a keeper that is to be given.
    ghost fails_no_more = { IsSteadyPlace };

    fn fault_count(&self) -> u64
        ensures { result ≡ self.now.faults }
    {
        self.faults
    }

    fn open_keeper(&mut self, name: &str) -> Result<MemoryKeeper, Fault>
        ensures kept { IfOk result (λ kept. OpensWith name.now (StoreHolds self.old.stores.items name.now) (λ held. held ≡ holding kept.shelves kept.generation)) }
        ensures out { OnOk result (StoreIsOut self.new.stores.items name.now) }
        ensures crash { IfOk result (λ kept. LeavesAsGiven name.now (place_leaves self.old name.now) (λ left. left ≡ Some (holding kept.shelves kept.generation))) }
        ensures others { OthersStay place_holds place_leaves place_out place_has place_file name.now self.old self.new }
        ensures made { OnOk result (has_store self.new.stores.items name.now ≡ true) }
        ensures refused { OnErr result (PlaceStays place_holds place_leaves place_out place_has place_file self.old self.new) }
        ensures steady { IsSteadyPlace self.old → CallIsSteady (IsSteadyPlace self.new) (Unit {0}) result × IfOk result IsSteadyKeeper }
        ensures cause { HasKeepCause self.old.faults self.new.faults result }
        ensures fails { has_failed result ≡ fails_next self.old.calls self.old.failing.items }
        ensures gives { IfOk result (λ kept. (holding kept.shelves kept.generation ≡ given name.now (found_store name.now self.old.stores.items)) × (kept.schedule.items ≡ first_schedule self.old.schedules.items)) }
        ensures fresh { IfOk result (λ kept. (kept.loads ≡ 0) × (kept.questions ≡ 0) × (kept.commits ≡ 0) × (kept.faults ≡ 0)) }
        ensures ok { OnOk result ((self.new.stores.items ≡ with_store (out_store name.now) self.old.stores.items) × (self.new.schedules.items ≡ drop 1 self.old.schedules.items)) }
        ensures err { OnErr result ((self.new.stores.items ≡ self.old.stores.items) × (self.new.schedules.items ≡ self.old.schedules.items)) }
        ensures after { self.new ≡ record self.old { stores = self.new.stores; schedules = self.new.schedules; calls = next_call self.old.calls; faults = counted_fault (has_failed result) self.old.faults } }
    {
        self.open_store(name, true)
    }

    fn open_existing(&mut self, name: &str) -> Result<MemoryKeeper, Fault>
        ensures kept { IfOk result (λ kept. OpensWith name.now (StoreHolds self.old.stores.items name.now) (λ held. held ≡ holding kept.shelves kept.generation)) }
        ensures out { OnOk result (StoreIsOut self.new.stores.items name.now) }
        ensures crash { IfOk result (λ kept. LeavesAsGiven name.now (place_leaves self.old name.now) (λ left. left ≡ Some (holding kept.shelves kept.generation))) }
        ensures others { OthersStay place_holds place_leaves place_out place_has place_file name.now self.old self.new }
        ensures there { IsOk result → has_store self.old.stores.items name.now ≡ true }
        ensures none_made { (other : List ℕ) → has_store self.new.stores.items other ≡ true → has_store self.old.stores.items other ≡ true }
        ensures refused { OnErr result (PlaceStays place_holds place_leaves place_out place_has place_file self.old self.new) }
        ensures steady { IsSteadyPlace self.old → CallIsSteady (IsSteadyPlace self.new) (has_store self.old.stores.items name.now ≡ true) result × IfOk result IsSteadyKeeper }
        ensures cause { HasKeepCause self.old.faults self.new.faults result }
        ensures fails { has_failed result ≡ (not (has_store self.old.stores.items name.now) || fails_next self.old.calls self.old.failing.items) }
        ensures gives { IfOk result (λ kept. (holding kept.shelves kept.generation ≡ given name.now (found_store name.now self.old.stores.items)) × (kept.schedule.items ≡ first_schedule self.old.schedules.items)) }
        ensures fresh { IfOk result (λ kept. (kept.loads ≡ 0) × (kept.questions ≡ 0) × (kept.commits ≡ 0) × (kept.faults ≡ 0)) }
        ensures ok { OnOk result ((self.new.stores.items ≡ with_store (out_store name.now) self.old.stores.items) × (self.new.schedules.items ≡ drop 1 self.old.schedules.items)) }
        ensures err { OnErr result ((self.new.stores.items ≡ self.old.stores.items) × (self.new.schedules.items ≡ self.old.schedules.items)) }
        ensures after { self.new ≡ record self.old { stores = self.new.stores; schedules = self.new.schedules; calls = next_call self.old.calls; faults = counted_fault (has_failed result) self.old.faults } }
    {
        let is_there = self.has_store(name);
        self.open_store(name, is_there)
    }

    fn close_keeper(&mut self, name: &str, kept: MemoryKeeper)
        requires { StoreIsOut self.old.stores.items name.now }
        ensures kept { StoreHolds self.new.stores.items name.now (holding kept.shelves kept.generation) }
        ensures crash { (left : Option Loaded) → place_leaves self.new name.now left → left ≡ Some (holding kept.shelves kept.generation) }
        ensures others { OthersStay place_holds place_leaves place_out place_has place_file name.now self.old self.new }
        ensures faults { TakesUp kept.faults self.old.faults self.new.faults }
        ensures steady { IsSteadyPlace self.old → IsSteadyPlace self.new }
        ensures stores { self.new.stores.items ≡ with_store (kept_store name.now kept.shelves kept.generation) self.old.stores.items }
        ensures after { self.new ≡ record self.old { stores = self.new.stores; faults = counted_fault (nat_lt 0 kept.faults) self.old.faults } }
    {
        self.count_returned(kept.faults);
        self.put_back(name, kept.shelves, kept.generation);
    }

    fn read_accounts(&mut self, name: &str) -> Result<Bytes, Fault>
        ensures reads { (file : List ℕ) → bytes_of name.now self.old.files.items ≡ Some file → IfOk result (λ bytes. bytes ≡ file) }
        ensures there { IfOk result (λ bytes. bytes_of name.now self.old.files.items ≡ Some bytes) }
        ensures stays { PlaceStays place_holds place_leaves place_out place_has place_file self.old self.new }
        ensures steady { IsSteadyPlace self.old → CallIsSteady (IsSteadyPlace self.new) ((file : List ℕ) × (bytes_of name.now self.old.files.items ≡ Some file)) result }
        ensures cause { HasKeepCause self.old.faults self.new.faults result }
        ensures fails { has_failed result ≡ is_none (file_of name.now self.old.files.items) }
        ensures after { self.new ≡ record self.old { faults = counted_fault (has_failed result) self.old.faults } }
    {
        match self.file(name) {
            Some(file) => Ok(file.read(self.alloc)?),
            None => {
                self.count_fault();
                Err(Fault::Failed)
            }
        }
    }

    ghost steady_tells = { λ place steady. tt };

    ghost tells_honestly = { λ place told. tt };

    ghost holds_one = { λ place name one two told is also. is.1 ∙ sym also.1 };

    ghost absent_is_empty = { λ place name told absent. absent_holds name place.stores.items absent };
}
