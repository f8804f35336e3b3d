// A keeper in memory, which fails at the calls of a schedule.
ghost use Rattle.std.specs.Prelude.{◌≡◌, ◌≤◌, ◌<◌, ◌+◌, ◌-◌, ◌^◌, ◌||◌, ◌⊎◌, [], Some, IfOk, IsOk, OnOk, OnErr, is_err, if◌then◌else◌};
ghost use Rattle.std.proofs.Common.{sym, ◌∙◌};
ghost use Rattle.rv_base.specs.Causes.{Rose};
ghost use Rattle.rv_keeper.specs.declared.memory_keeper.Fails.TheVariants as calls;
ghost use Rattle.rv_keeper.specs.Cells.{AreCells, AreChanges, changed};
ghost use Rattle.rv_keeper.specs.Keeping.{Made, HasKeepCause, HasGenerationCause, KeepsSteady, holding};
ghost use Rattle.rv_keeper.specs.Schedules.{same_fails, fails_at, next_call, counted_fault, is_strange, has_failed, KeeperFailsNoMore, IsLoad, IsCommitBy};

use crate::change::Change;
use crate::keeper::Keeper;
use crate::loaded::Loaded;
use crate::shelves::Shelves;
use rv_base::{Failed, Fault, Memory, Sequence};
use std::alloc::Global;

/// A call at which a keeper in memory fails. Calls are counted from 1, those of each kind apart. A commit that is to fail
/// before its changes fails so whatever else it is to do, and one that memory is refused doesn't fail after its changes.
#[derive(Clone, Copy, Debug, PartialEq, Eq)]
pub enum Fails {
    /// This commit fails, and nothing is changed.
    Before(u64),
    /// This commit fails, and its changes are made all the same.
    After(u64),
    /// Memory is refused this commit, and nothing is changed.
    Memory(u64),
    /// This load fails.
    Load(u64),
    /// This question for the generation fails.
    Generation(u64),
}

/// The calls at which one keeper fails.
pub type Schedule = Sequence<Fails>;

impl Fails {
    // Whether both name the same call.
    fn is_same(self, other: Fails) -> bool
        ensures { result ≡ same_fails self other }
    {
        match (self, other) {
            (Fails::Before(one), Fails::Before(two)) => one == two,
            (Fails::After(one), Fails::After(two)) => one == two,
            (Fails::Memory(one), Fails::Memory(two)) => one == two,
            (Fails::Load(one), Fails::Load(two)) => one == two,
            (Fails::Generation(one), Fails::Generation(two)) => one == two,
            _ => false,
        }
    }
}

/// Keeps cells and a generation in memory, and fails at the calls of a schedule. It tells what it holds.
/// Its counts stand still at 2^64 - 1.
#[derive(Drop)]
pub struct MemoryKeeper {
    /// Where copies are made.
    pub alloc: Global,
    /// The cells.
    pub shelves: Shelves,
    /// The generation.
    pub generation: u64,
    /// The calls that fail.
    pub schedule: Vec<Fails>,
    /// How many loads there were.
    pub loads: u64,
    /// How many questions for the generation there were.
    pub questions: u64,
    /// How many commits there were.
    pub commits: u64,
    /// How many calls failed, or were answered what can't be.
    pub faults: u64,
}

impl MemoryKeeper {
    /// A keeper that holds no cell, at generation 0.
    pub fn new(alloc: Global, schedule: Vec<Fails>) -> Self
        ensures cells { result.shelves ≡ [] }
        ensures generation { result.generation ≡ 0 }
        ensures schedule { result.schedule.items ≡ schedule.items }
        ensures calls { (result.loads ≡ 0) × (result.questions ≡ 0) × (result.commits ≡ 0) }
        ensures faults { result.faults ≡ 0 }
    {
        MemoryKeeper::on(alloc, schedule, Shelves::new(alloc), 0)
    }

    /// A keeper that holds the cells of these shelves, at this generation.
    pub fn with(alloc: Global, schedule: Vec<Fails>, shelves: Shelves, generation: u64) -> Self
        ensures cells { result.shelves ≡ shelves }
        ensures generation { result.generation ≡ generation }
        ensures schedule { result.schedule.items ≡ schedule.items }
        ensures calls { (result.loads ≡ 0) × (result.questions ≡ 0) × (result.commits ≡ 0) }
        ensures faults { result.faults ≡ 0 }
    {
        MemoryKeeper::on(alloc, schedule, shelves, generation)
    }

    // A keeper that holds what stands on the shelves.
    fn on(alloc: Global, schedule: Vec<Fails>, shelves: Shelves, generation: u64) -> Self
        ensures { result ≡ record { alloc = alloc; shelves = shelves; generation = generation; schedule = schedule; loads = 0; questions = 0; commits = 0; faults = 0 } }
    {
        MemoryKeeper {
            alloc,
            shelves,
            generation,
            schedule,
            loads: 0,
            questions: 0,
            commits: 0,
            faults: 0,
        }
    }

    // Counts a fault.
    fn count_fault(&mut self)
        ensures after { self.new ≡ record self.old { faults = next_call self.old.faults } }
        ensures later { self.old.faults ≤ self.new.faults }
        ensures rose { Rose self.old.faults self.new.faults }
    {
        self.faults = self.faults.saturating_add(1);
    }

    // Makes the changes.
    fn make(&mut self, from: u64, changes: &[Change]) -> Result<(), Memory>
        requires from { from < 2 ^ 64 - 1 }
        requires changes { AreChanges changes.now }
        ensures rest { self.new ≡ record self.old { shelves = self.new.shelves; generation = self.new.generation } }
        ensures ok { OnOk result ((self.new.shelves ≡ changed self.old.shelves changes.now) × (self.new.generation ≡ from + 1)) }
        ensures err { OnErr result ((self.new.shelves ≡ self.old.shelves) × (self.new.generation ≡ self.old.generation)) }
    {
        self.shelves.make(self.alloc, changes)?;
        self.generation = from + 1;
        Ok(())
    }
}

impl Keeper for MemoryKeeper {
    // It tells whatever comes.
    ghost tells = { λ s. Unit {0} };

    ghost holds = { λ s held. held ≡ holding s.shelves s.generation };

    ghost honest = { λ s. Unit {0} };

    // What is in memory is there after any call; it leaves what it holds.
    ghost may_leave = { λ s left. left ≡ Some (holding s.shelves s.generation) };

    ghost loads = { λ old result new. IsLoad (fails_at (calls.Load new.loads) old.schedule.items) (holding old.shelves old.generation) result };

    // It answers its generation, whatever the number.
    ghost asks = { λ old from result new. IfOk result (λ n. n ≡ old.generation) };

    ghost faults = { λ s. s.faults };

    // No call of the schedule is still to come.
    ghost fails_no_more = { λ s. KeeperFailsNoMore s.loads s.questions s.commits s.schedule.items };

    fn fault_count(&self) -> u64
        ensures { result ≡ self.now.faults }
    {
        self.faults
    }

    #[tactic(auto, using(crate::proofs::Schedule::next_load))]
    fn load(&mut self) -> Result<Loaded, Fault>
        ensures order { IfOk result (λ loaded. AreCells loaded.cells) }
        ensures told { IfOk result (λ loaded. loaded ≡ holding self.old.shelves self.old.generation) }
        ensures cause { HasKeepCause self.old.faults self.new.faults result }
        ensures steady { KeeperFailsNoMore self.old.loads self.old.questions self.old.commits self.old.schedule.items → KeepsSteady (KeeperFailsNoMore self.new.loads self.new.questions self.new.commits self.new.schedule.items) result }
        ensures answer { IsLoad (fails_at (calls.Load self.new.loads) self.old.schedule.items) (holding self.old.shelves self.old.generation) result }
        ensures after { self.new ≡ record self.old { loads = next_call self.old.loads; faults = counted_fault (has_failed result) self.old.faults } }
    {
        self.loads = self.loads.saturating_add(1);
        if fails_at(&self.schedule, Fails::Load(self.loads)) {
            self.count_fault();
            return Err(Fault::Failed);
        }
        let cells = self.shelves.cells(self.alloc)?;
        Ok(Loaded {
            cells,
            generation: self.generation,
        })
    }

    #[tactic(auto, using(crate::proofs::Schedule::next_question))]
    fn generation(&mut self, from: u64) -> Result<u64, Failed>
        requires { from < 2 ^ 64 - 1 }
        ensures told { IfOk result (λ n. n ≡ self.old.generation) }
        ensures cause { HasGenerationCause from self.old.faults self.new.faults result }
        ensures steady { KeeperFailsNoMore self.old.loads self.old.questions self.old.commits self.old.schedule.items → KeeperFailsNoMore self.new.loads self.new.questions self.new.commits self.new.schedule.items × IsOk result }
        ensures fails { is_err result ≡ fails_at (calls.Generation self.new.questions) self.old.schedule.items }
        ensures after { self.new ≡ record self.old { questions = next_call self.old.questions; faults = counted_fault (is_err result || is_strange from self.old.generation) self.old.faults } }
    {
        self.questions = self.questions.saturating_add(1);
        if fails_at(&self.schedule, Fails::Generation(self.questions)) {
            self.count_fault();
            return Err(Failed);
        }
        if self.generation != from && self.generation != from + 1 {
            self.count_fault();
        }
        Ok(self.generation)
    }

    #[tactic(auto, using(crate::proofs::Schedule::next_commit))]
    fn commit(&mut self, from: u64, changes: &[Change]) -> Result<(), Fault>
        requires from { from < 2 ^ 64 - 1 }
        requires changes { AreChanges changes.now }
        ensures made { Made from changes.now result (λ held. held ≡ holding self.new.shelves self.new.generation) (holding self.old.shelves self.old.generation) }
        ensures cause { HasKeepCause self.old.faults self.new.faults result }
        ensures steady { KeeperFailsNoMore self.old.loads self.old.questions self.old.commits self.old.schedule.items → KeepsSteady (KeeperFailsNoMore self.new.loads self.new.questions self.new.commits self.new.schedule.items) result }
        ensures answer { IsCommitBy self.old.schedule.items self.new.commits from changes.now (holding self.old.shelves self.old.generation) (holding self.new.shelves self.new.generation) result }
        ensures after { self.new ≡ record self.old { shelves = self.new.shelves; generation = self.new.generation; commits = next_call self.old.commits; faults = counted_fault (has_failed result) self.old.faults } }
    {
        self.commits = self.commits.saturating_add(1);
        if fails_at(&self.schedule, Fails::Before(self.commits)) {
            self.count_fault();
            return Err(Fault::Failed);
        }
        if fails_at(&self.schedule, Fails::Memory(self.commits)) {
            return Err(Fault::Memory);
        }
        self.make(from, changes)?;
        if fails_at(&self.schedule, Fails::After(self.commits)) {
            self.count_fault();
            return Err(Fault::Failed);
        }
        Ok(())
    }

    ghost steady_tells = { λ keeper steady. tt };

    ghost tells_honestly = { λ keeper tells. tt };

    ghost holds_one = { λ keeper one two told is also. is ∙ sym also };
}

// Whether the schedule names the call.
fn fails_at(schedule: &[Fails], call: Fails) -> bool
    ensures { result ≡ fails_at call schedule.now }
{
    schedule.iter().any(|fails| fails.is_same(call))
}
