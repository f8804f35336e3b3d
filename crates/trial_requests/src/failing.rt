// A keeper over any other that fails at the calls of a schedule, and whose generation somebody else raises.
ghost use Rattle.std.specs.Prelude.{◌≡◌, ◌≤◌, ◌⊎◌, ◌+◌, ◌-◌, ◌^◌, ℕ, min, Result, IsErr, IsErrOf};
ghost use Rattle.std.specs.Result.{result_map_both};
ghost use Rattle.rv_base.specs.Causes.{Rose};
ghost use Rattle.rv_base.specs.declared.fault.Fault.TheVariants as fault;
ghost use Rattle.rv_base.specs.declared.outside.Failed.{Failed};

use crate::schedules::Troubles;
use rv_base::{Failed, Fault};
use rv_keeper::{Change, Fails, Keeper, Loaded, Schedule};

/// Keeps what another keeper keeps, and fails at the calls of a schedule besides, as a keeper in memory does. To each question for the
/// generation it answers so much more. It claims nothing of what it holds.
#[derive(Drop)]
pub struct FailingKeeper<K> {
    kept: K,
    schedule: Schedule,
    raised: u64,
    loads: u64,
    questions: u64,
    commits: u64,
    faults: u64,
}

impl<K> FailingKeeper<K> {
    /// A keeper over this one, which has not failed yet.
    pub fn new(kept: K, troubles: Troubles) -> FailingKeeper<K>
        ensures { result.faults ≡ 0 }
    {
        let Troubles { schedule, raised } = troubles;
        FailingKeeper {
            kept,
            schedule,
            raised,
            loads: 0,
            questions: 0,
            commits: 0,
            faults: 0,
        }
    }

    // Whether the schedule names the call.
    fn fails(&self, call: Fails) -> bool {
        self.schedule.as_slice().contains(&call)
    }

    // Counts a fault.
    fn count_fault(&mut self)
        ensures later { self.old.faults ≤ self.new.faults }
        ensures rose { Rose self.old.faults self.new.faults }
        ensures others { self.new ≡ record self.old { faults = self.new.faults } }
    {
        self.faults = self.faults.saturating_add(1);
    }
}

impl<K: Keeper> Keeper for FailingKeeper<K> {
    ghost tells = { λ s. ⊥ };

    ghost holds = { λ s held. Unit {0} };

    ghost honest = { λ s. ⊥ };

    ghost may_leave = { λ s left. Unit {0} };

    // It failed before it asked the one that it is over, or answers what that one did.
    ghost loads = { λ old result new. (IsErrOf result fault.Failed × (new.kept ≡ old.kept)) ⊎ K.loads old.kept result new.kept };

    // The same, with the number raised.
    ghost asks = { λ old from result new. (IsErr result × (new.kept ≡ old.kept)) ⊎ ((asked : Result ℕ Failed) × K.asks old.kept from asked new.kept × (result ≡ result_map_both (λ n. min (n + old.raised) (2 ^ 64 - 1)) (λ e. e) asked)) };

    ghost faults = { λ s. s.faults };

    ghost fails_no_more = { λ s. ⊥ };

    fn fault_count(&self) -> u64 {
        self.faults
    }

    fn load(&mut self) -> Result<Loaded, Fault> {
        self.loads = self.loads.saturating_add(1);
        if self.fails(Fails::Load(self.loads)) {
            self.count_fault();
            return Err(Fault::Failed);
        }
        match self.kept.load() {
            Ok(loaded) => Ok(loaded),
            Err(Fault::Failed) => {
                self.count_fault();
                Err(Fault::Failed)
            }
            Err(Fault::Memory) => Err(Fault::Memory),
        }
    }

    fn generation(&mut self, from: u64) -> Result<u64, Failed> {
        self.questions = self.questions.saturating_add(1);
        if self.fails(Fails::Generation(self.questions)) {
            self.count_fault();
            return Err(Failed);
        }
        match self.kept.generation(from) {
            Ok(generation) => {
                let generation = generation.saturating_add(self.raised);
                if generation != from && generation != from + 1 {
                    self.count_fault();
                }
                Ok(generation)
            }
            Err(Failed) => {
                self.count_fault();
                Err(Failed)
            }
        }
    }

    fn commit(&mut self, from: u64, changes: &[Change]) -> Result<(), Fault> {
        self.commits = self.commits.saturating_add(1);
        if self.fails(Fails::Before(self.commits)) {
            self.count_fault();
            return Err(Fault::Failed);
        }
        if self.fails(Fails::Memory(self.commits)) {
            return Err(Fault::Memory);
        }
        let made = self.kept.commit(from, changes);
        if let Err(Fault::Memory) = made {
            return Err(Fault::Memory);
        }
        if made.is_err() || self.fails(Fails::After(self.commits)) {
            self.count_fault();
            return Err(Fault::Failed);
        }
        Ok(())
    }

    ghost steady_tells = { λ keeper steady. absurd steady };

    ghost tells_honestly = { λ keeper told. absurd told };

    ghost holds_one = { λ keeper one two told is also. absurd told };
}
