ghost use Rattle.std.specs.Prelude.{◌≡◌, ◌⊎◌, ◌<◌, ◌-◌, ◌^◌, IfOk, IsOk, None, Some};
ghost use Rattle.rv_base.specs.Causes.{Rose};
ghost use Rattle.rv_keeper.specs.declared.loaded.Loaded.{Loaded};
ghost use Rattle.rv_keeper.specs.Cells.{AreCells};
ghost use Rattle.rv_keeper.specs.Crashes.{IsHeld, IsSettled, LeavesMore};
ghost use Rattle.rv_keeper.specs.Keeping.{HasGenerationCause, HasKeepCause, KeepsSteady, LoadsHeld};
ghost use Rattle.rv_place.specs.Stored.{StoredAsks, StoredHolds, StoredHonest, StoredLeaves, StoredLoads, StoredSteady, StoredTells, stored_connection, stored_faults};
ghost use Rattle.rv_place.specs.StoredLaws.{stored_honestly, stored_one, stored_tells};

use rv_base::{Failed, Fault};
use rv_keeper::{Change, Keeper, Loaded, MemoryKeeper};
use rv_sqlite::SqliteKeeper;
use sqlite::{Alter, Connection};

/// What keeps one store: memory, which tells what it holds, or a SQLite database, which tells it where its keeper does.
pub enum StoreKeeper<S: Alter> {
    /// In memory.
    Memory(MemoryKeeper),
    /// In the database of a connection.
    Sqlite(SqliteKeeper<S>),
}

impl<S: Alter + Drop> Drop for StoreKeeper<S> {
    fn drop(self) {
        match self {
            StoreKeeper::Memory(_keeper) => {}
            StoreKeeper::Sqlite(_keeper) => {}
        }
    }
}

impl<S: Alter> StoreKeeper<S> {
    /// The connection, where there is one.
    pub fn into_connection(self) -> Option<Connection<S>>
        ensures { result ≡ stored_connection self }
    {
        match self {
            StoreKeeper::Memory(_keeper) => None,
            StoreKeeper::Sqlite(keeper) => Some(keeper.into_connection()),
        }
    }
}

impl<S: Alter> Keeper for StoreKeeper<S> {
    ghost tells = { λ s. StoredTells s };

    ghost holds = { λ s held. StoredHolds s held };

    ghost honest = { λ s. StoredHonest s };

    ghost may_leave = { λ s left. StoredLeaves s left };

    ghost loads = { λ old result new. StoredLoads S.Store old result new };

    ghost asks = { λ old from result new. StoredAsks S.Store old result new };

    ghost faults = { λ s. stored_faults s };

    ghost fails_no_more = { λ s. StoredSteady s };

    fn fault_count(&self) -> u64 {
        match self {
            StoreKeeper::Memory(keeper) => keeper.fault_count(),
            StoreKeeper::Sqlite(keeper) => keeper.fault_count(),
        }
    }

    fn load(&mut self) -> Result<Loaded, Fault>
        ensures loads { StoredLoads S.Store self.old result self.new }
        ensures order { IfOk result (λ loaded. AreCells loaded.cells) }
        ensures tells { StoredTells self.new → StoredTells self.old }
        ensures same { StoredTells self.new → (held : Loaded) → StoredHolds self.old held → StoredHolds self.new held }
        ensures told { StoredTells self.new → IfOk result (λ loaded. LoadsHeld loaded (StoredHolds self.old) (StoredHolds self.new)) }
        ensures honest { StoredHonest self.new → StoredHonest self.old × (IsOk result → StoredTells self.new) }
        ensures clean { StoredHonest self.new → StoredTells self.old → StoredTells self.new ⊎ Rose (stored_faults self.old) (stored_faults self.new) }
        ensures crash { StoredHonest self.new → LeavesMore (StoredLeaves self.old) (StoredLeaves self.new) (IsHeld (StoredTells self.old) (StoredHolds self.old)) }
        ensures settled { StoredTells self.new → IsSettled (StoredHolds self.new) (StoredLeaves self.new) }
        ensures cause { HasKeepCause (stored_faults self.old) (stored_faults self.new) result }
        ensures steady { StoredSteady self.old → KeepsSteady (StoredSteady self.new) result }
    {
        match self {
            StoreKeeper::Memory(keeper) => keeper.load(),
            StoreKeeper::Sqlite(keeper) => keeper.load(),
        }
    }

    fn generation(&mut self, from: u64) -> Result<u64, Failed>
        requires { from < 2 ^ 64 - 1 }
        ensures asks { StoredAsks S.Store self.old result self.new }
        ensures tells { StoredTells self.new → StoredTells self.old }
        ensures same { StoredTells self.new → (held : Loaded) → StoredHolds self.old held → StoredHolds self.new held }
        ensures told { StoredTells self.new → IfOk result (λ n. (held : Loaded) → StoredHolds self.old held → held.generation ≡ n) }
        ensures honest { StoredHonest self.new → StoredHonest self.old × (IsOk result → StoredTells self.new) }
        ensures clean { StoredHonest self.new → StoredTells self.old → StoredTells self.new ⊎ Rose (stored_faults self.old) (stored_faults self.new) }
        ensures crash { StoredHonest self.new → LeavesMore (StoredLeaves self.old) (StoredLeaves self.new) (IsHeld (StoredTells self.old) (StoredHolds self.old)) }
        ensures settled { StoredTells self.new → IsSettled (StoredHolds self.new) (StoredLeaves self.new) }
        ensures cause { HasGenerationCause from (stored_faults self.old) (stored_faults self.new) result }
        ensures steady { StoredSteady self.old → StoredSteady self.new × IsOk result }
    {
        match self {
            StoreKeeper::Memory(keeper) => keeper.generation(from),
            StoreKeeper::Sqlite(keeper) => keeper.generation(from),
        }
    }

    fn commit(&mut self, from: u64, changes: &[Change]) -> Result<(), Fault> {
        match self {
            StoreKeeper::Memory(keeper) => keeper.commit(from, changes),
            StoreKeeper::Sqlite(keeper) => keeper.commit(from, changes),
        }
    }

    ghost steady_tells = { λ keeper steady. stored_tells keeper steady };

    ghost tells_honestly = { λ keeper tells. stored_honestly keeper tells };

    ghost holds_one = { λ keeper one two told is also. stored_one keeper one two is also };
}
