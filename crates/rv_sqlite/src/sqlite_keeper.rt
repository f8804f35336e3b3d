ghost use Rattle.std.specs.Prelude.{◌≡◌, ◌⊎◌, ◌↔◌, ◌≤◌, ◌<◌, ◌-◌, ◌^◌, IfOk, IsErrOf, IsOk, IsTrue, OnErr, OnOk, refl};
ghost use Rattle.rv_base.specs.Causes.{Rose};
ghost use Rattle.rv_base.specs.declared.fault.Fault.TheVariants.{Memory};
ghost use Rattle.rv_keeper.specs.declared.loaded.Loaded.{Loaded};
ghost use Rattle.rv_keeper.specs.Cells.{AreCells, AreChanges};
ghost use Rattle.rv_keeper.specs.Crashes.{IsSettled};
ghost use Rattle.rv_keeper.specs.Keeping.{HasKeepCause, HasGenerationCause, LoadsHeld, Made, committed};
ghost use Rattle.sqlite.specs.State.{HasCleanDisk, KeepsCommit, Survives};
ghost use Rattle.sqlite.specs.Held.{state};
ghost use Rattle.rv_sqlite.specs.Asked.{FindsGeneration};
ghost use Rattle.rv_sqlite.specs.Loads.{LoadsTable};
ghost use Rattle.rv_sqlite.specs.Steps.{IsReady};
ghost use Rattle.rv_sqlite.specs.Table.{IsKnown};
ghost use Rattle.rv_sqlite.specs.Telling.{CallMakes, CommitsOrNot, Holds, IsGenerationBy, IsToldBy, LeavesAs, LeavesNext, LeavesNoMore, MayLeave, Tells};
ghost use Rattle.rv_sqlite.specs.HeldLaws.{stand_same};
ghost use Rattle.rv_sqlite.specs.PropLaws.{KnownWhereTells-prop};

use crate::connected::recall;
use crate::exact::is_known;
use crate::loading::{generation_in, load_from};
use crate::writing::write;
use rv_base::{Failed, Fault};
use rv_keeper::{Change, Keeper, Loaded};
use sqlite::{Alter, Connection};
use std::alloc::Global;

/// Keeps cells and a generation in the table `cell` of a SQLite database, over any store of the crate `sqlite`.
///
/// A row has a shelf, a key and a body; the generation stands on shelf 0 under the empty key, in decimal, and is 0 without that row.
/// A commit is one transaction, and so is what settles a load or a question for the generation: the same generation, written again.
/// Each refusal but want of memory is counted as a fault, and in `generation` each refusal. The count stands still at 2^64 - 1.
///
/// Where nothing of the database it was adopted with had the table's name, or this table stood there, whatever stood beside it, it tells
/// what it holds, and what a crash may leave, for as long as the disk gives back what was written and the connection is open and in no
/// transaction. A database without the table holds nothing.
pub struct SqliteKeeper<S: Alter> {
    alloc: Global,
    connection: Connection<S>,
    faults: u64,
    is_known: bool,
    ghost known: { IsTrue is_known → Tells (state S.Store connection) → IsKnown (state S.Store connection).committed.schema } by { KnownWhereTells-prop is_known (state S.Store connection) },
}

impl<S: Alter + Drop> Drop for SqliteKeeper<S> {
    fn drop(self) {
        let SqliteKeeper {
            alloc: _,
            connection: _,
            faults: _,
            is_known: _,
        } = self;
    }
}

impl<S: Alter> SqliteKeeper<S> {
    /// A keeper over the database of a connection. No statement is run: the table is made by the first `load`, where the database
    /// has none. Takes no memory.
    pub fn adopt(alloc: Global, connection: Connection<S>) -> SqliteKeeper<S>
        ensures connection { result.connection ≡ connection }
        ensures faults { result.faults ≡ 0 }
        ensures known { IsTrue result.is_known ↔ IsKnown (state S.Store connection).now.schema }
    {
        recall(&connection);
        let is_known = is_known(connection.schema());
        SqliteKeeper {
            alloc,
            connection,
            faults: 0,
            is_known,
        }
    }

    /// The connection.
    pub fn into_connection(self) -> Connection<S>
        ensures { result ≡ self.connection }
    {
        let SqliteKeeper {
            alloc: _,
            connection,
            faults: _,
            is_known: _,
        } = self;
        connection
    }
}

fn count(faults: &mut u64)
    ensures later { faults.old ≤ faults.new }
    ensures rose { Rose faults.old faults.new }
{
    *faults = faults.saturating_add(1);
}

// Counts what an answer tells.
fn count_in<T: Drop>(faults: &mut u64, answer: Result<T, Fault>) -> Result<T, Fault>
    ensures same { result ≡ answer }
    ensures cause { HasKeepCause faults.old faults.new result }
{
    match answer {
        Ok(value) => Ok(value),
        Err(Fault::Memory) => Err(Fault::Memory),
        Err(Fault::Failed) => {
            count(faults);
            Err(Fault::Failed)
        }
    }
}

// Counts what an answer to a question for the generation tells: a refusal, or what can't be.
fn count_near(faults: &mut u64, from: u64, answer: Result<u64, Failed>) -> Result<u64, Failed>
    requires { from < 2 ^ 64 - 1 }
    ensures same { result ≡ answer }
    ensures cause { HasGenerationCause from faults.old faults.new result }
{
    match answer {
        Ok(generation) if generation == from || generation == from + 1 => Ok(generation),
        other => {
            count(faults);
            other
        }
    }
}

impl<S: Alter> Keeper for SqliteKeeper<S> {
    ghost tells = { λ s. IsTrue s.is_known × Tells (state S.Store s.connection) };

    ghost holds = { λ s held. Holds (state S.Store s.connection) held };

    ghost honest = { λ s. IsTrue s.is_known × HasCleanDisk (state S.Store s.connection) };

    ghost may_leave = { λ s left. MayLeave (state S.Store s.connection) left };

    ghost loads = { λ old result new. HasCleanDisk (state S.Store new.connection) → IfOk result (LoadsTable S.Store old.connection) };

    ghost asks = { λ old from result new. HasCleanDisk (state S.Store new.connection) → IfOk result (FindsGeneration S.Store old.connection) };

    ghost faults = { λ s. s.faults };

    ghost fails_no_more = { λ s. ⊥ };

    fn fault_count(&self) -> u64 {
        self.faults
    }

    fn load(&mut self) -> Result<Loaded, Fault>
        ensures order { IfOk result (λ loaded. AreCells loaded.cells) }
        ensures cause { HasKeepCause self.old.faults self.new.faults result }
        ensures found { HasCleanDisk (state S.Store self.new.connection) → IfOk result (LoadsTable S.Store self.old.connection) }
        ensures known { self.new.is_known ≡ self.old.is_known }
        ensures answer { HasCleanDisk (state S.Store self.new.connection) → IfOk result (IsToldBy (state S.Store self.old.connection) (state S.Store self.new.connection)) }
        ensures kept { HasCleanDisk (state S.Store self.new.connection) → OnErr result (KeepsCommit (state S.Store self.old.connection) (state S.Store self.new.connection)) }
        ensures ready { HasCleanDisk (state S.Store self.new.connection) → IsErrOf result Memory → IsReady (state S.Store self.new.connection) }
        ensures tells { Tells (state S.Store self.new.connection) → Tells (state S.Store self.old.connection) }
        ensures same { Tells (state S.Store self.new.connection) → (held : Loaded) → Holds (state S.Store self.old.connection) held → Holds (state S.Store self.new.connection) held }
        ensures told { IsTrue self.old.is_known → Tells (state S.Store self.new.connection) → IfOk result (λ loaded. LoadsHeld loaded (Holds (state S.Store self.old.connection)) (Holds (state S.Store self.new.connection))) }
        ensures honest { HasCleanDisk (state S.Store self.new.connection) → HasCleanDisk (state S.Store self.old.connection) × (IsOk result → Tells (state S.Store self.new.connection)) }
        ensures clean { IsTrue self.new.is_known × HasCleanDisk (state S.Store self.new.connection) → (IsTrue self.new.is_known × Tells (state S.Store self.new.connection)) ⊎ Rose self.old.faults self.new.faults }
        ensures survives { Survives (state S.Store self.old.connection) (state S.Store self.new.connection) (LeavesNext (λ held. held) (state S.Store self.old.connection)) }
        ensures crash { IsTrue self.new.is_known × HasCleanDisk (state S.Store self.new.connection) → LeavesAs self.old.is_known (λ held. held) (state S.Store self.old.connection) (state S.Store self.new.connection) }
        ensures settled { IsTrue self.new.is_known × Tells (state S.Store self.new.connection) → IsSettled (Holds (state S.Store self.new.connection)) (MayLeave (state S.Store self.new.connection)) }
    {
        let answer = load_from(self.alloc, &mut self.connection);
        count_in(&mut self.faults, answer)
    }

    fn generation(&mut self, from: u64) -> Result<u64, Failed>
        requires { from < 2 ^ 64 - 1 }
        ensures cause { HasGenerationCause from self.old.faults self.new.faults result }
        ensures found { HasCleanDisk (state S.Store self.new.connection) → IfOk result (FindsGeneration S.Store self.old.connection) }
        ensures known { self.new.is_known ≡ self.old.is_known }
        ensures answer { HasCleanDisk (state S.Store self.new.connection) → IfOk result (IsGenerationBy (state S.Store self.old.connection) (state S.Store self.new.connection)) }
        ensures kept { HasCleanDisk (state S.Store self.new.connection) → OnErr result (KeepsCommit (state S.Store self.old.connection) (state S.Store self.new.connection)) }
        ensures tells { Tells (state S.Store self.new.connection) → Tells (state S.Store self.old.connection) }
        ensures same { Tells (state S.Store self.new.connection) → (held : Loaded) → Holds (state S.Store self.old.connection) held → Holds (state S.Store self.new.connection) held }
        ensures told { Tells (state S.Store self.new.connection) → IfOk result (λ n. (held : Loaded) → Holds (state S.Store self.old.connection) held → held.generation ≡ n) }
        ensures honest { HasCleanDisk (state S.Store self.new.connection) → HasCleanDisk (state S.Store self.old.connection) × (IsOk result → Tells (state S.Store self.new.connection)) }
        ensures clean { IsTrue self.new.is_known × HasCleanDisk (state S.Store self.new.connection) → (IsTrue self.new.is_known × Tells (state S.Store self.new.connection)) ⊎ Rose self.old.faults self.new.faults }
        ensures survives { Survives (state S.Store self.old.connection) (state S.Store self.new.connection) (LeavesNext (λ held. held) (state S.Store self.old.connection)) }
        ensures crash { IsTrue self.new.is_known × HasCleanDisk (state S.Store self.new.connection) → LeavesAs self.old.is_known (λ held. held) (state S.Store self.old.connection) (state S.Store self.new.connection) }
        ensures settled { IsTrue self.new.is_known × Tells (state S.Store self.new.connection) → IsSettled (Holds (state S.Store self.new.connection)) (MayLeave (state S.Store self.new.connection)) }
    {
        let answer = generation_in(&mut self.connection);
        count_near(&mut self.faults, from, answer)
    }

    fn commit(&mut self, from: u64, changes: &[Change]) -> Result<(), Fault>
        requires from { from < 2 ^ 64 - 1 }
        requires changes { AreChanges changes.now }
        ensures cause { HasKeepCause self.old.faults self.new.faults result }
        ensures known { self.new.is_known ≡ self.old.is_known }
        ensures answer { HasCleanDisk (state S.Store self.new.connection) → OnOk result (CallMakes (state S.Store self.old.connection) (state S.Store self.new.connection) (committed from changes.now)) }
        ensures tells { Tells (state S.Store self.new.connection) → Tells (state S.Store self.old.connection) }
        ensures made { Tells (state S.Store self.new.connection) → (held : Loaded) → Holds (state S.Store self.old.connection) held → CommitsOrNot from changes.now result (Holds (state S.Store self.new.connection)) held }
        ensures held { IsTrue self.new.is_known × Tells (state S.Store self.new.connection) → (held : Loaded) → Holds (state S.Store self.old.connection) held → Made from changes.now result (Holds (state S.Store self.new.connection)) held }
        ensures honest { HasCleanDisk (state S.Store self.new.connection) → HasCleanDisk (state S.Store self.old.connection) × (IsOk result → Tells (state S.Store self.new.connection)) }
        ensures clean { IsTrue self.new.is_known × HasCleanDisk (state S.Store self.new.connection) → (IsTrue self.new.is_known × Tells (state S.Store self.new.connection)) ⊎ Rose self.old.faults self.new.faults }
        ensures survives { Survives (state S.Store self.old.connection) (state S.Store self.new.connection) (LeavesNext (committed from changes.now) (state S.Store self.old.connection)) }
        ensures crash { IsTrue self.new.is_known × HasCleanDisk (state S.Store self.new.connection) → LeavesAs self.old.is_known (committed from changes.now) (state S.Store self.old.connection) (state S.Store self.new.connection) }
        ensures memory { HasCleanDisk (state S.Store self.new.connection) → IsErrOf result Memory → LeavesNoMore (state S.Store self.old.connection) (state S.Store self.new.connection) }
        ensures ready { HasCleanDisk (state S.Store self.new.connection) → IsErrOf result Memory → IsReady (state S.Store self.new.connection) }
        ensures outcome { Tells (state S.Store self.new.connection) → IsSettled (Holds (state S.Store self.new.connection)) (MayLeave (state S.Store self.new.connection)) }
        ensures settled { IsTrue self.new.is_known × Tells (state S.Store self.new.connection) → IsSettled (Holds (state S.Store self.new.connection)) (MayLeave (state S.Store self.new.connection)) }
    {
        let answer = write(&mut self.connection, false, from + 1, changes);
        count_in(&mut self.faults, answer)
    }

    ghost steady_tells = { λ keeper steady. absurd steady };

    ghost tells_honestly = { λ keeper tells. (tells.0, tells.1.honest) };

    ghost holds_one = { λ keeper one two told is also. stand_same _ _ one two refl is also };
}
