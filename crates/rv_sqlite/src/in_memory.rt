// A keeper over a database in memory.
ghost use Rattle.std.specs.Prelude.{[], IfOk, IsTrue};
ghost use Rattle.rv_keeper.specs.Keeping.{holding};
ghost use Rattle.sqlite.specs.Held.{state};
ghost use Rattle.sqlite.specs.Steps.{over_memory};
ghost use Rattle.rv_sqlite.specs.Telling.{Holds, Tells};

use crate::sqlite_keeper::SqliteKeeper;
use rv_base::Memory;
use sqlite::{Connection, MemStore};
use std::alloc::Global;

/// A keeper over a new database in memory. It tells, and holds no cell, at generation 0.
///
/// Nothing in the program calls it: it is there so that what is said of keepers that tell is said of some.
pub fn keeper_in_memory(alloc: Global) -> Result<SqliteKeeper<MemStore>, Memory>
    ensures tells { IfOk result (λ keeper. IsTrue keeper.is_known × Tells (state over_memory keeper.connection)) }
    ensures holds { IfOk result (λ keeper. Holds (state over_memory keeper.connection) (holding [] 0)) }
{
    match Connection::open_in_memory(alloc) {
        Ok(connection) => Ok(SqliteKeeper::adopt(alloc, connection)),
        Err(_) => Err(Memory),
    }
}
