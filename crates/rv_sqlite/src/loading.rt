// What the table has, settled by a commit before it is told.
ghost use Rattle.std.specs.Prelude.{◌≡◌, ◌<◌, ◌^◌, [], codes, false, IfOk, IfSome, IsErrOf, None, OnErr};
ghost use Rattle.sqlite_schema.specs.Names.{table_named};
ghost use Rattle.rv_base.specs.declared.fault.Fault.TheVariants.{Memory};
ghost use Rattle.rv_keeper.specs.Cells.{AreCells};
ghost use Rattle.rv_keeper.specs.Keeping.{holding};
ghost use Rattle.sqlite.specs.State.{HasCleanDisk, KeepsCommit, Survives};
ghost use Rattle.sqlite.specs.Held.{state};
ghost use Rattle.rv_sqlite.specs.Asked.{FindsGeneration, FindsNumber};
ghost use Rattle.rv_sqlite.specs.Loads.{LoadsTable};
ghost use Rattle.rv_sqlite.specs.Rows.{ShowsNumber};
ghost use Rattle.rv_sqlite.specs.Steps.{IsReady, IsSettledWhereOpen, KeepsWhereClean};
ghost use Rattle.rv_sqlite.specs.Telling.{IsGenerationBy, IsToldBy, LeavesNext, Tells};

use crate::connected::recall;
use crate::number::number_in;
use crate::reading::read_table;
use crate::statements::generation_row;
use crate::table::{TableFound, find_table};
use crate::writing::{settled_fault, write};
use rv_base::{Failed, Fault};
use rv_keeper::{Cells, Loaded};
use sqlite::types::ValueRef;
use sqlite::{Alter, Connection, Row};
use std::alloc::Global;

// Makes the table, in which there is nothing.
fn load_nothing<S: Alter>(alloc: Global, connection: &mut Connection<S>) -> Result<Loaded, Fault>
    requires autocommit { connection.old.in_transaction ≡ false }
    requires settled { IsSettledWhereOpen (state S.Store connection.old) }
    requires none { table_named (state S.Store connection.old).now.schema (codes "cell") ≡ None }
    ensures nothing { IfOk result (λ loaded. loaded ≡ holding [] 0) }
    ensures told { HasCleanDisk (state S.Store connection.new) → IfOk result (IsToldBy (state S.Store connection.old) (state S.Store connection.new)) }
    ensures kept { HasCleanDisk (state S.Store connection.new) → OnErr result (KeepsCommit (state S.Store connection.old) (state S.Store connection.new)) }
    ensures ready { HasCleanDisk (state S.Store connection.new) → IsErrOf result Memory → IsReady (state S.Store connection.new) }
    ensures survives { Survives (state S.Store connection.old) (state S.Store connection.new) (LeavesNext (λ held. held) (state S.Store connection.old)) }
{
    recall(connection);
    write(connection, true, 0, &[])?;
    Ok(Loaded {
        cells: Cells::from_vec(Vec::new(alloc)),
        generation: 0,
    })
}

// What the table has, which is settled by a write of the same generation.
fn load_table<S: Alter>(alloc: Global, connection: &mut Connection<S>) -> Result<Loaded, Fault>
    requires autocommit { connection.old.in_transaction ≡ false }
    requires settled { IsSettledWhereOpen (state S.Store connection.old) }
    ensures order { IfOk result (λ loaded. AreCells loaded.cells) }
    ensures small { IfOk result (λ loaded. loaded.generation < 2 ^ 64) }
    ensures found { HasCleanDisk (state S.Store connection.new) → IfOk result (LoadsTable S.Store connection.old) }
    ensures told { HasCleanDisk (state S.Store connection.new) → IfOk result (IsToldBy (state S.Store connection.old) (state S.Store connection.new)) }
    ensures kept { HasCleanDisk (state S.Store connection.new) → OnErr result (KeepsCommit (state S.Store connection.old) (state S.Store connection.new)) }
    ensures ready { HasCleanDisk (state S.Store connection.new) → IsErrOf result Memory → IsReady (state S.Store connection.new) }
    ensures survives { Survives (state S.Store connection.old) (state S.Store connection.new) (LeavesNext (λ held. held) (state S.Store connection.old)) }
{
    recall(connection);
    let loaded = match read_table(alloc, connection) {
        Ok(loaded) => loaded,
        Err(fault) => return Err(settled_fault(connection, fault)),
    };
    write(connection, false, loaded.generation, &[])?;
    Ok(loaded)
}

/// What the table has, and nothing where there was none, which is made then.
pub(crate) fn load_from<S: Alter>(
    alloc: Global,
    connection: &mut Connection<S>,
) -> Result<Loaded, Fault>
    ensures order { IfOk result (λ loaded. AreCells loaded.cells) }
    ensures small { IfOk result (λ loaded. loaded.generation < 2 ^ 64) }
    ensures found { HasCleanDisk (state S.Store connection.new) → IfOk result (LoadsTable S.Store connection.old) }
    ensures told { HasCleanDisk (state S.Store connection.new) → IfOk result (IsToldBy (state S.Store connection.old) (state S.Store connection.new)) }
    ensures kept { HasCleanDisk (state S.Store connection.new) → OnErr result (KeepsCommit (state S.Store connection.old) (state S.Store connection.new)) }
    ensures ready { HasCleanDisk (state S.Store connection.new) → IsErrOf result Memory → IsReady (state S.Store connection.new) }
    ensures survives { Survives (state S.Store connection.old) (state S.Store connection.new) (LeavesNext (λ held. held) (state S.Store connection.old)) }
    ensures tells { Tells (state S.Store connection.new) → Tells (state S.Store connection.old) }
{
    if !connection.is_autocommit() {
        return Err(Fault::Failed);
    }
    match find_table(connection.schema()) {
        TableFound::Missing => load_nothing(alloc, connection),
        TableFound::Fits => load_table(alloc, connection),
        TableFound::Other => Err(Fault::Failed),
    }
}

// The number in the row of the generation.
fn generation_of(row: &Row) -> Option<u64>
    ensures { IfSome result (ShowsNumber row.now) }
{
    match row.get_ref(0) {
        Ok(ValueRef::Blob(body)) => number_in(body),
        _ => None,
    }
}

// The generation that the table has.
fn read_generation<S: Alter>(connection: &mut Connection<S>) -> Option<u64>
    ensures small { IfSome result (λ number. number < 2 ^ 64) }
    ensures found { HasCleanDisk (state S.Store connection.new) → IfSome result (FindsNumber (state S.Store connection.old) (state S.Store connection.new)) }
    ensures mode { connection.old.in_transaction ≡ false → connection.new.in_transaction ≡ false }
    ensures kept { KeepsWhereClean S.Store connection.old connection.new }
    ensures survives { Survives (state S.Store connection.old) (state S.Store connection.new) (λ _. ⊥) }
{
    match generation_row(connection) {
        Ok(Some(row)) => generation_of(&row),
        Ok(None) => Some(0),
        Err(_) => None,
    }
}

/// The generation that the table has, which is settled by a write of the same.
pub(crate) fn generation_in<S: Alter>(connection: &mut Connection<S>) -> Result<u64, Failed>
    ensures found { HasCleanDisk (state S.Store connection.new) → IfOk result (FindsGeneration S.Store connection.old) }
    ensures told { HasCleanDisk (state S.Store connection.new) → IfOk result (IsGenerationBy (state S.Store connection.old) (state S.Store connection.new)) }
    ensures kept { HasCleanDisk (state S.Store connection.new) → OnErr result (KeepsCommit (state S.Store connection.old) (state S.Store connection.new)) }
    ensures survives { Survives (state S.Store connection.old) (state S.Store connection.new) (LeavesNext (λ held. held) (state S.Store connection.old)) }
    ensures tells { Tells (state S.Store connection.new) → Tells (state S.Store connection.old) }
{
    if !connection.is_autocommit() {
        return Err(Failed);
    }
    let Some(number) = read_generation(connection) else {
        return Err(Failed);
    };
    match write(connection, false, number, &[]) {
        Ok(()) => Ok(number),
        Err(_) => Err(Failed),
    }
}
