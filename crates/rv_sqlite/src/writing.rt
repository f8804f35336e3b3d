// A write: one transaction.
ghost use Rattle.std.specs.Prelude.{◌≡◌, Ok, false, IfOk, IsErrOf, IsTrue, OnErr, OnOk};
ghost use Rattle.rv_base.specs.declared.fault.Fault.TheVariants.{Memory};
ghost use Rattle.rv_keeper.specs.Cells.{changed};
ghost use Rattle.sqlite.specs.State.{HasCleanDisk, KeepsCommit, Survives};
ghost use Rattle.sqlite.specs.Held.{state};
ghost use Rattle.rv_sqlite.specs.Faults.{fault_of};
ghost use Rattle.rv_sqlite.specs.Steps.{Comes, IsReady, IsSettledWhereOpen, IsUnderWay, KeepsWhereClean, ShowsCommitted, StepsWhereClean, WritesCells, all_next};

use crate::statements::{is_settled, make_change, make_table, put_generation};
use rv_base::Fault;
use rv_keeper::Change;
use sqlite::{Alter, Connection, Error, ErrorCode, Transaction};

/// What a refused statement is to a keeper: want of memory, or a fault.
pub fn fault_of(error: Error) -> Fault
    ensures { result ≡ fault_of error }
{
    match error {
        Error::SqliteFailure(ErrorCode::OutOfMemory) => Fault::Memory,
        _ => Fault::Failed,
    }
}

// Makes the table, where that is asked and there is none.
fn prepare<S: Alter>(transaction: &mut Transaction<'_, S>, makes_table: bool) -> Result<(), Error>
    ensures same_reference { transaction.new.conn.ghost_name ≡ transaction.old.conn.ghost_name }
    ensures steps { IsUnderWay (state S.Store transaction.old.conn.now) → StepsWhereClean S.Store transaction.old.conn.now transaction.new.conn.now result (λ cells. cells) }
    ensures kept { KeepsWhereClean S.Store transaction.old.conn.now transaction.new.conn.now }
    ensures survives { Survives (state S.Store transaction.old.conn.now) (state S.Store transaction.new.conn.now) (λ _. ⊥) }
{
    if makes_table {
        make_table(transaction)
    } else {
        Ok(())
    }
}

// Makes the changes in turn.
fn make_changes<S: Alter>(
    transaction: &mut Transaction<'_, S>,
    changes: &[Change],
) -> Result<(), Error>
    ensures same_reference { transaction.new.conn.ghost_name ≡ transaction.old.conn.ghost_name }
    ensures steps { IsUnderWay (state S.Store transaction.old.conn.now) → StepsWhereClean S.Store transaction.old.conn.now transaction.new.conn.now result (λ cells. changed cells changes.now) }
    ensures kept { KeepsWhereClean S.Store transaction.old.conn.now transaction.new.conn.now }
    ensures survives { Survives (state S.Store transaction.old.conn.now) (state S.Store transaction.new.conn.now) (λ _. ⊥) }
{
    for change in changes {
        make_change(transaction, change)?;
    }
    Ok(())
}

// Makes the table where that is asked, makes the changes in turn, and then writes the generation.
#[tactic(auto, using(crate::proofs::Kept::keeps_then))]
fn fill<S: Alter>(
    transaction: &mut Transaction<'_, S>,
    makes_table: bool,
    generation: u64,
    changes: &[Change],
) -> Result<(), Error>
    ensures same_reference { transaction.new.conn.ghost_name ≡ transaction.old.conn.ghost_name }
    ensures steps { IsTrue transaction.old.conn.now.in_transaction → StepsWhereClean S.Store transaction.old.conn.now transaction.new.conn.now result (all_next generation changes.now) }
    ensures kept { KeepsWhereClean S.Store transaction.old.conn.now transaction.new.conn.now }
    ensures survives { Survives (state S.Store transaction.old.conn.now) (state S.Store transaction.new.conn.now) (λ _. ⊥) }
{
    prepare(transaction, makes_table)?;
    make_changes(transaction, changes)?;
    put_generation(transaction, generation)
}

// Ends the transaction: at Ok what it had is committed. Where that is refused it may have been made.
#[tactic(auto, using(crate::proofs::Kept::refused_keeps))]
fn finish<S: Alter>(transaction: Transaction<'_, S>) -> Result<(), Fault>
    ensures committed { HasCleanDisk (state S.Store transaction.exit.0.now) → OnOk result ((state S.Store transaction.exit.0.now).committed ≡ (state S.Store transaction.entry.conn.now).now) }
    ensures shown { HasCleanDisk (state S.Store transaction.exit.0.now) → OnOk result (ShowsCommitted (state S.Store transaction.entry.conn.now) (state S.Store transaction.exit.0.now)) }
    ensures kept { HasCleanDisk (state S.Store transaction.exit.0.now) → OnErr result (KeepsCommit (state S.Store transaction.entry.conn.now) (state S.Store transaction.exit.0.now)) }
    ensures survives { Survives (state S.Store transaction.entry.conn.now) (state S.Store transaction.exit.0.now) (λ trees. trees ≡ (state S.Store transaction.entry.conn.now).now.trees) }
    ensures ended { transaction.exit.0.now.in_transaction ≡ false }
    ensures doubt { ¬ IsErrOf result Memory }
{
    match transaction.commit() {
        Ok(()) => Ok(()),
        Err(_) => Err(Fault::Failed),
    }
}

// Fills a transaction and commits it. A statement that was refused is the outer `Err`, and the transaction is rolled back; what comes of
// the commit is never told as want of memory.
fn attempt<S: Alter>(
    connection: &mut Connection<S>,
    makes_table: bool,
    generation: u64,
    changes: &[Change],
) -> Result<Result<(), Fault>, Error>
    requires autocommit { connection.old.in_transaction ≡ false }
    requires settled { IsSettledWhereOpen (state S.Store connection.old) }
    ensures comes { HasCleanDisk (state S.Store connection.new) → IfOk result (Comes (state S.Store connection.old) (state S.Store connection.new) generation changes.now) }
    ensures kept { HasCleanDisk (state S.Store connection.new) → OnErr result (KeepsCommit (state S.Store connection.old) (state S.Store connection.new)) }
    ensures survives { Survives (state S.Store connection.old) (state S.Store connection.new) (WritesCells (state S.Store connection.old) generation changes.now) }
    ensures refused { OnErr result (Survives (state S.Store connection.old) (state S.Store connection.new) (λ _. ⊥)) }
    ensures ended { connection.new.in_transaction ≡ false }
    ensures doubt { IfOk result (λ ended. ¬ IsErrOf ended Memory) }
{
    let mut transaction = connection.transaction();
    match fill(&mut transaction, makes_table, generation, changes) {
        Ok(()) => Ok(finish(transaction)),
        Err(error) => {
            transaction.rollback();
            Err(error)
        }
    }
}

/// The fault of a call that committed nothing, as it is told: want of memory only of a connection that is open and in no transaction.
/// So a rollback that failed is a fault.
pub(crate) fn settled_fault<S: Alter>(connection: &mut Connection<S>, fault: Fault) -> Fault
    requires autocommit { connection.old.in_transaction ≡ false }
    ensures ready { HasCleanDisk (state S.Store connection.new) → result ≡ Memory → IsReady (state S.Store connection.new) }
    ensures kept { KeepsWhereClean S.Store connection.old connection.new }
    ensures survives { Survives (state S.Store connection.old) (state S.Store connection.new) (λ _. ⊥) }
{
    if is_settled(connection) {
        fault
    } else {
        Fault::Failed
    }
}

/// Makes the table where that is asked, makes the changes and writes the generation, in one transaction. `Memory`: nothing was changed.
pub(crate) fn write<S: Alter>(
    connection: &mut Connection<S>,
    makes_table: bool,
    generation: u64,
    changes: &[Change],
) -> Result<(), Fault>
    ensures comes { HasCleanDisk (state S.Store connection.new) → Comes (state S.Store connection.old) (state S.Store connection.new) generation changes.now result }
    ensures survives { Survives (state S.Store connection.old) (state S.Store connection.new) (WritesCells (state S.Store connection.old) generation changes.now) }
    ensures memory { IsErrOf result Memory → Survives (state S.Store connection.old) (state S.Store connection.new) (λ _. ⊥) }
    ensures ready { HasCleanDisk (state S.Store connection.new) → IsErrOf result Memory → IsReady (state S.Store connection.new) }
    ensures outside { connection.new.in_transaction ≡ false → connection.old.in_transaction ≡ false }
{
    if !connection.is_autocommit() {
        return Err(Fault::Failed);
    }
    match attempt(connection, makes_table, generation, changes) {
        Ok(ended) => ended,
        Err(error) => Err(settled_fault(connection, fault_of(error))),
    }
}
