// The statements, each in a function of its own.
ghost use Rattle.std.specs.Prelude.{◌≡◌, ◌∷◌, [], false, IfErr, IfOk, IsTrue, OnOk};
ghost use Rattle.sqlite.specs.declared.error.Error as Error;
ghost use Rattle.sqlite.specs.declared.error.ErrorCode as ErrorCode;
ghost use Rattle.rv_base.specs.Sorted.{put_by, without};
ghost use Rattle.rv_keeper.specs.Cells.{cell_key, changed_by};
ghost use Rattle.std.specs.Borrow.{sem, RestsIfErr};
ghost use Rattle.sqlite.specs.contracts.connection.Connection.{the_row};
ghost use Rattle.sqlite.specs.State.{CommitsShowing, HasCleanDisk, QueriesRow, Survives};
ghost use Rattle.sqlite.specs.Held.{state};
ghost use Rattle.sqlite.specs.Given.{HasBegun, IsRefused};
ghost use Rattle.rv_sqlite.specs.Asked.{FindsRow, generation_key, one_text};
ghost use Rattle.rv_sqlite.specs.Loads.{all_text};
ghost use Rattle.rv_sqlite.specs.Steps.{IsReady, KeepsWhereClean, StepsWhereClean, cell_of, generation_cell};

use itoa::Buffer;
use rv_keeper::Change;
use sqlite::{Alter, Connection, Error, ErrorCode, Row, Rows, Transaction, params};

const MAKE: &str =
    "CREATE TABLE IF NOT EXISTS cell (shelf INTEGER NOT NULL, k BLOB NOT NULL, body BLOB NOT NULL, PRIMARY KEY (shelf, k)) STRICT";

const ALL: &str = "SELECT shelf, k, body FROM cell ORDER BY shelf, k";

const ONE: &str = "SELECT body FROM cell WHERE shelf = ?1 AND k = ?2";

const PUT: &str =
    "INSERT INTO cell (shelf, k, body) VALUES (?1, ?2, ?3) ON CONFLICT (shelf, k) DO UPDATE SET body = excluded.body";

const REMOVE: &str = "DELETE FROM cell WHERE shelf = ?1 AND k = ?2";

/// The shelf of the one cell that is none of the store's own: its key is empty, and its body is the generation in decimal.
pub(crate) const GENERATION_SHELF: u8 = 0;

/// All rows, in the order of shelves and then of keys, one at a time.
pub(crate) fn all_rows<S: Alter>(connection: &mut Connection<S>) -> Result<Rows<'_, S>, Error>
    ensures* refused { sem 𝓛 (RestsIfErr (the_row S.row S.Store) connection.entry (λ rows. rows.conn.ghost_name) result (IsRefused S.Store all_text [] connection.old result)) }
    ensures same_reference { IfOk result (λ rows. rows.conn.ghost_name ≡ connection.entry.ghost_name) }
    ensures begun { IfOk result (λ rows. HasCleanDisk (state S.Store rows.conn.now) → HasBegun S.Store all_text [] connection.old rows.conn.now) }
    ensures mode { IfOk result (λ rows. connection.old.in_transaction ≡ false → rows.conn.now.in_transaction ≡ false) }
    ensures survives { IfOk result (λ rows. Survives (state S.Store connection.old) (state S.Store rows.conn.now) (CommitsShowing all_text [] (state S.Store connection.old))) }
{
    connection.query(ALL, &[])
}

// Asks for the row of the generation.
fn ask<S: Alter>(connection: &mut Connection<S>) -> Result<Row, Error>
    ensures asked { HasCleanDisk (state S.Store connection.new) → QueriesRow one_text generation_key (state S.Store connection.old) (state S.Store connection.new) result }
    ensures mode { connection.old.in_transaction ≡ false → connection.new.in_transaction ≡ false }
    ensures kept { KeepsWhereClean S.Store connection.old connection.new }
    ensures survives { Survives (state S.Store connection.old) (state S.Store connection.new) (λ _. ⊥) }
{
    connection.query_row(ONE, params![u32::from(GENERATION_SHELF), b"".as_slice()])
}

/// The row of the generation, if there is one.
pub(crate) fn generation_row<S: Alter>(connection: &mut Connection<S>) -> Result<Option<Row>, Error>
    ensures found { HasCleanDisk (state S.Store connection.new) → IfOk result (FindsRow (state S.Store connection.old) (state S.Store connection.new)) }
    ensures mode { connection.old.in_transaction ≡ false → connection.new.in_transaction ≡ false }
    ensures kept { KeepsWhereClean S.Store connection.old connection.new }
    ensures survives { Survives (state S.Store connection.old) (state S.Store connection.new) (λ _. ⊥) }
{
    match ask(connection) {
        Ok(row) => Ok(Some(row)),
        Err(Error::QueryReturnedNoRows) => Ok(None),
        Err(error) => Err(error),
    }
}

/// Makes the table, where there is none.
#[tactic(auto, using(crate::proofs::Kept::step_keeps))]
pub(crate) fn make_table<S: Alter>(transaction: &mut Transaction<'_, S>) -> Result<(), Error>
    ensures same_reference { transaction.new.conn.ghost_name ≡ transaction.old.conn.ghost_name }
    ensures steps { StepsWhereClean S.Store transaction.old.conn.now transaction.new.conn.now result (λ cells. cells) }
    ensures kept { KeepsWhereClean S.Store transaction.old.conn.now transaction.new.conn.now }
    ensures survives { Survives (state S.Store transaction.old.conn.now) (state S.Store transaction.new.conn.now) (λ _. ⊥) }
{
    transaction.execute(MAKE, &[])?;
    Ok(())
}

// Writes a row, over one at its place.
#[tactic(auto, using(crate::proofs::Kept::step_keeps))]
fn put_row<S: Alter>(
    transaction: &mut Transaction<'_, S>,
    shelf: u8,
    key: &[u8],
    body: &[u8],
) -> Result<(), Error>
    ensures same_reference { transaction.new.conn.ghost_name ≡ transaction.old.conn.ghost_name }
    ensures steps { StepsWhereClean S.Store transaction.old.conn.now transaction.new.conn.now result (put_by cell_key (cell_of shelf key.now body.now)) }
    ensures kept { KeepsWhereClean S.Store transaction.old.conn.now transaction.new.conn.now }
    ensures survives { Survives (state S.Store transaction.old.conn.now) (state S.Store transaction.new.conn.now) (λ _. ⊥) }
{
    transaction.execute(PUT, params![u32::from(shelf), key, body])?;
    Ok(())
}

// Takes the row at a place away, if there is one.
#[tactic(auto, using(crate::proofs::Kept::step_keeps))]
fn remove_row<S: Alter>(
    transaction: &mut Transaction<'_, S>,
    shelf: u8,
    key: &[u8],
) -> Result<(), Error>
    ensures same_reference { transaction.new.conn.ghost_name ≡ transaction.old.conn.ghost_name }
    ensures steps { StepsWhereClean S.Store transaction.old.conn.now transaction.new.conn.now result (without cell_key (shelf ∷ key.now)) }
    ensures kept { KeepsWhereClean S.Store transaction.old.conn.now transaction.new.conn.now }
    ensures survives { Survives (state S.Store transaction.old.conn.now) (state S.Store transaction.new.conn.now) (λ _. ⊥) }
{
    transaction.execute(REMOVE, params![u32::from(shelf), key])?;
    Ok(())
}

/// Makes one change.
pub(crate) fn make_change<S: Alter>(
    transaction: &mut Transaction<'_, S>,
    change: &Change,
) -> Result<(), Error>
    ensures same_reference { transaction.new.conn.ghost_name ≡ transaction.old.conn.ghost_name }
    ensures steps { StepsWhereClean S.Store transaction.old.conn.now transaction.new.conn.now result (λ cells. changed_by cells change.now) }
    ensures kept { KeepsWhereClean S.Store transaction.old.conn.now transaction.new.conn.now }
    ensures survives { Survives (state S.Store transaction.old.conn.now) (state S.Store transaction.new.conn.now) (λ _. ⊥) }
{
    match change {
        Change::Put(cell) => put_row(
            transaction,
            cell.shelf,
            cell.key.as_slice(),
            cell.body.as_slice(),
        ),
        Change::Remove(shelf, key) => remove_row(transaction, *shelf, key.as_slice()),
    }
}

/// Writes the generation.
pub(crate) fn put_generation<S: Alter>(
    transaction: &mut Transaction<'_, S>,
    generation: u64,
) -> Result<(), Error>
    ensures same_reference { transaction.new.conn.ghost_name ≡ transaction.old.conn.ghost_name }
    ensures steps { StepsWhereClean S.Store transaction.old.conn.now transaction.new.conn.now result (put_by cell_key (generation_cell generation)) }
    ensures kept { KeepsWhereClean S.Store transaction.old.conn.now transaction.new.conn.now }
    ensures survives { Survives (state S.Store transaction.old.conn.now) (state S.Store transaction.new.conn.now) (λ _. ⊥) }
{
    let mut digits = Buffer::new();
    let text = digits.format(generation);
    put_row(
        transaction,
        GENERATION_SHELF,
        b"".as_slice(),
        text.as_bytes(),
    )
}

// Runs a ROLLBACK outside a transaction, where it is refused.
fn roll_nothing_back<S: Alter>(connection: &mut Connection<S>) -> Result<usize, Error>
    requires autocommit { connection.old.in_transaction ≡ false }
    ensures ready { HasCleanDisk (state S.Store connection.new) → IfErr result (λ e. e ≡ Error.SqliteFailure ErrorCode.TransactionState → IsReady (state S.Store connection.new)) }
    ensures kept { KeepsWhereClean S.Store connection.old connection.new }
    ensures survives { Survives (state S.Store connection.old) (state S.Store connection.new) (λ _. ⊥) }
{
    connection.execute("ROLLBACK", &[])
}

/// The connection is open, and in no transaction: then alone a ROLLBACK is refused for the state of the transaction, and changes
/// nothing.
pub(crate) fn is_settled<S: Alter>(connection: &mut Connection<S>) -> bool
    requires autocommit { connection.old.in_transaction ≡ false }
    ensures ready { HasCleanDisk (state S.Store connection.new) → IsTrue result → IsReady (state S.Store connection.new) }
    ensures kept { KeepsWhereClean S.Store connection.old connection.new }
    ensures survives { Survives (state S.Store connection.old) (state S.Store connection.new) (λ _. ⊥) }
{
    let refused = roll_nothing_back(connection);
    matches!(
        refused,
        Err(Error::SqliteFailure(ErrorCode::TransactionState))
    )
}
