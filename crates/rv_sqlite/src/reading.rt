// Rows as cells.
ghost use Rattle.std.specs.Prelude.{◌≡◌, ◌<◌, ◌^◌, ◌++◌, ◌∷◌, [], IfOk, IsTrue, None, OnOk, Some, false, option_to_list};
ghost use Rattle.rv_keeper.specs.Cells.{AreCells};
ghost use Rattle.sqlite_value.specs.declared.value.Value.TheVariants.{Int, Blob};
ghost use Rattle.sqlite_value.specs.Order.{column};
ghost use Rattle.sqlite.specs.State.{HasCleanDisk, Survives};
ghost use Rattle.sqlite.specs.Held.{state};
ghost use Rattle.rv_sqlite.specs.Rows.{IsRow, Shows};
ghost use Rattle.rv_sqlite.specs.Loads.{ReadsTable, cells_among, generations_among};
ghost use Rattle.rv_sqlite.specs.Moves.{MovesTo};
ghost use Rattle.rv_sqlite.specs.Steps.{KeepsWhereClean};

use crate::number::number_in;
use crate::row_read::RowRead;
use crate::statements::{GENERATION_SHELF, all_rows};
use crate::writing::fault_of;
use rv_base::{Bytes, Fault, Memory};
use rv_keeper::{Cell, Cells, Loaded};
use sqlite::{Alter, Connection, Error, Row, Rows};
use std::alloc::Global;
use std::cmp::Ordering;

// The columns of a row.
fn columns_of(row: &Row) -> Result<(i64, Vec<u8>, Vec<u8>), Error>
    ensures { IfOk result (λ columns. (column row.now 0 ≡ Int columns.0) × (column row.now 1 ≡ Blob columns.1.items) × (column row.now 2 ≡ Blob columns.2.items)) }
{
    let shelf = row.get::<i64>(0)?;
    let key = row.get::<Vec<u8>>(1)?;
    let body = row.get::<Vec<u8>>(2)?;
    Ok((shelf, key, body))
}

// What a row with these columns stands for; nothing, where a store has no such row.
fn as_read(shelf: i64, key: Vec<u8>, body: Vec<u8>) -> Option<RowRead>
    ensures { IsRow shelf key.items body.items result }
{
    let shelf = u8::try_from(shelf).ok()?;
    if shelf != GENERATION_SHELF {
        return Some(RowRead::Cell(Cell {
            shelf,
            key: Bytes::from_vec(key),
            body: Bytes::from_vec(body),
        }));
    }
    if !key.is_empty() {
        return None;
    }
    Some(RowRead::Generation(number_in(&body)?))
}

// What the row stands for.
fn read_row(row: &Row) -> Result<RowRead, Fault>
    ensures { IfOk result (Shows row.now) }
{
    match columns_of(row) {
        Ok((shelf, key, body)) => as_read(shelf, key, body).ok_or(Fault::Failed),
        Err(error) => Err(fault_of(error)),
    }
}

// The cell may stand after these.
fn may_end(cells: &[Cell], cell: &Cell) -> bool
    requires { AreCells cells.now }
    ensures { IsTrue result → AreCells (cells.now ++ cell.now ∷ []) }
{
    if cell.shelf == GENERATION_SHELF {
        return false;
    }
    match cells.last() {
        Some(last) => matches!(last.compare(cell.shelf, &cell.key), Ordering::Less),
        None => true,
    }
}

// Adds a cell at the end, where it is in order there.
fn append(cells: &mut Vec<Cell>, cell: Cell) -> Result<(), Fault>
    requires { AreCells cells.old.items }
    ensures order { AreCells cells.new.items }
    ensures added { OnOk result (cells.new.items ≡ cells.old.items ++ cell ∷ []) }
{
    if !may_end(cells, &cell) {
        return Err(Fault::Failed);
    }
    match cells.push(cell) {
        Ok(()) => Ok(()),
        Err(_) => Err(Fault::Memory),
    }
}

// Keeps the generation. A second one is a fault.
fn keep_generation(generation: &mut Option<u64>, number: u64) -> Result<(), Fault>
    ensures { OnOk result ((generation.old ≡ None) × (generation.new ≡ Some number)) }
{
    if generation.is_some() {
        return Err(Fault::Failed);
    }
    *generation = Some(number);
    Ok(())
}

// Adds what a row stands for.
fn gather(cells: &mut Vec<Cell>, generation: &mut Option<u64>, read: RowRead) -> Result<(), Fault>
    requires { AreCells cells.old.items }
    ensures order { AreCells cells.new.items }
    ensures cells { OnOk result (cells.new.items ≡ cells.old.items ++ cells_among (read ∷ [])) }
    ensures generation { OnOk result (option_to_list generation.new ≡ option_to_list generation.old ++ generations_among (read ∷ [])) }
{
    match read {
        RowRead::Cell(cell) => append(cells, cell),
        RowRead::Generation(number) => keep_generation(generation, number),
    }
}

// What the next row stands for, if there is one.
fn next_read<S: Alter>(rows: &mut Rows<'_, S>) -> Result<Option<RowRead>, Fault>
    ensures same_reference { rows.new.conn.ghost_name ≡ rows.old.conn.ghost_name }
    ensures mode { rows.old.conn.now.in_transaction ≡ false → rows.new.conn.now.in_transaction ≡ false }
    ensures found { HasCleanDisk (state S.Store rows.new.conn.now) → IfOk result (MovesTo S.Store rows.old.conn.now rows.new.conn.now) }
    ensures kept { KeepsWhereClean S.Store rows.old.conn.now rows.new.conn.now }
    ensures survives { Survives (state S.Store rows.old.conn.now) (state S.Store rows.new.conn.now) (λ _. ⊥) }
{
    match rows.next() {
        Ok(Some(row)) => Ok(Some(read_row(row)?)),
        Ok(None) => Ok(None),
        Err(error) => Err(fault_of(error)),
    }
}

/// The cells and the generation that the table has. A second row of the generation is a fault.
pub(crate) fn read_table<S: Alter>(
    alloc: Global,
    connection: &mut Connection<S>,
) -> Result<Loaded, Fault>
    ensures order { IfOk result (λ loaded. AreCells loaded.cells) }
    ensures small { IfOk result (λ loaded. loaded.generation < 2 ^ 64) }
    ensures found { HasCleanDisk (state S.Store connection.new) → IfOk result (ReadsTable (state S.Store connection.old) (state S.Store connection.new)) }
    ensures mode { connection.old.in_transaction ≡ false → connection.new.in_transaction ≡ false }
    ensures kept { KeepsWhereClean S.Store connection.old connection.new }
    ensures survives { Survives (state S.Store connection.old) (state S.Store connection.new) (λ _. ⊥) }
{
    let mut cells = Vec::new(alloc);
    let mut generation = None;
    let mut rows = match all_rows(connection) {
        Ok(rows) => rows,
        Err(refused) => return Err(fault_of(refused)),
    };
    for _ in 0..u64::MAX {
        match next_read(&mut rows)? {
            Some(read) => gather(&mut cells, &mut generation, read)?,
            None => {
                return Ok(Loaded {
                    cells: Cells::from_vec(cells),
                    generation: generation.unwrap_or(0),
                });
            }
        }
    }
    Err(Fault::Failed)
}
