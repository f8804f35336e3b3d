ghost use Rattle.std.specs.Prelude.{◌≡◌, IfOk};
ghost use Rattle.rv_json.specs.ValueData.{value_data};
ghost use Rattle.rv_rows.specs.RowTexts.{row_in};
ghost use Rattle.rv_record.specs.CellTexts.{page_row_cell, row_cell, row_cell_on};
ghost use Rattle.rv_record.specs.CellReading.{ReadsCell};
ghost use Rattle.rv_record.specs.RowReading.{RowFits, row_cell_in};

use crate::cells::{is_same, row_cell_on};
use crate::fault::{CellFault, damaged};
use crate::value_reading::place_item;
use json::{Scratch, Value};
use rv_base::Memory;
use rv_json::{item, read_json};
use rv_keeper::{Cell, Shelf};
use rv_rows::{Row, read_row};
use std::alloc::Global;

// The row that a value is, where it is exactly the value of one.
fn row_of_value(alloc: Global, value: &Value<'_>) -> Result<Option<Row>, Memory>
    ensures { IfOk result (λ o. o ≡ row_in (value_data value.now)) }
{
    read_row(alloc, value)
}

// What the cell is of, if it is a row's.
#[tactic(auto, unfolding(crate::specs::RowReading::row_cell_in))]
fn row_in(alloc: Global, cell: &Cell, scratch: &mut Scratch) -> Result<Option<(Row, u32)>, Memory>
    ensures { IfOk result (λ o. o ≡ row_cell_in cell.now) }
{
    let Some(body) = read_json(alloc, cell.body.as_slice(), scratch)? else {
        return Ok(None);
    };
    let Some(version) = place_item(&body, 0) else {
        return Ok(None);
    };
    let Some(value) = item(&body, 1) else {
        return Ok(None);
    };
    let Some(row) = row_of_value(alloc, value)? else {
        return Ok(None);
    };
    Ok(Some((row, version)))
}

// The row whose cell this is on a shelf, with its version.
fn row_on(
    alloc: Global,
    shelf: u8,
    cell: &Cell,
    scratch: &mut Scratch,
) -> Result<(Row, u32), CellFault>
    ensures { ReadsCell (λ r. row_cell_on shelf r.0 r.1) RowFits cell.now result }
{
    let Some(made) = row_in(alloc, cell, scratch)? else {
        return Err(damaged(alloc, cell));
    };
    let again = row_cell_on(alloc, shelf, &made.0, made.1)?;
    if is_same(cell, &again) {
        Ok(made)
    } else {
        Err(damaged(alloc, cell))
    }
}

/// The row whose cell this is, with its version. Any other cell is `BadCell`.
///
/// Nothing in the program calls it, which compares the cells of a store with ones that it writes anew: it is for who reads a store beside it.
///
/// `scratch` is room to read in, which is kept from one text to the next.
pub fn row_of_cell(
    alloc: Global,
    cell: &Cell,
    scratch: &mut Scratch,
) -> Result<(Row, u32), CellFault>
    ensures { ReadsCell (λ r. row_cell r.0 r.1) RowFits cell.now result }
{
    row_on(alloc, Shelf::Rows.number(), cell, scratch)
}

/// The row of a page whose cell this is, with its version. Any other cell is `BadCell`.
///
/// `scratch` is room to read in, which is kept from one text to the next.
pub fn page_row_of_cell(
    alloc: Global,
    cell: &Cell,
    scratch: &mut Scratch,
) -> Result<(Row, u32), CellFault>
    ensures { ReadsCell (λ r. page_row_cell r.0 r.1) RowFits cell.now result }
{
    row_on(alloc, Shelf::PageRows.number(), cell, scratch)
}
