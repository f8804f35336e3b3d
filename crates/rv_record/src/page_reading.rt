ghost use Rattle.std.specs.Prelude.{◌≡◌, IfOk};
ghost use Rattle.rv_record.specs.CellTexts.{page_cell};
ghost use Rattle.rv_record.specs.CellReading.{ReadsCell, PageFits, page_in_cell};

use crate::cells::{cell_of_page, is_same};
use crate::fault::{CellFault, damaged};
use crate::value_reading::place_of_value;
use json::Scratch;
use rv_base::Memory;
use rv_json::read_json;
use rv_keeper::Cell;
use std::alloc::Global;

// What the cell is of, if it is a page's.
#[tactic(auto, unfolding(crate::specs::CellReading::page_in_cell))]
fn page_in_cell(alloc: Global, cell: &Cell, scratch: &mut Scratch) -> Result<Option<u32>, Memory>
    ensures { IfOk result (λ o. o ≡ page_in_cell cell.now) }
{
    let Some(body) = read_json(alloc, cell.body.as_slice(), scratch)? else {
        return Ok(None);
    };
    Ok(place_of_value(&body))
}

/// The place of the page whose cell this is. Any other cell is `BadCell`.
///
/// `scratch` is room to read in, which is kept from one text to the next.
pub fn page_of_cell(alloc: Global, cell: &Cell, scratch: &mut Scratch) -> Result<u32, CellFault>
    ensures { ReadsCell page_cell PageFits cell.now result }
{
    let Some(made) = page_in_cell(alloc, cell, scratch)? else {
        return Err(damaged(alloc, cell));
    };
    let again = cell_of_page(alloc, made)?;
    if !is_same(cell, &again) {
        return Err(damaged(alloc, cell));
    }
    Ok(made)
}
