// The page of a book, from its cells.
ghost use Rattle.std.specs.Prelude.{◌≡◌};
ghost use Rattle.rv_base.specs.Sorted.{InOrder};
ghost use Rattle.rv_keeper.specs.Cells.{cell_key};
ghost use Rattle.rv_record.specs.PageReads.{ReadsPage};

use crate::fault::CellFault;
use crate::page_read::PageRead;
use json::Scratch;
use rv_keeper::Cell;
use std::alloc::Global;

/// The page that is kept as these cells, which are those of the shelves 6 to 9 in their order; `None` where there are none. Else the first
/// cell that is not that of a part of a sound page at a place from 1 to the limit is told: one that is not of its form, stands before the cell
/// of the page's place, or breaks what makes a page sound. Of a client's group only a cell has to stand, which is read after the client's.
pub fn read_page(alloc: Global, cells: &[Cell], limit: u32) -> Result<Option<PageRead>, CellFault>
    requires { InOrder cell_key cells.now }
    ensures { ReadsPage limit cells.now result }
{
    let Some((first, rest)) = cells.split_first() else {
        return Ok(None);
    };
    let mut scratch = Scratch::new(alloc);
    let mut read = PageRead::begin(alloc, first, limit, &mut scratch)?;
    for cell in rest {
        read.take(alloc, cell, cells, &mut scratch)?;
    }
    Ok(Some(read))
}
