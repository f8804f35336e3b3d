ghost use Rattle.std.specs.Prelude.{◌≡◌, ℕ, ◌<◌, ◌^◌, List};
ghost use Rattle.rv_base.specs.Sorted.{InOrder};
ghost use Rattle.rv_keeper.specs.declared.cell.Cell.{Cell};
ghost use Rattle.rv_keeper.specs.Cells.{cell_key};
ghost use Rattle.rv_record.specs.PageReads.{BeginsWith, Follows, HasBegun, TakesNext};

use crate::client_reading::{page_client_of_cell, page_group_of_cell};
use crate::fault::{CellFault, damaged};
use crate::fitting::{client_fits, group_fits, place_fits, row_fits};
use crate::page_checking::{client_follows, is_within, row_follows};
use crate::page_reading::page_of_cell;
use crate::row_reading::page_row_of_cell;
use json::Scratch;
use rv_base::Sequence;
use rv_book::Page;
use rv_keeper::{Cell, Shelf};
use rv_rows::Tables;
use std::alloc::Global;

/// The page of a book as it is read from its cells, with the tables of its rows.
#[derive(Debug, Drop)]
pub struct PageRead {
    /// The page.
    pub page: Page,
    /// Its rows, as tables.
    pub tables: Tables,
}

impl PageRead {
    // The page whose place the first cell tells, and which has nothing yet.
    pub(crate) fn begin(
        alloc: Global,
        cell: &Cell,
        limit: u32,
        scratch: &mut Scratch,
    ) -> Result<PageRead, CellFault>
        ensures { (cells : List Cell) → InOrder cell_key cells → BeginsWith limit cells cell.now result }
    {
        let at = page_of_cell(alloc, cell, scratch)?;
        place_fits(at);
        if !is_within(u64::from(at), limit) {
            return Err(damaged(alloc, cell));
        }
        Ok(PageRead {
            page: Page {
                at,
                rows: Sequence::new(alloc),
                clients: Sequence::new(alloc),
                groups: Sequence::new(alloc),
            },
            tables: Tables::new(alloc),
        })
    }

    // Takes the cell of a row.
    fn take_row(
        &mut self,
        alloc: Global,
        cell: &Cell,
        scratch: &mut Scratch,
    ) -> Result<(), CellFault>
        requires shelf { cell.now.shelf ≡ 7 }
        ensures { (limit : ℕ) (cells : List Cell) → HasBegun limit cells self.old → Follows self.old.page cell.now → TakesNext limit cells self.old.page cell.now result self.new }
    {
        let (row, version) = page_row_of_cell(alloc, cell, scratch)?;
        row_fits(&row, version);
        if !row_follows(&self.tables, self.page.at, &row, version) {
            return Err(damaged(alloc, cell));
        }
        self.tables.reserve(1)?;
        self.page.rows.push((row.copy(alloc)?, version))?;
        self.tables.put(row, version);
        Ok(())
    }

    // Takes the cell of a client, whose group has a cell among these.
    fn take_client(
        &mut self,
        alloc: Global,
        cell: &Cell,
        cells: &[Cell],
        scratch: &mut Scratch,
    ) -> Result<(), CellFault>
        requires shelf { cell.now.shelf ≡ 8 }
        requires order { InOrder cell_key cells.now }
        ensures { (limit : ℕ) → HasBegun limit cells.now self.old → Follows self.old.page cell.now → TakesNext limit cells.now self.old.page cell.now result self.new }
    {
        let (client, group, last) = page_client_of_cell(alloc, cell, scratch)?;
        client_fits(&client, &group, last);
        if !client_follows(cells, self.page.at, &group, last) {
            return Err(damaged(alloc, cell));
        }
        self.page.clients.push((client, group, last))?;
        Ok(())
    }

    // Takes the cell of a group.
    fn take_group(
        &mut self,
        alloc: Global,
        cell: &Cell,
        scratch: &mut Scratch,
    ) -> Result<(), CellFault>
        requires shelf { cell.now.shelf ≡ 9 }
        ensures { (limit : ℕ) (cells : List Cell) → HasBegun limit cells self.old → Follows self.old.page cell.now → TakesNext limit cells self.old.page cell.now result self.new }
    {
        let (group, user, order, retired) = page_group_of_cell(alloc, cell, scratch)?;
        group_fits(&group, &user, order, retired);
        self.page.groups.push((group, user, order, retired))?;
        Ok(())
    }

    // Takes the next of these cells.
    pub(crate) fn take(
        &mut self,
        alloc: Global,
        cell: &Cell,
        cells: &[Cell],
        scratch: &mut Scratch,
    ) -> Result<(), CellFault>
        requires { InOrder cell_key cells.now }
        ensures { (limit : ℕ) → HasBegun limit cells.now self.old → Follows self.old.page cell.now → TakesNext limit cells.now self.old.page cell.now result self.new }
    {
        if cell.shelf == Shelf::PageRows.number() {
            return self.take_row(alloc, cell, scratch);
        }
        if cell.shelf == Shelf::PageClients.number() {
            return self.take_client(alloc, cell, cells, scratch);
        }
        if cell.shelf == Shelf::PageGroups.number() {
            return self.take_group(alloc, cell, scratch);
        }
        Err(damaged(alloc, cell))
    }
}
