ghost use Rattle.std.specs.Prelude.{◌≡◌, IfOk};
ghost use Rattle.rv_record.specs.CellTexts.{client_cell, client_cell_on, group_cell, group_cell_on, page_client_cell, page_group_cell};
ghost use Rattle.rv_record.specs.CellReading.{ReadsCell, ClientFits, GroupFits, client_in_cell, group_in_cell};

use crate::cells::{client_cell_on, group_cell_on, is_same};
use crate::fault::{CellFault, damaged};
use crate::value_reading::{flag_item, num_item, text_item, text_of_bytes};
use json::Scratch;
use rv_base::{Id, Memory, Num, User};
use rv_json::read_json;
use rv_keeper::{Cell, Shelf};
use std::alloc::Global;

// What the cell is of, if it is a client's.
#[tactic(auto, unfolding(crate::specs::CellReading::client_in_cell))]
fn client_in_cell(
    alloc: Global,
    cell: &Cell,
    scratch: &mut Scratch,
) -> Result<Option<(Id, Id, Num)>, Memory>
    ensures { IfOk result (λ o. o ≡ client_in_cell cell.now) }
{
    let Some(client) = text_of_bytes(alloc, cell.key.as_slice())? else {
        return Ok(None);
    };
    let Some(body) = read_json(alloc, cell.body.as_slice(), scratch)? else {
        return Ok(None);
    };
    let Some(group) = text_item(alloc, &body, 0)? else {
        return Ok(None);
    };
    let Some(last) = num_item(&body, 1) else {
        return Ok(None);
    };
    Ok(Some((client, group, last)))
}

// The client whose cell this is on a shelf, its group, and the last mutation id.
fn client_on(
    alloc: Global,
    shelf: u8,
    cell: &Cell,
    scratch: &mut Scratch,
) -> Result<(Id, Id, Num), CellFault>
    ensures { ReadsCell (λ c. client_cell_on shelf c.0 c.1 c.2) ClientFits cell.now result }
{
    let Some(made) = client_in_cell(alloc, cell, scratch)? else {
        return Err(damaged(alloc, cell));
    };
    let again = client_cell_on(alloc, shelf, &made.0, &made.1, made.2)?;
    if is_same(cell, &again) {
        Ok(made)
    } else {
        Err(damaged(alloc, cell))
    }
}

/// The client whose cell this is, its group, and the last mutation id. Any other cell is `BadCell`.
///
/// Nothing in the program calls it, which compares the cells of a store with ones that it writes anew: it is for who reads a store beside it.
///
/// `scratch` is room to read in, which is kept from one text to the next.
pub fn client_of_cell(
    alloc: Global,
    cell: &Cell,
    scratch: &mut Scratch,
) -> Result<(Id, Id, Num), CellFault>
    ensures { ReadsCell (λ c. client_cell c.0 c.1 c.2) ClientFits cell.now result }
{
    client_on(alloc, Shelf::Clients.number(), cell, scratch)
}

/// The client of a page whose cell this is, its group, and the last mutation id there. Any other cell is `BadCell`.
///
/// `scratch` is room to read in, which is kept from one text to the next.
pub fn page_client_of_cell(
    alloc: Global,
    cell: &Cell,
    scratch: &mut Scratch,
) -> Result<(Id, Id, Num), CellFault>
    ensures { ReadsCell (λ c. page_client_cell c.0 c.1 c.2) ClientFits cell.now result }
{
    client_on(alloc, Shelf::PageClients.number(), cell, scratch)
}

// What the cell is of, if it is a group's.
#[tactic(auto, unfolding(crate::specs::CellReading::group_in_cell))]
fn group_in_cell(
    alloc: Global,
    cell: &Cell,
    scratch: &mut Scratch,
) -> Result<Option<(Id, User, Num, bool)>, Memory>
    ensures { IfOk result (λ o. o ≡ group_in_cell cell.now) }
{
    let Some(group) = text_of_bytes(alloc, cell.key.as_slice())? else {
        return Ok(None);
    };
    let Some(body) = read_json(alloc, cell.body.as_slice(), scratch)? else {
        return Ok(None);
    };
    let Some(user) = text_item(alloc, &body, 0)? else {
        return Ok(None);
    };
    let Some(order) = num_item(&body, 1) else {
        return Ok(None);
    };
    let Some(retired) = flag_item(&body, 2) else {
        return Ok(None);
    };
    Ok(Some((group, user, order, retired)))
}

// The group whose cell this is on a shelf, its user, the order of its last look, and whether it is retired.
fn group_on(
    alloc: Global,
    shelf: u8,
    cell: &Cell,
    scratch: &mut Scratch,
) -> Result<(Id, User, Num, bool), CellFault>
    ensures { ReadsCell (λ g. group_cell_on shelf g.0 g.1 g.2 g.3) GroupFits cell.now result }
{
    let Some(made) = group_in_cell(alloc, cell, scratch)? else {
        return Err(damaged(alloc, cell));
    };
    let again = group_cell_on(alloc, shelf, &made.0, &made.1, made.2, made.3)?;
    if is_same(cell, &again) {
        Ok(made)
    } else {
        Err(damaged(alloc, cell))
    }
}

/// The group whose cell this is, its user, the order of its last look, and whether it is retired. Any other cell is
/// `BadCell`.
///
/// Nothing in the program calls it, which compares the cells of a store with ones that it writes anew: it is for who reads a store beside it.
///
/// `scratch` is room to read in, which is kept from one text to the next.
pub fn group_of_cell(
    alloc: Global,
    cell: &Cell,
    scratch: &mut Scratch,
) -> Result<(Id, User, Num, bool), CellFault>
    ensures { ReadsCell (λ g. group_cell g.0 g.1 g.2 g.3) GroupFits cell.now result }
{
    group_on(alloc, Shelf::Groups.number(), cell, scratch)
}

/// The group of a page whose cell this is, its user, the order of its last look there, and whether it is retired. Any other cell is
/// `BadCell`.
///
/// `scratch` is room to read in, which is kept from one text to the next.
pub fn page_group_of_cell(
    alloc: Global,
    cell: &Cell,
    scratch: &mut Scratch,
) -> Result<(Id, User, Num, bool), CellFault>
    ensures { ReadsCell (λ g. page_group_cell g.0 g.1 g.2 g.3) GroupFits cell.now result }
{
    group_on(alloc, Shelf::PageGroups.number(), cell, scratch)
}
