// Whether a part may stand on a page with those before it.
ghost use Rattle.std.specs.Prelude.{◌≡◌, ◌∷◌, is_some, IsTrue, ◌↔◌, ◌≤◌, true};
ghost use Rattle.std.specs.Cmp.Lexicographic.{slice_cmp};
ghost use Rattle.std.specs.Ordering.{nat_cmp};
ghost use Rattle.rv_base.specs.Sorted.{InOrder, find_by, IsPositionOf};
ghost use Rattle.rv_rows.specs.Held.{rows_in};
ghost use Rattle.rv_keeper.specs.Cells.{cell_key};
ghost use Rattle.rv_record.specs.PageReads.{stands_with, ClientFollows, RowFollows};

use rv_base::{Id, Num};
use rv_keeper::{Cell, Shelf};
use rv_rows::{Row, Tables};
use rv_sharing::{has_list, has_share, owns};
use std::cmp::Ordering;

// Whether a row may stand beside those of the tables, which come before it.
fn stands_with(tables: &Tables, row: &Row) -> bool
    ensures { result ≡ stands_with row.now (rows_in tables.now.rows) }
{
    match row {
        Row::Extent(_) => true,
        Row::List(_) => true,
        Row::Share(share) => {
            has_list(tables, &share.list)
                && !owns(tables, &share.user, &share.list)
                && !has_share(tables, &share.user, &share.list)
        }
        Row::Todo(todo) => has_list(tables, &todo.list),
    }
}

// Whether the place of a last write, or a last mutation id, may stand on a page at this place.
pub(crate) fn is_within(number: u64, at: u32) -> bool
    ensures { IsTrue result ↔ ((1 ≤ number) × (number ≤ at)) }
{
    1 <= number && number <= u64::from(at)
}

// Whether a row with this version may stand on a page at this place, behind those of the tables.
pub(crate) fn row_follows(tables: &Tables, at: u32, row: &Row, version: u32) -> bool
    ensures { IsTrue result ↔ RowFollows at (rows_in tables.now.rows) row.now version }
{
    is_within(u64::from(version), at) && stands_with(tables, row)
}

// How a cell stands to that of a group of the page.
fn compare(cell: &Cell, group: &Id) -> Ordering
    ensures { result ≡ slice_cmp nat_cmp (cell_key cell.now) (9 ∷ group.now) }
{
    match cell.shelf.cmp(&Shelf::PageGroups.number()) {
        Ordering::Less => Ordering::Less,
        Ordering::Equal => cell.key.as_slice().cmp(group.as_str().as_bytes()),
        Ordering::Greater => Ordering::Greater,
    }
}

// Where the cell of a group of the page stands, or where it would go.
fn position_of(cells: &[Cell], group: &Id) -> Result<usize, usize>
    requires { InOrder cell_key cells.now }
    ensures { IsPositionOf cell_key (9 ∷ group.now) cells.now result }
{
    cells.binary_search_by(|cell| compare(cell, group))
}

// Whether a cell names a group of the page.
fn names_group(cells: &[Cell], group: &Id) -> bool
    requires { InOrder cell_key cells.now }
    ensures { result ≡ is_some (find_by cell_key (9 ∷ group.now) cells.now) }
{
    position_of(cells, group).is_ok()
}

// Whether a client of this group, with this last mutation id, may stand on a page at this place, where these are the page's cells.
pub(crate) fn client_follows(cells: &[Cell], at: u32, group: &Id, last: Num) -> bool
    requires { InOrder cell_key cells.now }
    ensures { IsTrue result ↔ ClientFollows at cells.now group.now last }
{
    is_within(last.get(), at) && names_group(cells, group)
}
