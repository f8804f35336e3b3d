// The cells that follow from a book, which are compared one after another with those that were loaded.
ghost use Rattle.std.specs.Prelude.{◌≡◌, ◌<◌, ◌^◌, ◌∷◌, ◌++◌, [], MatchResult};
ghost use Rattle.rv_base.specs.Sorted.{InOrder};
ghost use Rattle.std.specs.List.{AllByRecursion};
ghost use Rattle.rv_book.specs.Book.{size};
ghost use Rattle.rv_book.specs.Registers.{RetiresBound};
ghost use Rattle.rv_keeper.specs.Cells.{cell_key};
ghost use Rattle.rv_store.specs.StoreCells.{client_cells, group_cells, row_cells, view_cells};
ghost use Rattle.rv_store.specs.OpeningSteps.{ComparesOthers, Departs, Differs};

use rv_book::Book;
use rv_keeper::Cell;
use rv_record::{CellFault, cell_of_client, cell_of_group, cell_of_row, cell_of_view, damaged};
use rv_rows::Tables;
use rv_state::State;
use rv_views::ViewRecord;
use std::alloc::Global;
use std::cmp::Ordering;

// The loaded cells after the first one, where that is the book's next cell.
fn meet<'a>(alloc: Global, own: &Cell, loaded: &'a [Cell]) -> Result<&'a [Cell], CellFault>
    ensures { MatchResult result (λ rest. loaded.now ≡ own.now ∷ rest.now) (λ fault. Departs (own.now ∷ []) loaded.now fault) }
{
    let Some((first, rest)) = loaded.split_first() else {
        return Err(damaged(alloc, own));
    };
    match first.compare(own.shelf, &own.key) {
        Ordering::Less => Err(damaged(alloc, first)),
        Ordering::Equal => {
            if first.body.as_slice() == own.body.as_slice() {
                Ok(rest)
            } else {
                Err(damaged(alloc, own))
            }
        }
        Ordering::Greater => Err(damaged(alloc, own)),
    }
}

// The loaded cells after those of the rows, where they begin with them.
fn meet_rows<'a>(
    alloc: Global,
    tables: &Tables,
    loaded: &'a [Cell],
) -> Result<&'a [Cell], CellFault>
    ensures { MatchResult result (λ rest. loaded.now ≡ row_cells tables.now.rows ++ rest.now) (λ fault. Departs (row_cells tables.now.rows) loaded.now fault) }
{
    let mut rest = loaded;
    for (row, version) in tables.iter() {
        let own = cell_of_row(alloc, row, version)?;
        rest = meet(alloc, &own, rest)?;
    }
    Ok(rest)
}

// The loaded cells after those of the view records, where they begin with them.
fn meet_records<'a>(
    alloc: Global,
    records: &[(u32, ViewRecord)],
    loaded: &'a [Cell],
) -> Result<&'a [Cell], CellFault>
    ensures { MatchResult result (λ rest. loaded.now ≡ view_cells records.now ++ rest.now) (λ fault. Departs (view_cells records.now) loaded.now fault) }
{
    let mut rest = loaded;
    for (place, view) in records {
        let own = cell_of_view(alloc, *place, view)?;
        rest = meet(alloc, &own, rest)?;
    }
    Ok(rest)
}

// The loaded cells after those of the clients, where they begin with them.
fn meet_clients<'a>(alloc: Global, book: &Book, loaded: &'a [Cell]) -> Result<&'a [Cell], CellFault>
    ensures { MatchResult result (λ rest. loaded.now ≡ client_cells book.now.book ++ rest.now) (λ fault. Departs (client_cells book.now.book) loaded.now fault) }
{
    let mut rest = loaded;
    for index in 0..book.client_count() {
        let Some(told) = book.client_at(index) else {
            return Ok(rest);
        };
        let own = cell_of_client(alloc, told.client, told.group, told.last)?;
        rest = meet(alloc, &own, rest)?;
    }
    Ok(rest)
}

// The loaded cells after those of the groups, where they begin with them.
fn meet_groups<'a>(alloc: Global, book: &Book, loaded: &'a [Cell]) -> Result<&'a [Cell], CellFault>
    requires { RetiresBound book.now.book }
    ensures { MatchResult result (λ rest. loaded.now ≡ group_cells book.now.book ++ rest.now) (λ fault. Departs (group_cells book.now.book) loaded.now fault) }
{
    let mut rest = loaded;
    for index in 0..book.group_count() {
        let Some(told) = book.group_at(index) else {
            return Ok(rest);
        };
        let own = cell_of_group(alloc, told.group, told.user, told.last_order, told.retired)?;
        rest = meet(alloc, &own, rest)?;
    }
    Ok(rest)
}

// That no loaded cell is left.
fn meet_end(alloc: Global, rest: &[Cell]) -> Result<(), CellFault>
    requires { InOrder cell_key rest.now }
    ensures { MatchResult result (λ _. rest.now ≡ []) (λ fault. Differs [] rest.now fault) }
{
    match rest.first() {
        Some(cell) => Err(damaged(alloc, cell)),
        None => Ok(()),
    }
}

// Whether the loaded cells beside those of the entries are the ones that follow from the book: those on shelves before a page's, and those
// on shelves behind it, of which there are to be none. Each of the book's is made anew and compared before the next.
pub(crate) fn compare_others(
    alloc: Global,
    state: &State,
    others: &[Cell],
    behind: &[Cell],
) -> Result<(), CellFault>
    requires size { size state.now.book < 2 ^ 32 }
    requires order { InOrder cell_key (others.now ++ behind.now) }
    requires before { AllByRecursion (λ cell. cell.shelf < 6) others.now }
    requires behind { AllByRecursion (λ cell. 9 < cell.shelf) behind.now }
    ensures { ComparesOthers state.now.book (others.now ++ behind.now) result }
{
    let book = state.book();
    let tables = state.tables();
    let records = state.records().as_slice();
    let after_rows = meet_rows(alloc, tables, others)?;
    let after_clients = meet_clients(alloc, book, after_rows)?;
    let after_groups = meet_groups(alloc, book, after_clients)?;
    let left_over = meet_records(alloc, records, after_groups)?;
    meet_end(alloc, left_over)?;
    meet_end(alloc, behind)
}
