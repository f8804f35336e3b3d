// The changes of cells that closing a book makes.
ghost use Rattle.std.specs.Prelude.{◌≡◌, ◌+◌, ◌++◌, length, IfOk, OnOk};
ghost use Rattle.rv_book.specs.SoundPages.{IsOpening};
ghost use Rattle.rv_keeper.specs.ShelfNumbers.{shelf_number};
ghost use Rattle.rv_keeper.specs.declared.change.Change.TheVariants as Change;
ghost use Rattle.rv_record.specs.CellTexts.{ten_digits};
ghost use Rattle.rv_rows.specs.Keys.{row_text};
ghost use Rattle.rv_history.specs.Served.{Next};
ghost use Rattle.rv_state.specs.declared.prepared.Prepared.TheVariants.{Closing};
ghost use Rattle.rv_state.specs.Ready.{IsPrepared};
ghost use Rattle.rv_store.specs.ClosingChanges.{gone_entries, gone_records, gone_rows, is_left_out, put_clients, put_groups, put_rows};
ghost use Rattle.rv_store.specs.EntryChanges.{Enters};

use rv_base::{Id, Memory, Num, Sequence, User};
use rv_book::{Book, Page};
use rv_keeper::{Change, Shelf};
use rv_news::Records;
use rv_record::{
    cell_of_page, cell_of_page_client, cell_of_page_group, cell_of_page_row, ten_digits,
};
use rv_rows::{Row, Tables};
use rv_state::State;
use std::alloc::Global;

// What stands on a shelf under a place is removed.
fn removed_place(alloc: Global, shelf: Shelf, place: u32) -> Result<Change, Memory>
    ensures { IfOk result (λ change. change ≡ Change.Remove (shelf_number shelf) (ten_digits place)) }
{
    Ok(Change::Remove(shelf.number(), ten_digits(alloc, place)?))
}

// A row of a page is removed.
fn removed_page_row(alloc: Global, row: &Row) -> Result<Change, Memory>
    ensures { IfOk result (λ change. change ≡ Change.Remove 7 (row_text row.now)) }
{
    let text = row.kind().key_text(alloc, row.id())?;
    Ok(Change::Remove(
        Shelf::PageRows.number(),
        Sequence::from_vec(text.into_bytes()),
    ))
}

// The entries are removed.
fn add_gone_entries(alloc: Global, changes: &mut Vec<Change>, book: &Book) -> Result<(), Memory>
    ensures { OnOk result (changes.new.items ≡ changes.old.items ++ gone_entries (book.now.book.page.at + 1) (length book.now.book.entries)) }
{
    for before in book.opened_at()..book.len() {
        changes.push(removed_place(alloc, Shelf::Entries, before + 1)?)?;
    }
    Ok(())
}

// The view records are removed.
fn add_gone_records(
    alloc: Global,
    changes: &mut Vec<Change>,
    records: &Records,
) -> Result<(), Memory>
    ensures { OnOk result (changes.new.items ≡ changes.old.items ++ gone_records records.now.records) }
{
    for (place, _) in records.as_slice() {
        changes.push(removed_place(alloc, Shelf::Views, *place)?)?;
    }
    Ok(())
}

// Whether none of the rows that stand has the key of this one.
fn is_gone(tables: &Tables, row: &Row) -> bool
    ensures { result ≡ is_left_out tables.now.rows row.now }
{
    !tables.has_key_of(row)
}

// Of the page's rows those are removed whose keys none of the rows that stand has.
fn add_gone_rows(
    alloc: Global,
    changes: &mut Vec<Change>,
    page: &Page,
    tables: &Tables,
) -> Result<(), Memory>
    ensures { OnOk result (changes.new.items ≡ changes.old.items ++ gone_rows page.now.rows tables.now.rows) }
{
    for (row, _) in page.rows.as_slice() {
        if is_gone(tables, row) {
            changes.push(removed_page_row(alloc, row)?)?;
        }
    }
    Ok(())
}

// Those of the page that the book opened with, if it opened with one.
fn add_old_rows(
    alloc: Global,
    changes: &mut Vec<Change>,
    book: &Book,
    tables: &Tables,
) -> Result<(), Memory>
    requires { IsOpening book.now.book.page }
    ensures { OnOk result (changes.new.items ≡ changes.old.items ++ gone_rows book.now.book.page.rows tables.now.rows) }
{
    match book.page() {
        Some(page) => add_gone_rows(alloc, changes, page, tables),
        None => Ok(()),
    }
}

// The rows of a page are written.
fn add_rows(alloc: Global, changes: &mut Vec<Change>, rows: &[(Row, u32)]) -> Result<(), Memory>
    ensures { OnOk result (changes.new.items ≡ changes.old.items ++ put_rows rows.now) }
{
    for (row, version) in rows {
        changes.push(Change::Put(cell_of_page_row(alloc, row, *version)?))?;
    }
    Ok(())
}

// The clients of a page are written.
fn add_clients(
    alloc: Global,
    changes: &mut Vec<Change>,
    clients: &[(Id, Id, Num)],
) -> Result<(), Memory>
    ensures { OnOk result (changes.new.items ≡ changes.old.items ++ put_clients clients.now) }
{
    for (client, group, last) in clients {
        changes.push(Change::Put(cell_of_page_client(alloc, client, group, *last)?))?;
    }
    Ok(())
}

// The groups of a page are written.
fn add_groups(
    alloc: Global,
    changes: &mut Vec<Change>,
    groups: &[(Id, User, Num, bool)],
) -> Result<(), Memory>
    ensures { OnOk result (changes.new.items ≡ changes.old.items ++ put_groups groups.now) }
{
    for (group, user, order, retired) in groups {
        changes.push(Change::Put(cell_of_page_group(alloc, group, user, *order, *retired)?))?;
    }
    Ok(())
}

// Those of a closing, which make of the cells of the state's book those of the closed book.
pub(crate) fn closing_changes(
    alloc: Global,
    state: &State,
    closed: &Book,
) -> Result<Vec<Change>, Memory>
    requires { IsPrepared state.now (Closing closed.now) }
    ensures { IfOk result (λ changes. Enters state.now.book (Next.closed closed.now.book) changes.items) }
{
    let Some(page) = closed.page() else {
        // a closed book opens with a page
        unreachable!()
    };
    let book = state.book();
    let mut changes = Vec::new(alloc);
    add_gone_entries(alloc, &mut changes, book)?;
    add_gone_records(alloc, &mut changes, state.records())?;
    changes.push(Change::Put(cell_of_page(alloc, page.at)?))?;
    add_old_rows(alloc, &mut changes, book, state.tables())?;
    add_rows(alloc, &mut changes, page.rows.as_slice())?;
    add_clients(alloc, &mut changes, page.clients.as_slice())?;
    add_groups(alloc, &mut changes, page.groups.as_slice())?;
    Ok(changes)
}
