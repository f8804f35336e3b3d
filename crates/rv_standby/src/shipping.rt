// A book as lines: what a standby takes.
ghost use Rattle.std.specs.Prelude.{◌≡◌, ◌+◌, ◌≤◌, IfOk};
ghost use Rattle.std.specs.List.{flat_map, AllByRecursion};
ghost use Rattle.std.specs.Str.{IsUtf8};
ghost use Rattle.rv_rows.specs.Additions.{AddsValue};
ghost use Rattle.rv_record.specs.PageCells.{client_parts, group_parts, page_cells, row_parts};
ghost use Rattle.rv_record.specs.CellTexts.{AreTexts, entry_cell, page_cell, page_client_cell, page_group_cell, page_row_cell};
ghost use Rattle.rv_store.specs.StoreCells.{entry_cells};
ghost use Rattle.rv_standby.specs.Shipping.{BookIsTexts, Ships, ShipsSteadily, book_lines, cell_data, cell_line, page_lines};

use json::Writer;
use rv_base::{Bytes, Fault, Id, Memory, Num, Sink, User, write_all};
use rv_book::{Book, Entry, Page};
use rv_keeper::Cell;
use rv_record::{
    cell_of_entry, cell_of_page, cell_of_page_client, cell_of_page_group, cell_of_page_row,
};
use rv_rows::Row;
use std::alloc::Global;
use std::str;

// The bytes as a text, which they are.
fn text_of(bytes: &Bytes) -> &str
    requires { IsUtf8 bytes.now }
    ensures { result.now ≡ bytes.now }
{
    match str::from_utf8(bytes.as_slice()) {
        Ok(text) => text,
        Err(_) => unreachable!(),
    }
}

fn write_cell(out: &mut Writer, shelf: u8, key: &str, body: &str) -> Result<(), Memory>
    ensures { AddsValue result out.old out.new (cell_data (record { shelf = shelf; key = key.now; body = body.now })) }
{
    out.begin_object()?;
    out.key("cell")?;
    out.begin_array()?;
    out.u64(u64::from(shelf))?;
    out.string(key)?;
    out.string(body)?;
    out.end_array()?;
    out.end_object()?;
    Ok(())
}

// The line of a cell: its compact JSON, and LF.
fn cell_line(alloc: Global, cell: &Cell) -> Result<Vec<u8>, Memory>
    requires { AreTexts cell.now }
    ensures { IfOk result (λ line. line.items ≡ cell_line cell.now) }
{
    let mut out = Writer::new(Vec::new(alloc));
    write_cell(
        &mut out,
        cell.shelf,
        text_of(&cell.key),
        text_of(&cell.body),
    )?;
    let mut line = out.into_inner();
    line.push(b'\n')?;
    Ok(line)
}

// Writes the line of a cell.
fn ship_cell<O: Sink>(alloc: Global, out: &mut O, cell: &Cell) -> Result<(), Fault>
    requires { AreTexts cell.now }
    ensures ships { Ships (O.state out.old) (O.state out.new) result (cell_line cell.now) }
    ensures steady { O.fails_no_more out.old → ShipsSteadily (O.fails_no_more out.new) (O.state out.old) (O.state out.new) result }
{
    let line = cell_line(alloc, cell)?;
    write_all(out, &line)?;
    Ok(())
}

// Writes the line of the place of a page.
fn ship_place<O: Sink>(alloc: Global, out: &mut O, place: u32) -> Result<(), Fault>
    ensures ships { Ships (O.state out.old) (O.state out.new) result (cell_line (page_cell place)) }
    ensures texts { IfOk result (λ done. AreTexts (page_cell place)) }
    ensures steady { O.fails_no_more out.old → ShipsSteadily (O.fails_no_more out.new) (O.state out.old) (O.state out.new) result }
{
    let cell = cell_of_page(alloc, place)?;
    ship_cell(alloc, out, &cell)
}

// Writes the line of a row of a page.
fn ship_row<O: Sink>(alloc: Global, out: &mut O, row: &Row, version: u32) -> Result<(), Fault>
    ensures ships { Ships (O.state out.old) (O.state out.new) result (cell_line (page_row_cell row.now version)) }
    ensures texts { IfOk result (λ done. AreTexts (page_row_cell row.now version)) }
    ensures steady { O.fails_no_more out.old → ShipsSteadily (O.fails_no_more out.new) (O.state out.old) (O.state out.new) result }
{
    let cell = cell_of_page_row(alloc, row, version)?;
    ship_cell(alloc, out, &cell)
}

// Writes the line of a client of a page.
fn ship_client<O: Sink>(
    alloc: Global,
    out: &mut O,
    client: &Id,
    group: &Id,
    last: Num,
) -> Result<(), Fault>
    ensures ships { Ships (O.state out.old) (O.state out.new) result (cell_line (page_client_cell client.now group.now last)) }
    ensures texts { IfOk result (λ done. AreTexts (page_client_cell client.now group.now last)) }
    ensures steady { O.fails_no_more out.old → ShipsSteadily (O.fails_no_more out.new) (O.state out.old) (O.state out.new) result }
{
    let cell = cell_of_page_client(alloc, client, group, last)?;
    ship_cell(alloc, out, &cell)
}

// Writes the line of a group of a page.
fn ship_group<O: Sink>(
    alloc: Global,
    out: &mut O,
    group: &Id,
    user: &User,
    order: Num,
    retired: bool,
) -> Result<(), Fault>
    ensures ships { Ships (O.state out.old) (O.state out.new) result (cell_line (page_group_cell group.now user.now order retired)) }
    ensures texts { IfOk result (λ done. AreTexts (page_group_cell group.now user.now order retired)) }
    ensures steady { O.fails_no_more out.old → ShipsSteadily (O.fails_no_more out.new) (O.state out.old) (O.state out.new) result }
{
    let cell = cell_of_page_group(alloc, group, user, order, retired)?;
    ship_cell(alloc, out, &cell)
}

// Writes the line of an entry at its place.
fn ship_entry<O: Sink>(alloc: Global, out: &mut O, place: u32, entry: &Entry) -> Result<(), Fault>
    ensures ships { Ships (O.state out.old) (O.state out.new) result (cell_line (entry_cell place entry.now)) }
    ensures texts { IfOk result (λ done. AreTexts (entry_cell place entry.now)) }
    ensures steady { O.fails_no_more out.old → ShipsSteadily (O.fails_no_more out.new) (O.state out.old) (O.state out.new) result }
{
    let cell = cell_of_entry(alloc, place, entry)?;
    ship_cell(alloc, out, &cell)
}

// Writes the lines of a page's rows.
fn ship_rows<O: Sink>(alloc: Global, out: &mut O, rows: &[(Row, u32)]) -> Result<(), Fault>
    ensures ships { Ships (O.state out.old) (O.state out.new) result (flat_map cell_line (row_parts rows.now)) }
    ensures texts { IfOk result (λ done. AllByRecursion AreTexts (row_parts rows.now)) }
    ensures steady { O.fails_no_more out.old → ShipsSteadily (O.fails_no_more out.new) (O.state out.old) (O.state out.new) result }
{
    for (row, version) in rows {
        ship_row(alloc, out, row, *version)?;
    }
    Ok(())
}

// Writes the lines of a page's clients.
fn ship_clients<O: Sink>(alloc: Global, out: &mut O, clients: &[(Id, Id, Num)]) -> Result<(), Fault>
    ensures ships { Ships (O.state out.old) (O.state out.new) result (flat_map cell_line (client_parts clients.now)) }
    ensures texts { IfOk result (λ done. AllByRecursion AreTexts (client_parts clients.now)) }
    ensures steady { O.fails_no_more out.old → ShipsSteadily (O.fails_no_more out.new) (O.state out.old) (O.state out.new) result }
{
    for (client, group, last) in clients {
        ship_client(alloc, out, client, group, *last)?;
    }
    Ok(())
}

// Writes the lines of a page's groups.
fn ship_groups<O: Sink>(
    alloc: Global,
    out: &mut O,
    groups: &[(Id, User, Num, bool)],
) -> Result<(), Fault>
    ensures ships { Ships (O.state out.old) (O.state out.new) result (flat_map cell_line (group_parts groups.now)) }
    ensures texts { IfOk result (λ done. AllByRecursion AreTexts (group_parts groups.now)) }
    ensures steady { O.fails_no_more out.old → ShipsSteadily (O.fails_no_more out.new) (O.state out.old) (O.state out.new) result }
{
    for (group, user, order, retired) in groups {
        ship_group(alloc, out, group, user, *order, *retired)?;
    }
    Ok(())
}

// Writes the lines of a page.
fn ship_page<O: Sink>(alloc: Global, out: &mut O, page: &Page) -> Result<(), Fault>
    requires { 1 ≤ page.now.at }
    ensures ships { Ships (O.state out.old) (O.state out.new) result (page_lines page.now) }
    ensures texts { IfOk result (λ done. AllByRecursion AreTexts (page_cells page.now)) }
    ensures steady { O.fails_no_more out.old → ShipsSteadily (O.fails_no_more out.new) (O.state out.old) (O.state out.new) result }
{
    ship_place(alloc, out, page.at)?;
    ship_rows(alloc, out, page.rows.as_slice())?;
    ship_clients(alloc, out, page.clients.as_slice())?;
    ship_groups(alloc, out, page.groups.as_slice())?;
    write_all(out, b"{\"page\":true}\n")?;
    Ok(())
}

// Writes the lines of a book's entries.
fn ship_entries<O: Sink>(alloc: Global, out: &mut O, book: &Book) -> Result<(), Fault>
    ensures ships { Ships (O.state out.old) (O.state out.new) result (flat_map cell_line (entry_cells (book.now.book.page.at + 1) book.now.book.entries)) }
    ensures texts { IfOk result (λ done. AllByRecursion AreTexts (entry_cells (book.now.book.page.at + 1) book.now.book.entries)) }
    ensures steady { O.fails_no_more out.old → ShipsSteadily (O.fails_no_more out.new) (O.state out.old) (O.state out.new) result }
{
    for before in book.opened_at()..book.len() {
        if let Some(entry) = book.entry(before + 1) {
            ship_entry(alloc, out, before + 1, entry)?;
        }
    }
    Ok(())
}

/// Writes a book as lines, each as it was made: `{"cell":[SHELF,KEY,BODY]}` for each cell of the page that it opens with, then
/// `{"page":true}` where there is a page, and then the line of the cell of each entry. Each is a JSON text in UTF-8. Memory does not grow with
/// the number of lines.
///
/// # Errors
///
/// `Failed` where a write failed, whose count of faults rose, and `Memory` where memory was refused; then a front of the lines was
/// written, which lacks some bytes.
pub fn ship<O: Sink>(alloc: Global, out: &mut O, book: &Book) -> Result<(), Fault>
    ensures ships { Ships (O.state out.old) (O.state out.new) result (book_lines book.now.book) }
    ensures texts { IfOk result (λ done. BookIsTexts book.now.book) }
    ensures steady { O.fails_no_more out.old → ShipsSteadily (O.fails_no_more out.new) (O.state out.old) (O.state out.new) result }
{
    if let Some(page) = book.page() {
        ship_page(alloc, out, page)?;
    }
    ship_entries(alloc, out, book)
}
