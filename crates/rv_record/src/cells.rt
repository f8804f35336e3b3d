// What is kept as cells, and places as the keys of cells.
ghost use Rattle.std.specs.Prelude.{◌≡◌, ◌≤◌, ℕ, [], IfOk, IfSome, Some};
ghost use Rattle.std.specs.Str.{IsUtf8};
ghost use Rattle.serde_json.specs.Data.{number, unsigned};
ghost use Rattle.serde_json.specs.Written.{compact_text};
ghost use Rattle.rv_rows.specs.Keys.{row_text};
ghost use Rattle.rv_book.specs.declared.entry.Entry.TheVariants.{Act, Look, Retire};
ghost use Rattle.rv_record.specs.EntryTexts.{entry_data};
ghost use Rattle.rv_record.specs.CellTexts.{AreTexts, row_body, client_body, group_body, view_body, entry_cell, row_cell, row_cell_on, client_cell, client_cell_on, group_cell, group_cell_on, view_cell};
ghost use Rattle.rv_record.specs.CellTexts.{page_cell, page_client_cell, page_group_cell, page_row_cell, ten_digits};
ghost use Rattle.rv_record.specs.CellReading.{same_cell};
ghost use Rattle.rv_record.specs.EntryReading.{IsPlace};

use crate::view_writing::write_view;
use crate::writing::{
    write_act, write_group_body, write_look, write_pair, write_place, write_retirement,
    write_row_body,
};
use itoa::Buffer;
use json::Writer;
use rv_base::{Bytes, Id, Memory, Num, Sequence, User};
use rv_book::Entry;
use rv_keeper::{Cell, Shelf};
use rv_rows::{Call, Row};
use rv_views::ViewRecord;
use std::alloc::Global;

// Room for the text of most entries and rows, and for that of most other cells, so that it is seldom moved while it grows.
const LONG: usize = 128;

const SHORT: usize = 32;

// What writes a text that is likely so long.
fn begin(alloc: Global, likely: usize) -> Result<Writer, Memory>
    ensures before { IfOk result (λ out. out.before ≡ []) }
    ensures tokens { IfOk result (λ out. out.tokens ≡ []) }
{
    Ok(Writer::new(Vec::with_capacity(alloc, likely)?))
}

fn act_text(
    alloc: Global,
    user: &User,
    group: &Id,
    client: &Id,
    id: Num,
    call: &Call,
) -> Result<Bytes, Memory>
    ensures text { IfOk result (λ text. text ≡ compact_text (entry_data (Act user.now group.now client.now id call.now))) }
    ensures utf8 { IfOk result IsUtf8 }
{
    let mut out = begin(alloc, LONG)?;
    write_act(&mut out, user, group, client, id, call)?;
    Ok(Sequence::from_vec(out.into_inner()))
}

fn look_text(
    alloc: Global,
    user: &User,
    group: &Id,
    order: Num,
    base: Option<u32>,
) -> Result<Bytes, Memory>
    ensures text { IfOk result (λ text. text ≡ compact_text (entry_data (Look user.now group.now order base))) }
    ensures utf8 { IfOk result IsUtf8 }
{
    let mut out = begin(alloc, SHORT)?;
    write_look(&mut out, user, group, order, base)?;
    Ok(Sequence::from_vec(out.into_inner()))
}

fn retirement_text(alloc: Global, group: &Id) -> Result<Bytes, Memory>
    ensures text { IfOk result (λ text. text ≡ compact_text (entry_data (Retire group.now))) }
    ensures utf8 { IfOk result IsUtf8 }
{
    let mut out = begin(alloc, SHORT)?;
    write_retirement(&mut out, group)?;
    Ok(Sequence::from_vec(out.into_inner()))
}

fn row_body_text(alloc: Global, row: &Row, version: u32) -> Result<Bytes, Memory>
    ensures text { IfOk result (λ text. text ≡ compact_text (row_body row.now version)) }
    ensures utf8 { IfOk result IsUtf8 }
{
    let mut out = begin(alloc, LONG)?;
    write_row_body(&mut out, row, version)?;
    Ok(Sequence::from_vec(out.into_inner()))
}

fn page_text(alloc: Global, place: u32) -> Result<Bytes, Memory>
    ensures text { IfOk result (λ text. text ≡ compact_text (number (unsigned place))) }
    ensures utf8 { IfOk result IsUtf8 }
{
    let mut out = begin(alloc, SHORT)?;
    write_place(&mut out, place)?;
    Ok(Sequence::from_vec(out.into_inner()))
}

fn client_text(alloc: Global, group: &Id, last: Num) -> Result<Bytes, Memory>
    ensures text { IfOk result (λ text. text ≡ compact_text (client_body group.now last)) }
    ensures utf8 { IfOk result IsUtf8 }
{
    let mut out = begin(alloc, SHORT)?;
    write_pair(&mut out, group.as_str(), last.get())?;
    Ok(Sequence::from_vec(out.into_inner()))
}

fn group_text(alloc: Global, user: &User, order: Num, retired: bool) -> Result<Bytes, Memory>
    ensures text { IfOk result (λ text. text ≡ compact_text (group_body user.now order retired)) }
    ensures utf8 { IfOk result IsUtf8 }
{
    let mut out = begin(alloc, SHORT)?;
    write_group_body(&mut out, user, order, retired)?;
    Ok(Sequence::from_vec(out.into_inner()))
}

fn view_text(alloc: Global, view: &ViewRecord) -> Result<Bytes, Memory>
    ensures text { IfOk result (λ text. text ≡ compact_text (view_body view.now)) }
    ensures utf8 { IfOk result IsUtf8 }
{
    let mut key_text = String::new(alloc);
    let mut out = begin(alloc, LONG)?;
    write_view(&mut out, &mut key_text, view)?;
    Ok(Sequence::from_vec(out.into_inner()))
}

/// The place in ten decimal digits, with leading zeros, so that the order of the keys is that of the places. It fails only
/// where memory is refused.
pub fn ten_digits(alloc: Global, place: u32) -> Result<Bytes, Memory>
    ensures key { IfOk result (λ key. key ≡ ten_digits place) }
    ensures utf8 { IfOk result IsUtf8 }
{
    let mut buffer = Buffer::new();
    let digits = buffer.format(place).as_bytes();
    let mut key = vec![in alloc; b'0'; 10 - digits.len()]?;
    key.extend_from_slice(digits)?;
    Ok(Sequence::from_vec(key))
}

// The place that the digits write.
fn place_of_digits(digits: &str) -> Option<u32>
    ensures written { (place : ℕ) → IsPlace place → digits.now ≡ ten_digits place → result ≡ Some place }
    ensures low { IfSome result (λ place. 1 ≤ place) }
{
    match digits.parse::<u32>() {
        Ok(place) => { if place == 0 { None } else { Some(place) } }
        Err(_) => None,
    }
}

// The place that a key writes. Here it may write it in fewer or more digits than ten.
pub(crate) fn place_of_key(key: &[u8]) -> Option<u32>
    ensures written { (place : ℕ) → IsPlace place → key.now ≡ ten_digits place → result ≡ Some place }
    ensures low { IfSome result (λ place. 1 ≤ place) }
{
    match str::from_utf8(key) {
        Ok(digits) => place_of_digits(digits),
        Err(_) => None,
    }
}

// The bytes of a name.
fn name_key(alloc: Global, name: &Id) -> Result<Bytes, Memory>
    ensures key { IfOk result (λ key. key ≡ name.now) }
    ensures utf8 { IfOk result IsUtf8 }
{
    Ok(Sequence::from_vec(Vec::from_slice(alloc, name.as_str().as_bytes())?))
}

// The bytes of the text of the row's key.
fn row_key(alloc: Global, row: &Row) -> Result<Bytes, Memory>
    ensures key { IfOk result (λ key. key ≡ row_text row.now) }
    ensures utf8 { IfOk result IsUtf8 }
{
    let text = row.kind().key_text(alloc, row.id())?;
    Ok(Sequence::from_vec(text.into_bytes()))
}

/// The cell of an act at its place, from 1: on shelf 1, under the place in ten digits, `["act",USER,GROUP,CLIENT,ID,CALL]`.
pub fn cell_of_act(
    alloc: Global,
    place: u32,
    user: &User,
    group: &Id,
    client: &Id,
    id: Num,
    call: &Call,
) -> Result<Cell, Memory>
    ensures cell { IfOk result (λ cell. cell ≡ entry_cell place (Act user.now group.now client.now id call.now)) }
    ensures texts { IfOk result AreTexts }
{
    Ok(Cell {
        shelf: Shelf::Entries.number(),
        key: ten_digits(alloc, place)?,
        body: act_text(alloc, user, group, client, id, call)?,
    })
}

/// The cell of a look at its place, from 1: on shelf 1, under the place in ten digits, `["look",USER,GROUP,ORDER,BASE]` with
/// null for no base.
pub fn cell_of_look(
    alloc: Global,
    place: u32,
    user: &User,
    group: &Id,
    order: Num,
    base: Option<u32>,
) -> Result<Cell, Memory>
    ensures cell { IfOk result (λ cell. cell ≡ entry_cell place (Look user.now group.now order base)) }
    ensures texts { IfOk result AreTexts }
{
    Ok(Cell {
        shelf: Shelf::Entries.number(),
        key: ten_digits(alloc, place)?,
        body: look_text(alloc, user, group, order, base)?,
    })
}

/// The cell of a retirement at its place, from 1: on shelf 1, under the place in ten digits, `["retire",GROUP]`.
pub fn cell_of_retirement(alloc: Global, place: u32, group: &Id) -> Result<Cell, Memory>
    ensures cell { IfOk result (λ cell. cell ≡ entry_cell place (Retire group.now)) }
    ensures texts { IfOk result AreTexts }
{
    Ok(Cell {
        shelf: Shelf::Entries.number(),
        key: ten_digits(alloc, place)?,
        body: retirement_text(alloc, group)?,
    })
}

/// The cell of an entry at its place, from 1: that of an act, a look or a retirement.
pub fn cell_of_entry(alloc: Global, place: u32, entry: &Entry) -> Result<Cell, Memory>
    ensures cell { IfOk result (λ cell. cell ≡ entry_cell place entry.now) }
    ensures texts { IfOk result AreTexts }
{
    match entry {
        Entry::Act {
            user,
            group,
            client,
            id,
            call,
        } => cell_of_act(alloc, place, user, group, client, *id, call),
        Entry::Look {
            user,
            group,
            order,
            base,
        } => cell_of_look(alloc, place, user, group, *order, *base),
        Entry::Retire { group } => cell_of_retirement(alloc, place, group),
    }
}

/// The cell of the page that a book opens with, at a place from 1: on shelf 6, under the empty key, the place in decimal.
pub fn cell_of_page(alloc: Global, place: u32) -> Result<Cell, Memory>
    ensures cell { IfOk result (λ cell. cell ≡ page_cell place) }
    ensures texts { IfOk result AreTexts }
{
    Ok(Cell {
        shelf: Shelf::Page.number(),
        key: Sequence::new(alloc),
        body: page_text(alloc, place)?,
    })
}

// The cell of a row on a shelf.
pub(crate) fn row_cell_on(alloc: Global, shelf: u8, row: &Row, version: u32) -> Result<Cell, Memory>
    ensures cell { IfOk result (λ cell. cell ≡ row_cell_on shelf row.now version) }
    ensures texts { IfOk result AreTexts }
{
    Ok(Cell {
        shelf,
        key: row_key(alloc, row)?,
        body: row_body_text(alloc, row, version)?,
    })
}

/// The cell of a row with its version, the place of the entry that wrote it: on shelf 2, under the text of the row's key,
/// `[VERSION,ROW]`.
pub fn cell_of_row(alloc: Global, row: &Row, version: u32) -> Result<Cell, Memory>
    ensures cell { IfOk result (λ cell. cell ≡ row_cell row.now version) }
    ensures texts { IfOk result AreTexts }
{
    row_cell_on(alloc, Shelf::Rows.number(), row, version)
}

/// The cell of a row of the page that a book opens with, with its version: as [`cell_of_row`], on shelf 7.
pub fn cell_of_page_row(alloc: Global, row: &Row, version: u32) -> Result<Cell, Memory>
    ensures cell { IfOk result (λ cell. cell ≡ page_row_cell row.now version) }
    ensures texts { IfOk result AreTexts }
{
    row_cell_on(alloc, Shelf::PageRows.number(), row, version)
}

// The cell of a client on a shelf.
pub(crate) fn client_cell_on(
    alloc: Global,
    shelf: u8,
    client: &Id,
    group: &Id,
    last: Num,
) -> Result<Cell, Memory>
    ensures cell { IfOk result (λ cell. cell ≡ client_cell_on shelf client.now group.now last) }
    ensures texts { IfOk result AreTexts }
{
    Ok(Cell {
        shelf,
        key: name_key(alloc, client)?,
        body: client_text(alloc, group, last)?,
    })
}

/// The cell of a client with its group and its last mutation id: on shelf 3, under the client's name, `[GROUP,LAST]`.
pub fn cell_of_client(alloc: Global, client: &Id, group: &Id, last: Num) -> Result<Cell, Memory>
    ensures cell { IfOk result (λ cell. cell ≡ client_cell client.now group.now last) }
    ensures texts { IfOk result AreTexts }
{
    client_cell_on(alloc, Shelf::Clients.number(), client, group, last)
}

/// The cell of a client of the page that a book opens with: as [`cell_of_client`], on shelf 8.
pub fn cell_of_page_client(
    alloc: Global,
    client: &Id,
    group: &Id,
    last: Num,
) -> Result<Cell, Memory>
    ensures cell { IfOk result (λ cell. cell ≡ page_client_cell client.now group.now last) }
    ensures texts { IfOk result AreTexts }
{
    client_cell_on(alloc, Shelf::PageClients.number(), client, group, last)
}

// The cell of a group on a shelf.
pub(crate) fn group_cell_on(
    alloc: Global,
    shelf: u8,
    group: &Id,
    user: &User,
    order: Num,
    retired: bool,
) -> Result<Cell, Memory>
    ensures cell { IfOk result (λ cell. cell ≡ group_cell_on shelf group.now user.now order retired) }
    ensures texts { IfOk result AreTexts }
{
    Ok(Cell {
        shelf,
        key: name_key(alloc, group)?,
        body: group_text(alloc, user, order, retired)?,
    })
}

/// The cell of a group with its user, the order of its last look, 0 before the first, and whether it is retired: on shelf
/// 4, under the group's name, `[USER,LASTORDER,RETIRED]`.
pub fn cell_of_group(
    alloc: Global,
    group: &Id,
    user: &User,
    order: Num,
    retired: bool,
) -> Result<Cell, Memory>
    ensures cell { IfOk result (λ cell. cell ≡ group_cell group.now user.now order retired) }
    ensures texts { IfOk result AreTexts }
{
    group_cell_on(alloc, Shelf::Groups.number(), group, user, order, retired)
}

/// The cell of a group of the page that a book opens with: as [`cell_of_group`], on shelf 9.
pub fn cell_of_page_group(
    alloc: Global,
    group: &Id,
    user: &User,
    order: Num,
    retired: bool,
) -> Result<Cell, Memory>
    ensures cell { IfOk result (λ cell. cell ≡ page_group_cell group.now user.now order retired) }
    ensures texts { IfOk result AreTexts }
{
    group_cell_on(
        alloc,
        Shelf::PageGroups.number(),
        group,
        user,
        order,
        retired,
    )
}

/// The cell of the view record of the look at a place, from 1: on shelf 5, under the place in ten digits,
/// `[[[KEY,VERSION],..],[[CLIENT,LAST],..]]`, with the keys and the clients in order.
pub fn cell_of_view(alloc: Global, place: u32, view: &ViewRecord) -> Result<Cell, Memory>
    ensures cell { IfOk result (λ cell. cell ≡ view_cell place view.now) }
    ensures texts { IfOk result AreTexts }
{
    Ok(Cell {
        shelf: Shelf::Views.number(),
        key: ten_digits(alloc, place)?,
        body: view_text(alloc, view)?,
    })
}

// Whether the cells have the same shelf, key and body.
pub(crate) fn is_same(cell: &Cell, other: &Cell) -> bool
    ensures { result ≡ same_cell cell.now other.now }
{
    cell.shelf == other.shelf
        && cell.key.as_slice() == other.key.as_slice()
        && cell.body.as_slice() == other.body.as_slice()
}
