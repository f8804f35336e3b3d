ghost use Rattle.std.specs.Prelude.{◌≡◌, IsTrue, true, ◌≤◌, ◌<◌, ◌+◌, ◌-◌, ◌^◌, length, [], IfOk, Some, option_map, option_and_then, slice_get, IfSome, vec_len, vec_capacity};
ghost use Rattle.std.specs.Option.{option_map_or};
ghost use Rattle.rv_base.specs.Sorted.{IsPositionOf};
ghost use Rattle.rv_book.specs.declared.entry.Entry.{Entry};
ghost use Rattle.rv_book.specs.Entries.{is_act_of};
ghost use Rattle.rv_book.specs.Book.{book_from, group_of, last, size, with_entry};
ghost use Rattle.rv_book.specs.Logs.{logged};
ghost use Rattle.rv_book.specs.Indexes.{acted_in, acting, AreClientRows, LastsFit, StandsAt, client_of_row, info_by_client};
ghost use Rattle.rv_book.specs.Members.{group_before};
ghost use Rattle.rv_book.specs.Registers.{clients_of};
ghost use Rattle.rv_book.specs.SoundPages.{IsSoundPage};

use crate::entry::Entry;
use crate::log::Log;
use crate::page::Page;
use rv_base::{Id, Memory, Num};
use std::alloc::Global;

/// What the book tells of a client that the page or an act names.
#[derive(Clone, Copy, Debug)]
pub struct ClientRef<'a> {
    /// The client.
    pub client: &'a Id,
    /// The client's group: that of the page, or else of its first act.
    pub group: &'a Id,
    /// The client's last mutation id: that of the page, or 0, plus the number of its acts.
    pub last: Num,
    /// The client's index, from 0, among the clients that the page or an act names, at which a later look-up begins.
    pub at: usize,
}

// Of a client that the page or an act names: the index of what names it first, and its last mutation id.
#[derive(Clone, Copy, Debug)]
pub(crate) struct ClientRow {
    pub(crate) first: usize,
    pub(crate) acts: u32,
}

// The rows of a page's clients, before an entry follows.
pub(crate) fn of_page(alloc: Global, page: &Page) -> Result<Vec<ClientRow>, Memory>
    requires { IsSoundPage page.now }
    ensures { IfOk result (λ rows. AreClientRows (book_from page.now []) rows.items) }
{
    let clients = page.clients.as_slice();
    let mut rows = Vec::with_capacity(alloc, clients.len())?;
    for (first, (_, _, last)) in clients.iter().enumerate() {
        rows.push(ClientRow {
            first,
            acts: last.get() as u32,
        })?;
    }
    Ok(rows)
}

// The client of a row, and an empty text where the row names no client.
#[tactic(auto, unfolding(crate::specs::Indexes::client_of_row))]
pub(crate) fn key<'b>(log: Log<'b>, row: &ClientRow) -> &'b str
    ensures { result.now ≡ client_of_row (logged log.entry) row.now }
{
    match log.acting_at(row.first) {
        Some((client, _)) => client.as_str(),
        None => "",
    }
}

// Where the row of a client stands, or where it would go.
fn position(log: Log<'_>, rows: &[ClientRow], client: &Id) -> Result<usize, usize>
    requires { AreClientRows (logged log) rows.now }
    ensures now { IsPositionOf (client_of_row (logged log.entry)) client.now rows.now result }
    ensures next { (entry : Entry) → IsPositionOf (client_of_row (with_entry (logged log.entry) entry)) client.now rows.now result }
{
    rows.binary_search_by(|row| key(log, row).cmp(client.as_str()))
}

// Whether the row of the client stands there.
fn stands_at(log: Log<'_>, rows: &[ClientRow], client: &Id, at: usize) -> bool
    ensures { IsTrue result → StandsAt (client_of_row (logged log.entry)) client.now rows.now at }
{
    match rows.get(at) {
        Some(row) => key(log, row) == client.as_str(),
        None => false,
    }
}

// Where the row of a client stands, or where it would go. It is looked for at an index, and searched for where it is not there.
fn position_from(log: Log<'_>, rows: &[ClientRow], client: &Id, at: usize) -> Result<usize, usize>
    requires { AreClientRows (logged log) rows.now }
    ensures now { IsPositionOf (client_of_row (logged log.entry)) client.now rows.now result }
    ensures next { (entry : Entry) → IsPositionOf (client_of_row (with_entry (logged log.entry) entry)) client.now rows.now result }
{
    if stands_at(log, rows, client, at) {
        Ok(at)
    } else {
        position(log, rows, client)
    }
}

// What the row at an index says of its client, by what it names.
fn info_by<'b>(log: Log<'b>, row: &ClientRow, at: usize) -> Option<ClientRef<'b>>
    ensures info { option_map (λ info. (info.client.now, info.group.now, info.last)) result ≡ info_by_client (logged log.entry) row.now }
    ensures at { IfSome result (λ info. info.at ≡ at) }
{
    let (client, group) = log.acting_at(row.first)?;
    Some(ClientRef {
        client,
        group,
        last: Num::from_u64(row.acts as u64),
        at,
    })
}

// The client at an index, from 0, of those that the page or an act names, in the order of their bytes.
pub(crate) fn info_at<'b>(log: Log<'b>, rows: &[ClientRow], at: usize) -> Option<ClientRef<'b>>
    requires { AreClientRows (logged log) rows.now }
    ensures info { option_map (λ info. (info.client.now, info.group.now, info.last)) result ≡ slice_get (clients_of (logged log.entry)) at }
    ensures at { IfSome result (λ info. info.at ≡ at) }
{
    info_by(log, rows.get(at)?, at)
}

// What is said of a client.
pub(crate) fn info<'b>(log: Log<'b>, rows: &[ClientRow], client: &Id) -> Option<ClientRef<'b>>
    requires lasts { LastsFit log.page.now }
    requires rows { AreClientRows (logged log) rows.now }
    ensures name { IfSome result (λ info. info.client.now ≡ client.now) }
    ensures group { option_map (λ info. info.group.now) result ≡ group_of client.now (logged log.entry) }
    ensures last { option_map_or (λ info. info.last) result 0 ≡ last client.now (logged log.entry) }
    ensures bound { IfSome result (λ info. info.last ≤ size (logged log.entry)) }
    ensures at { IfSome result (λ info. slice_get (clients_of (logged log.entry)) info.at ≡ Some (info.client.now, info.group.now, info.last)) }
{
    match position(log, rows, client) {
        Ok(at) => info_at(log, rows, at),
        Err(_) => None,
    }
}

// The group that is named at an index.
fn group_at<'b>(log: Log<'b>, index: usize) -> Option<&'b Id>
    ensures { option_map (λ group. group.now) result ≡ option_and_then acted_in (slice_get (acting (logged log.entry)) index) }
{
    let (_, group) = log.acting_at(index)?;
    Some(group)
}

// Enters an act of a client, which follows the entries, and answers the group that the client had before. Its row is looked for at
// an index first.
fn enter_act<'b>(log: Log<'b>, rows: &mut Vec<ClientRow>, client: &Id, at: usize) -> Option<&'b Id>
    requires lasts { LastsFit log.page.now }
    requires rows { AreClientRows (logged log) rows.old.items }
    requires spare { 1 ≤ vec_capacity rows.old - vec_len rows.old }
    requires length { size (logged log) + 1 < 2 ^ 32 }
    ensures rows { (entry : Entry) → is_act_of client.now entry ≡ true → AreClientRows (with_entry (logged log.entry) entry) rows.new.items }
    ensures spare { vec_capacity rows.old - vec_len rows.old ≤ (vec_capacity rows.new - vec_len rows.new) + 1 }
    ensures group { option_map (λ group. group.now) result ≡ group_of client.now (logged log.entry) }
{
    match position_from(log, rows, client, at) {
        Ok(at) => {
            let row = &mut rows[at];
            row.acts += 1;
            group_at(log, row.first)
        }
        Err(at) => {
            let row = ClientRow {
                first: log.acting_len(),
                acts: 1,
            };
            match rows.insert(at, row) {
                Ok(()) => None,
                Err(_) => unreachable!(),
            }
        }
    }
}

// Enters an entry, which follows the others. Of an act it answers the group that its client had before; the client's row is looked
// for at an index first.
pub(crate) fn enter<'b>(
    log: Log<'b>,
    rows: &mut Vec<ClientRow>,
    entry: &Entry,
    at: usize,
) -> Option<&'b Id>
    requires lasts { LastsFit log.page.now }
    requires rows { AreClientRows (logged log) rows.old.items }
    requires spare { 1 ≤ vec_capacity rows.old - vec_len rows.old }
    requires length { size (logged log) + 1 < 2 ^ 32 }
    ensures rows { AreClientRows (with_entry (logged log.entry) entry.now) rows.new.items }
    ensures spare { vec_capacity rows.old - vec_len rows.old ≤ (vec_capacity rows.new - vec_len rows.new) + 1 }
    ensures group { option_map (λ group. group.now) result ≡ group_before (logged log.entry) entry.now }
{
    match entry {
        Entry::Act { client, .. } => enter_act(log, rows, client, at),
        Entry::Look { .. } => None,
        Entry::Retire { .. } => None,
    }
}
