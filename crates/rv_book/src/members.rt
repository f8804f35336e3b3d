// The clients of each group: the rows of the clients in the order of their groups, and then of the clients.
ghost use Rattle.std.specs.Prelude.{◌≡◌, true, ◌≤◌, ◌<◌, ◌+◌, ◌-◌, ◌^◌, length, [], IfOk, Some, option_map, vec_len, vec_capacity};
ghost use Rattle.std.specs.List.{filter};
ghost use Rattle.std.specs.Cmp.Lexicographic.{slice_cmp};
ghost use Rattle.std.specs.Ordering.{nat_cmp};
ghost use Rattle.rv_base.specs.Sorted.{InOrder, IsPositionOf};
ghost use Rattle.rv_book.specs.declared.entry.Entry.{Entry};
ghost use Rattle.rv_book.specs.Entries.{is_act_of};
ghost use Rattle.rv_book.specs.Book.{book_from, group_of, ids, size, with_entry};
ghost use Rattle.rv_book.specs.Indexes.{LastsFit};
ghost use Rattle.rv_book.specs.Logs.{logged};
ghost use Rattle.rv_book.specs.Members.{AreMemberRows, group_before, group_of_member, is_member, key_of_member, member_key, info_by};
ghost use Rattle.rv_book.specs.SoundPages.{IsSoundPage};

use crate::clients;
use crate::clients::ClientRow;
use crate::entry::Entry;
use crate::group_clients::GroupClients;
use crate::log::Log;
use crate::page::Page;
use rv_base::{Id, Memory, Num};
use std::alloc::Global;
use std::cmp::Ordering;

// The group of a row: that of what it names, and an empty text where it names no client.
#[tactic(auto, unfolding(crate::specs::Members::group_of_member))]
fn group<'b>(log: Log<'b>, row: &ClientRow) -> &'b str
    ensures { result.now ≡ group_of_member (logged log.entry) row.now }
{
    match log.acting_at(row.first) {
        Some((_, group)) => group.as_str(),
        None => "",
    }
}

// How a row stands to a client of a group.
fn compare(log: Log<'_>, row: &ClientRow, other: &str, client: &str) -> Ordering
    ensures { result ≡ slice_cmp nat_cmp (key_of_member (logged log.entry) row.now) (member_key other.now client.now) }
{
    match group(log, row).cmp(other) {
        Ordering::Less => Ordering::Less,
        Ordering::Equal => clients::key(log, row).cmp(client),
        Ordering::Greater => Ordering::Greater,
    }
}

// How a row stands to another.
fn compare_rows(log: Log<'_>, row: &ClientRow, other: &ClientRow) -> Ordering
    ensures { result ≡ slice_cmp nat_cmp (key_of_member (logged log.entry) row.now) (key_of_member (logged log.entry) other.now) }
{
    compare(log, row, group(log, other), clients::key(log, other))
}

// The rows of a page's clients by group, before an entry follows.
pub(crate) fn of_page(alloc: Global, page: &Page) -> Result<Vec<ClientRow>, Memory>
    requires { IsSoundPage page.now }
    ensures { IfOk result (λ rows. AreMemberRows (book_from page.now []) rows.items) }
{
    let mut rows = clients::of_page(alloc, page)?;
    let log = Log { page, entries: &[] };
    rows.sort_unstable_by(|row, other| compare_rows(log, row, other));
    Ok(rows)
}

// Where the row of a client of a group stands, or where it would go.
fn position(log: Log<'_>, rows: &[ClientRow], group: &Id, client: &Id) -> Result<usize, usize>
    requires { AreMemberRows (logged log) rows.now }
    ensures now { IsPositionOf (key_of_member (logged log.entry)) (member_key group.now client.now) rows.now result }
    ensures next { (entry : Entry) → IsPositionOf (key_of_member (with_entry (logged log.entry) entry)) (member_key group.now client.now) rows.now result }
{
    rows.binary_search_by(|row| compare(log, row, group.as_str(), client.as_str()))
}

// The rows of a group, found by two searches.
fn of<'r>(log: Log<'_>, rows: &'r [ClientRow], other: &Id) -> &'r [ClientRow]
    requires { AreMemberRows (logged log) rows.now }
    ensures { result.now ≡ filter (is_member other.now (logged log.entry)) rows.now }
{
    let from = rows.partition_point(|row| group(log, row).cmp(other.as_str()).is_lt());
    let rest = &rows[from..];
    let count = rest.partition_point(|row| group(log, row).cmp(other.as_str()).is_le());
    &rest[..count]
}

// The client of a row, with its last mutation id.
pub(crate) fn info<'b>(log: Log<'b>, row: &ClientRow) -> Option<(&'b Id, Num)>
    ensures { option_map (λ pair. (pair.0.now, pair.1)) result ≡ info_by (logged log.entry) row.now }
{
    let (client, _) = log.acting_at(row.first)?;
    Some((client, Num::from_u64(row.acts as u64)))
}

// The clients of a group with their last mutation ids, in the order of the clients' bytes.
pub(crate) fn of_group<'b>(log: Log<'b>, rows: &'b [ClientRow], group: &Id) -> GroupClients<'b>
    requires { AreMemberRows (logged log) rows.now }
    ensures ids { result ≡ ids group.now (logged log.entry) }
    ensures order { InOrder (λ pair. pair.0) (ids group.now (logged log.entry)) }
{
    GroupClients::new(log, of(log, rows, group))
}

// Enters an act of a client of a group, which follows the entries.
fn enter_act(log: Log<'_>, rows: &mut Vec<ClientRow>, group: &Id, client: &Id)
    requires lasts { LastsFit log.page.now }
    requires rows { AreMemberRows (logged log) rows.old.items }
    requires spare { 1 ≤ vec_capacity rows.old - vec_len rows.old }
    requires length { size (logged log) + 1 < 2 ^ 32 }
    ensures rows { (entry : Entry) → is_act_of client.now entry ≡ true → group_of client.now (with_entry (logged log.entry) entry) ≡ Some group.now → AreMemberRows (with_entry (logged log.entry) entry) rows.new.items }
    ensures spare { vec_capacity rows.old - vec_len rows.old ≤ (vec_capacity rows.new - vec_len rows.new) + 1 }
{
    match position(log, rows, group, client) {
        Ok(at) => rows[at].acts += 1,
        Err(at) => {
            let row = ClientRow {
                first: log.acting_len(),
                acts: 1,
            };
            match rows.insert(at, row) {
                Ok(()) => {}
                Err(_) => unreachable!(),
            }
        }
    }
}

// Enters an entry, which follows the others. Of an act the group that its client had before is known.
pub(crate) fn enter(
    log: Log<'_>,
    rows: &mut Vec<ClientRow>,
    entry: &Entry,
    first_group: Option<&Id>,
)
    requires lasts { LastsFit log.page.now }
    requires group { option_map (λ group. group.now) first_group ≡ group_before (logged log) entry.now }
    requires rows { AreMemberRows (logged log) rows.old.items }
    requires spare { 1 ≤ vec_capacity rows.old - vec_len rows.old }
    requires length { size (logged log) + 1 < 2 ^ 32 }
    ensures rows { AreMemberRows (with_entry (logged log.entry) entry.now) rows.new.items }
    ensures spare { vec_capacity rows.old - vec_len rows.old ≤ (vec_capacity rows.new - vec_len rows.new) + 1 }
{
    match entry {
        Entry::Act { group, client, .. } => enter_act(
            log,
            rows,
            first_group.unwrap_or(group),
            client,
        ),
        Entry::Look { .. } => {}
        Entry::Retire { .. } => {}
    }
}
