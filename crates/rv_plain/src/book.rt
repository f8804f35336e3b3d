//! What is looked up in a book: of clients and groups, on its page first and then entry by entry.
ghost use Rattle.std.specs.Prelude.{◌≡◌, ◌≤◌, ◌<◌, ◌^◌, false, length, IfOk, option_map};
ghost use Rattle.std.specs.List.{fold};
ghost use Rattle.std.specs.Option.{option_map_or};
ghost use Rattle.rv_book.specs.Entries.{bound_in, group_of_in, is_act_of, last_in, order_after, retired_in, retires};
ghost use Rattle.rv_book.specs.Book.{belongs, bound, group_of, last, last_order, page_client, page_group, retired, size};
ghost use Rattle.rv_book.specs.Indexes.{LastsFit};
ghost use Rattle.rv_history.specs.Replay.{page_rows, rows_after, rows_of};

use crate::copies::rows_in;
use crate::plain_book::PlainBook;
use crate::rows::in_key_order;
use rv_base::{Id, Memory, Num, User};
use rv_book::{Entry, Page};
use rv_rows::Row;
use std::alloc::Global;

// What the page has of a client.
fn page_client<'b>(page: &'b Page, client: &Id) -> Option<&'b (Id, Id, Num)>
    ensures { option_map (λ c. c.now) result ≡ page_client client.now page.now }
{
    for told in page.clients.as_slice() {
        if *client == told.0 {
            return Some(told);
        }
    }
    None
}

// What the page has of a group.
fn page_group<'b>(page: &'b Page, group: &Id) -> Option<&'b (Id, User, Num, bool)>
    ensures { option_map (λ g. g.now) result ≡ page_group group.now page.now }
{
    for told in page.groups.as_slice() {
        if *group == told.0 {
            return Some(told);
        }
    }
    None
}

// The user of the first act or look that names a group.
fn bound_in<'b>(entries: &'b [Entry], group: &Id) -> Option<&'b User>
    ensures { option_map (λ user. user.now) result ≡ bound_in group.now entries.now }
{
    for entry in entries {
        match entry {
            Entry::Act {
                user,
                group: other,
                ..
            } => {
                if other == group {
                    return Some(user);
                }
            }
            Entry::Look {
                user,
                group: other,
                ..
            } => {
                if other == group {
                    return Some(user);
                }
            }
            Entry::Retire { .. } => {}
        }
    }
    None
}

/// The user whom a group is bound to: that of the page, or else of the first act or look that names it.
pub(crate) fn bound<'b>(book: &'b PlainBook, group: &Id) -> Option<&'b User>
    ensures { option_map (λ user. user.now) result ≡ bound group.now book.now }
{
    match page_group(book.page(), group) {
        Some(told) => Some(&told.1),
        None => bound_in(book.entries(), group),
    }
}

fn retires(entry: &Entry, group: &Id) -> bool
    ensures { result ≡ retires group.now entry.now }
{
    match entry {
        Entry::Act { .. } => false,
        Entry::Look { .. } => false,
        Entry::Retire { group: other } => other == group,
    }
}

// Whether some of the entries retires a group.
fn retired_in(entries: &[Entry], group: &Id) -> bool
    ensures { result ≡ retired_in group.now entries.now }
{
    entries.iter().any(|entry| retires(entry, group))
}

// Whether a group is retired on the page.
fn retired_on(page: &Page, group: &Id) -> bool
    ensures { result ≡ option_map_or (λ g. g.3) (page_group group.now page.now) false }
{
    match page_group(page, group) {
        Some(told) => told.3,
        None => false,
    }
}

/// Whether a group is retired: it is on the page, or an entry retires it.
pub(crate) fn retired(book: &PlainBook, group: &Id) -> bool
    ensures { result ≡ retired group.now book.now }
{
    retired_on(book.page(), group) || retired_in(book.entries(), group)
}

fn is_act_of(entry: &Entry, actor: &Id) -> bool
    ensures { result ≡ is_act_of actor.now entry.now }
{
    match entry {
        Entry::Act { client, .. } => client == actor,
        Entry::Look { .. } => false,
        Entry::Retire { .. } => false,
    }
}

// The number of a client's acts.
fn last_in(entries: &[Entry], client: &Id) -> u64
    ensures value { result ≡ last_in client.now entries.now }
    ensures bound { result ≤ length entries.now }
{
    entries
        .iter()
        .filter(|entry| is_act_of(entry, client))
        .count() as u64
}

// The last mutation id that the page has of a client, or 0.
fn last_on(page: &Page, client: &Id) -> u64
    requires { LastsFit page.now }
    ensures value { result ≡ option_map_or (λ c. c.2) (page_client client.now page.now) 0 }
    ensures bound { result ≤ page.now.at }
{
    match page_client(page, client) {
        Some(told) => told.2.get(),
        None => 0,
    }
}

/// The last mutation id of a client: that of the page, or 0, and the number of its acts.
pub fn last(book: &PlainBook, client: &Id) -> u64
    ensures value { result ≡ last client.now book.now }
    ensures bound { result ≤ size book.now }
    ensures small { size book.now < 2 ^ 32 }
{
    last_on(book.page(), client) + last_in(book.entries(), client)
}

// The group of a client's first act.
fn group_of_in<'b>(entries: &'b [Entry], client: &Id) -> Option<&'b Id>
    ensures { option_map (λ group. group.now) result ≡ group_of_in client.now entries.now }
{
    for entry in entries {
        if let Entry::Act {
            group,
            client: actor,
            ..
        } = entry
        {
            if actor == client {
                return Some(group);
            }
        }
    }
    None
}

/// The group of a client: that of the page, or else of its first act.
pub(crate) fn group_of<'b>(book: &'b PlainBook, client: &Id) -> Option<&'b Id>
    ensures { option_map (λ group. group.now) result ≡ group_of client.now book.now }
{
    match page_client(book.page(), client) {
        Some(told) => Some(&told.1),
        None => group_of_in(book.entries(), client),
    }
}

fn order_after(entry: &Entry, group: &Id, before: Num) -> Num
    ensures { result ≡ order_after group.now before entry.now }
{
    match entry {
        Entry::Act { .. } => before,
        Entry::Look {
            group: other,
            order,
            ..
        } => { if other == group { *order } else { before } }
        Entry::Retire { .. } => before,
    }
}

// The order of the last look of a group that the page has, or 0.
fn order_on(page: &Page, group: &Id) -> Num
    ensures { result ≡ option_map_or (λ g. g.2) (page_group group.now page.now) 0 }
{
    match page_group(page, group) {
        Some(told) => told.2,
        None => Num::from_u64(0),
    }
}

// The order of a group's last look among the entries, or this one.
#[tactic(auto, using(std::proofs::lemmas::List::Sums::fold_more))]
fn order_in(entries: &[Entry], group: &Id, first: Num) -> Num
    ensures { result ≡ fold (order_after group.now) first entries.now }
{
    let mut order = first;
    for entry in entries {
        order = order_after(entry, group, order);
    }
    order
}

/// The order of a group's last look, or else that of the page, or 0.
pub(crate) fn last_order(book: &PlainBook, group: &Id) -> Num
    ensures { result ≡ last_order group.now book.now }
{
    let first = order_on(book.page(), group);
    order_in(book.entries(), group, first)
}

/// Whether a client is of a group.
pub(crate) fn belongs(book: &PlainBook, client: &Id, group: &Id) -> bool
    ensures { result ≡ belongs client.now group.now book.now }
{
    match group_of(book, client) {
        Some(other) => other == group,
        None => false,
    }
}

/// The rows after one more entry.
pub(crate) fn rows_after(alloc: Global, rows: Vec<Row>, entry: &Entry) -> Result<Vec<Row>, Memory>
    ensures { IfOk result (λ v. v.items ≡ rows_after rows.items entry.now) }
{
    match entry {
        Entry::Act { user, call, .. } => crate::rows::effect(alloc, rows, user, call),
        Entry::Look { .. } => Ok(rows),
        Entry::Retire { .. } => Ok(rows),
    }
}

// The rows of a page.
fn page_rows(alloc: Global, page: &Page) -> Result<Vec<Row>, Memory>
    ensures { IfOk result (λ v. v.items ≡ page_rows page.now) }
{
    let rows = rows_in(alloc, page.rows.as_slice())?;
    in_key_order(alloc, &rows)
}

// The rows after these entries.
#[tactic(auto, using(std::proofs::lemmas::List::Sums::fold_more))]
fn replayed(alloc: Global, rows: Vec<Row>, entries: &[Entry]) -> Result<Vec<Row>, Memory>
    ensures { IfOk result (λ v. v.items ≡ fold rows_after rows.items entries.now) }
{
    let mut rows = rows;
    for entry in entries {
        rows = rows_after(alloc, rows, entry)?;
    }
    Ok(rows)
}

/// The rows of a book: those of its page, and its acts replayed on them, one after another.
pub fn rows_of(alloc: Global, book: &PlainBook) -> Result<Vec<Row>, Memory>
    ensures { IfOk result (λ v. v.items ≡ rows_of book.now) }
{
    let rows = page_rows(alloc, book.page())?;
    replayed(alloc, rows, book.entries())
}
