//! The registers of a book: clients and groups in the order of their bytes, each with what is told of it.
ghost use Rattle.std.specs.Prelude.{◌≡◌, ◌≤◌, ◌++◌, [], map, IfOk, IfSome, OnOk};
ghost use Rattle.std.specs.List.{cons_option, filter_map, AllByRecursion};
ghost use Rattle.rv_base.specs.Sorted.{InOrder, put_by, sorted_by, IsPositionOf};
ghost use Rattle.rv_book.specs.Book.{acting_client, client_in, clients_named, ids, size};
ghost use Rattle.rv_book.specs.Registers.{binding_group, client_named, clients_of, group_named, groups_named, groups_of};

use crate::book::{belongs, bound, group_of, last, last_order, retired};
use crate::plain_book::PlainBook;
use rv_base::{Id, Memory, Num, Sequence, User};
use rv_book::{Entry, Page};
use rv_rows::Clients;
use std::alloc::Global;

// Adds what is told, where something is.
fn add<T: Drop>(list: &mut Sequence<T>, told: Option<T>) -> Result<(), Memory>
    ensures { OnOk result (list.new ≡ list.old ++ cons_option told []) }
{
    match told {
        Some(item) => list.push(item),
        None => Ok(()),
    }
}

// Adds the clients of the page.
fn add_page_clients(alloc: Global, names: &mut Sequence<Id>, page: &Page) -> Result<(), Memory>
    ensures { OnOk result (names.new ≡ names.old ++ map (λ c. c.0) page.now.clients) }
{
    for told in page.clients.as_slice() {
        names.push(told.0.copy(alloc)?)?;
    }
    Ok(())
}

// Adds the groups of the page.
fn add_page_groups(alloc: Global, names: &mut Sequence<Id>, page: &Page) -> Result<(), Memory>
    ensures { OnOk result (names.new ≡ names.old ++ map (λ g. g.0) page.now.groups) }
{
    for told in page.groups.as_slice() {
        names.push(told.0.copy(alloc)?)?;
    }
    Ok(())
}

// The client of an act.
fn acting_client(alloc: Global, entry: &Entry) -> Result<Option<Id>, Memory>
    ensures { IfOk result (λ client. client ≡ acting_client entry.now) }
{
    match entry {
        Entry::Act { client, .. } => Ok(Some(client.copy(alloc)?)),
        Entry::Look { .. } => Ok(None),
        Entry::Retire { .. } => Ok(None),
    }
}

// The group that an act or a look names.
fn binding_group(alloc: Global, entry: &Entry) -> Result<Option<Id>, Memory>
    ensures { IfOk result (λ group. group ≡ binding_group entry.now) }
{
    match entry {
        Entry::Act { group, .. } => Ok(Some(group.copy(alloc)?)),
        Entry::Look { group, .. } => Ok(Some(group.copy(alloc)?)),
        Entry::Retire { .. } => Ok(None),
    }
}

// Adds the client of each act.
fn add_acting(alloc: Global, names: &mut Sequence<Id>, entries: &[Entry]) -> Result<(), Memory>
    ensures { OnOk result (names.new ≡ names.old ++ filter_map acting_client entries.now) }
{
    for entry in entries {
        add(names, acting_client(alloc, entry)?)?;
    }
    Ok(())
}

// Adds the group of each act and look.
fn add_binding(alloc: Global, names: &mut Sequence<Id>, entries: &[Entry]) -> Result<(), Memory>
    ensures { OnOk result (names.new ≡ names.old ++ filter_map binding_group entries.now) }
{
    for entry in entries {
        add(names, binding_group(alloc, entry)?)?;
    }
    Ok(())
}

// Where a name stands, or where it would go.
fn place(names: &[Id], name: &Id) -> Result<usize, usize>
    requires { InOrder (λ n. n) names.now }
    ensures { IsPositionOf (λ n. n) name.now names.now result }
{
    names.binary_search_by(|other| other.cmp(name))
}

// Writes a name into names that stand in order.
fn put(names: &mut Vec<Id>, name: Id) -> Result<(), Memory>
    requires { InOrder (λ n. n) names.old.items }
    ensures names { OnOk result (names.new.items ≡ put_by (λ n. n) name names.old.items) }
    ensures order { OnOk result (InOrder (λ n. n) names.new.items) }
{
    match place(names, &name) {
        Ok(at) => {
            names[at] = name;
            Ok(())
        }
        Err(at) => {
            names.insert(at, name)?;
            Ok(())
        }
    }
}

// The names in the order of their bytes, each once.
fn in_order(alloc: Global, names: &[Id]) -> Result<Vec<Id>, Memory>
    ensures names { IfOk result (λ v. v.items ≡ sorted_by (λ n. n) names.now) }
    ensures order { IfOk result (λ v. InOrder (λ n. n) v.items) }
{
    let mut sorted = Vec::new(alloc);
    for name in names {
        put(&mut sorted, name.copy(alloc)?)?;
    }
    Ok(sorted)
}

// The clients that the page or an act names, in order.
fn client_names(alloc: Global, book: &PlainBook) -> Result<Vec<Id>, Memory>
    ensures { IfOk result (λ v. v.items ≡ sorted_by (λ n. n) (clients_named book.now)) }
{
    let mut names = Sequence::new(alloc);
    add_page_clients(alloc, &mut names, book.page())?;
    add_acting(alloc, &mut names, book.entries())?;
    in_order(alloc, names.as_slice())
}

// The groups that the page, an act or a look names, in order.
fn group_names(alloc: Global, book: &PlainBook) -> Result<Vec<Id>, Memory>
    ensures { IfOk result (λ v. v.items ≡ sorted_by (λ n. n) (groups_named book.now)) }
{
    let mut names = Sequence::new(alloc);
    add_page_groups(alloc, &mut names, book.page())?;
    add_binding(alloc, &mut names, book.entries())?;
    in_order(alloc, names.as_slice())
}

// Of a client of the group: the client, with its last mutation id.
fn client_in(
    alloc: Global,
    book: &PlainBook,
    group: &Id,
    client: &Id,
) -> Result<Option<(Id, Num)>, Memory>
    ensures { IfOk result (λ told. told ≡ client_in group.now book.now client.now) }
{
    if !belongs(book, client, group) {
        return Ok(None);
    }
    let last = Num::from_u64(last(book, client));
    Ok(Some((client.copy(alloc)?, last)))
}

// Of each of these clients that is of the group: the client, with its last mutation id.
fn clients_in(alloc: Global, book: &PlainBook, group: &Id, names: &[Id]) -> Result<Clients, Memory>
    ensures { IfOk result (λ v. v ≡ filter_map (client_in group.now book.now) names.now) }
{
    let mut clients = Sequence::new(alloc);
    for name in names {
        add(&mut clients, client_in(alloc, book, group, name)?)?;
    }
    Ok(clients)
}

/// The clients of a group with their last mutation ids, in the order of the clients' bytes.
pub(crate) fn ids(alloc: Global, book: &PlainBook, group: &Id) -> Result<Clients, Memory>
    ensures ids { IfOk result (λ v. v ≡ ids group.now book.now) }
    ensures order { IfOk result (λ v. InOrder (λ pair. pair.0) v) }
{
    let names = client_names(alloc, book)?;
    clients_in(alloc, book, group, &names)
}

// A client that has a group: its name, its group, and its last mutation id.
fn client_named(
    alloc: Global,
    book: &PlainBook,
    client: &Id,
) -> Result<Option<(Id, Id, Num)>, Memory>
    ensures told { IfOk result (λ told. told ≡ client_named client.now book.now) }
    ensures fits { IfOk result (λ told. IfSome told (λ c. c.2 ≤ size book.now)) }
{
    match group_of(book, client) {
        Some(group) => {
            let last = Num::from_u64(last(book, client));
            Ok(Some((client.copy(alloc)?, group.copy(alloc)?, last)))
        }
        None => Ok(None),
    }
}

// Of each of these clients what is told of it.
fn told_clients(
    alloc: Global,
    book: &PlainBook,
    names: &[Id],
) -> Result<Sequence<(Id, Id, Num)>, Memory>
    ensures clients { IfOk result (λ v. v ≡ filter_map (λ client. client_named client book.now) names.now) }
    ensures fits { IfOk result (AllByRecursion (λ c. c.2 ≤ size book.now)) }
{
    let mut clients = Sequence::new(alloc);
    for name in names {
        add(&mut clients, client_named(alloc, book, name)?)?;
    }
    Ok(clients)
}

/// The clients that the page or an act names, in the order of their bytes.
pub(crate) fn clients_of(alloc: Global, book: &PlainBook) -> Result<Sequence<(Id, Id, Num)>, Memory>
    ensures clients { IfOk result (λ clients. clients ≡ clients_of book.now) }
    ensures fits { IfOk result (AllByRecursion (λ c. c.2 ≤ size book.now)) }
{
    let names = client_names(alloc, book)?;
    told_clients(alloc, book, &names)
}

// A group that is bound: its name, its user, the order of its last look, and whether it is retired.
fn group_named(
    alloc: Global,
    book: &PlainBook,
    group: &Id,
) -> Result<Option<(Id, User, Num, bool)>, Memory>
    ensures { IfOk result (λ told. told ≡ group_named group.now book.now) }
{
    match bound(book, group) {
        Some(user) => {
            let order = last_order(book, group);
            let is_retired = retired(book, group);
            Ok(Some((group.copy(alloc)?, user.copy(alloc)?, order, is_retired)))
        }
        None => Ok(None),
    }
}

// Of each of these groups what is told of it.
fn told_groups(
    alloc: Global,
    book: &PlainBook,
    names: &[Id],
) -> Result<Sequence<(Id, User, Num, bool)>, Memory>
    ensures { IfOk result (λ v. v ≡ filter_map (λ group. group_named group book.now) names.now) }
{
    let mut groups = Sequence::new(alloc);
    for name in names {
        add(&mut groups, group_named(alloc, book, name)?)?;
    }
    Ok(groups)
}

/// The groups that the page, an act or a look names, in the order of their bytes.
pub(crate) fn groups_of(
    alloc: Global,
    book: &PlainBook,
) -> Result<Sequence<(Id, User, Num, bool)>, Memory>
    ensures { IfOk result (λ groups. groups ≡ groups_of book.now) }
{
    let names = group_names(alloc, book)?;
    told_groups(alloc, book, &names)
}
