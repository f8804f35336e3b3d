// Texts that the book or the tables have already are kept once: an entry that comes takes those.
ghost use Rattle.std.specs.Prelude.{◌≡◌};
ghost use Rattle.rv_book.specs.Registers.{RetiresBound};

use rv_base::{Id, User};
use rv_book::{Book, Entry, Found};
use rv_mutators::Staged;
use rv_rows::{Call, Row};
use std::alloc::Global;

// The group and the user, as the book has them.
fn known_group(alloc: Global, book: &Book, group: Id, user: User, found: Found) -> (Id, User)
    requires { RetiresBound book.now.book }
    ensures { result ≡ (group, user) }
{
    match book.group_at(found.group) {
        Some(told) => (
            group.shared_with(alloc, told.group),
            user.shared_with(alloc, told.user),
        ),
        None => (group, user),
    }
}

// The client, as the book has it.
fn known_client(alloc: Global, book: &Book, client: Id, found: Found) -> Id
    ensures { result ≡ client }
{
    match book.client_at(found.client) {
        Some(told) => client.shared_with(alloc, told.client),
        None => client,
    }
}

/// The entry, whose names share the texts that the book has of its group and its client, where they were found. Takes no memory.
pub(crate) fn with_known_names(alloc: Global, book: &Book, entry: Entry, found: Found) -> Entry
    requires { RetiresBound book.now.book }
    ensures { result ≡ entry }
{
    match entry {
        Entry::Act {
            user,
            group,
            client,
            id,
            call,
        } => {
            let (group, user) = known_group(alloc, book, group, user, found);
            let client = known_client(alloc, book, client, found);
            Entry::Act {
                user,
                group,
                client,
                id,
                call,
            }
        }
        Entry::Look {
            user,
            group,
            order,
            base,
        } => {
            let (group, user) = known_group(alloc, book, group, user, found);
            Entry::Look {
                user,
                group,
                order,
                base,
            }
        }
        Entry::Retire { group } => Entry::Retire { group },
    }
}

// The list, as the todo that is written has it.
fn known_list(alloc: Global, staged: &Staged, list: Id) -> Id
    ensures { result ≡ list }
{
    match staged.rows.as_slice().first() {
        Some(Row::Todo(row)) => list.shared_with(alloc, &row.list),
        _ => list,
    }
}

/// The call, whose list shares the text that the todo has which it writes. Takes no memory.
pub(crate) fn with_known_list(alloc: Global, staged: &Staged, call: Call) -> Call
    ensures { result ≡ call }
{
    match call {
        Call::CreateTodo {
            id,
            list,
            text,
            complete,
        } => Call::CreateTodo {
            id,
            list: known_list(alloc, staged, list),
            text,
            complete,
        },
        other => other,
    }
}

/// Where the book has the group of a look.
pub(crate) fn find_group(book: &Book, group: &Id) -> Found {
    Found {
        group: book.group(group).at,
        client: 0,
    }
}

/// Where the book has the group and the client of an act.
pub(crate) fn find(book: &Book, group: &Id, client: &Id) -> Found {
    let found = find_group(book, group);
    match book.client(client) {
        Some(told) => Found {
            client: told.at,
            ..found
        },
        None => found,
    }
}
