//! Entries of the book, with copies of their names.
ghost use Rattle.std.specs.Prelude.{◌≡◌, IfOk};
ghost use Rattle.rv_book.specs.declared.entry.Entry.TheVariants.{Act, Look, Retire};

use rv_base::{Id, Memory, Num, User};
use rv_book::Entry;
use rv_rows::Call;
use std::alloc::Global;

/// An act of a client.
pub fn act(
    alloc: Global,
    user: &User,
    group: &Id,
    client: &Id,
    id: Num,
    call: Call,
) -> Result<Entry, Memory>
    ensures { IfOk result (λ entry. entry ≡ Act user.now group.now client.now id call) }
{
    Ok(Entry::Act {
        user: user.copy(alloc)?,
        group: group.copy(alloc)?,
        client: client.copy(alloc)?,
        id,
        call,
    })
}

/// A look, with the place of its base.
pub fn look(
    alloc: Global,
    user: &User,
    group: &Id,
    order: Num,
    base: Option<u32>,
) -> Result<Entry, Memory>
    ensures { IfOk result (λ entry. entry ≡ Look user.now group.now order base) }
{
    Ok(Entry::Look {
        user: user.copy(alloc)?,
        group: group.copy(alloc)?,
        order,
        base,
    })
}

/// A retirement.
pub fn retirement(alloc: Global, group: &Id) -> Result<Entry, Memory>
    ensures { IfOk result (λ entry. entry ≡ Retire group.now) }
{
    Ok(Entry::Retire {
        group: group.copy(alloc)?,
    })
}
