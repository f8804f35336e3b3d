ghost use Rattle.std.specs.Prelude.{◌≡◌, IfOk, option_map};
ghost use Rattle.rv_book.specs.Indexes.{named_in, user_of};

use rv_base::{Id, Memory, Num, User};
use rv_rows::Call;
use std::alloc::Global;

/// An entry of the book. Its place is one more than that of the entry before it, or of the page; the first without a page is at 1.
#[derive(Debug, Drop)]
pub enum Entry {
    /// A mutation was run.
    Act {
        /// Who sent it.
        user: User,
        /// The client group.
        group: Id,
        /// The client.
        client: Id,
        /// The mutation's id.
        id: Num,
        /// What it asked for.
        call: Call,
    },
    /// A pull was answered.
    Look {
        /// Who sent it.
        user: User,
        /// The client group.
        group: Id,
        /// The order of the answered cookie.
        order: Num,
        /// The place of the look that the patch was made from.
        base: Option<u32>,
    },
    /// A client group was retired.
    Retire {
        /// The client group.
        group: Id,
    },
}

impl Entry {
    /// The same entry, which shares its texts.
    pub fn copy(&self, alloc: Global) -> Result<Entry, Memory>
        ensures { IfOk result (λ copy. copy ≡ self.now) }
    {
        match self {
            Entry::Act {
                user,
                group,
                client,
                id,
                call,
            } => Ok(Entry::Act {
                user: user.copy(alloc)?,
                group: group.copy(alloc)?,
                client: client.copy(alloc)?,
                id: *id,
                call: call.copy(alloc)?,
            }),
            Entry::Look {
                user,
                group,
                order,
                base,
            } => Ok(Entry::Look {
                user: user.copy(alloc)?,
                group: group.copy(alloc)?,
                order: *order,
                base: *base,
            }),
            Entry::Retire { group } => Ok(Entry::Retire {
                group: group.copy(alloc)?,
            }),
        }
    }
}

// The group that an entry names.
pub(crate) fn named(entry: &Entry) -> &Id
    ensures { result.now ≡ named_in entry.now }
{
    match entry {
        Entry::Act { group, .. } => group,
        Entry::Look { group, .. } => group,
        Entry::Retire { group } => group,
    }
}

// The user of an act or a look.
pub(crate) fn user_of(entry: &Entry) -> Option<&User>
    ensures { option_map (λ user. user.now) result ≡ user_of entry.now }
{
    match entry {
        Entry::Act { user, .. } => Some(user),
        Entry::Look { user, .. } => Some(user),
        Entry::Retire { .. } => None,
    }
}
