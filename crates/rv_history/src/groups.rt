// Who may use a client group, and where a client of it stands in its numbering: what the machine asks of the book before each
// step. Nothing here takes memory.
ghost use Rattle.std.specs.Prelude.{◌≡◌, not, false, option_map};
ghost use Rattle.std.specs.Option.{option_map_or};
ghost use Rattle.std.specs.Str.{bytes_eq};
ghost use Rattle.rv_history.specs.Admission.{FollowsAs, IsAdmission, IsNumbering};

use rv_base::{Id, Num, User};
use rv_book::Book;

/// Whether a user may use a client group.
#[derive(Clone, Copy, Debug, PartialEq, Eq)]
pub enum Admission {
    /// The group is bound to another user.
    OfOther,
    /// The group is retired.
    Retired,
    /// The group is the user's, or nobody's, and is not retired.
    Open {
        /// The index of the group's row in the book, at which a later look-up begins.
        at: usize,
    },
}

/// Where a mutation of a client of a group stands in the client's numbering. A client that has no mutation yet begins at 1.
#[derive(Clone, Copy, Debug, PartialEq, Eq)]
pub enum Numbering {
    /// The client is of another group.
    Elsewhere,
    /// The mutation's id is not above the client's last one: it was run before.
    Past {
        /// The client's last mutation id, 0 where it has none.
        last: Num,
    },
    /// The mutation is the client's next.
    Next {
        /// The index of the client's row in the book, at which a later look-up begins.
        at: usize,
    },
    /// The mutation's id is above the client's next one.
    Future {
        /// The client's next mutation id.
        expected: Num,
    },
}

// Whether somebody is there, and is not this user.
fn is_another(owner: Option<&User>, user: &User) -> bool
    ensures { result ≡ option_map_or (λ other. not (bytes_eq other user.now)) (option_map (λ o. o.now) owner.entry) false }
{
    match owner {
        Some(owner) => owner != user,
        None => false,
    }
}

/// Whether the user may use the group, by one search.
pub fn admits(book: &Book, user: &User, group: &Id) -> Admission
    ensures { IsAdmission user.now group.now book.now.book result }
{
    let told = book.group(group);
    if is_another(told.user, user) {
        return Admission::OfOther;
    }
    if told.retired {
        return Admission::Retired;
    }
    Admission::Open { at: told.at }
}

// Where an id stands after a client's last one.
fn after(last: Num, at: usize, id: Num) -> Numbering
    ensures { FollowsAs last id result }
{
    let next = last.get() + 1;
    if id.get() < next {
        return Numbering::Past { last };
    }
    if id.get() > next {
        return Numbering::Future {
            expected: Num::from_u64(next),
        };
    }
    Numbering::Next { at }
}

/// Where a mutation with this id stands in the numbering of a client of the group, by one search.
pub fn numbering_of(book: &Book, client: &Id, group: &Id, id: Num) -> Numbering
    ensures { IsNumbering client.now group.now id book.now.book result }
{
    match book.client(client) {
        Some(told) => {
            if told.group != group {
                return Numbering::Elsewhere;
            }
            after(told.last, told.at, id)
        }
        None => after(Num::from_u64(0), 0, id),
    }
}
