// Whether an entry may stand next in a book.
ghost use Rattle.std.specs.Prelude.{◌≡◌, ◌<◌, ◌+◌, ◌^◌, ◌↔◌, false, Some, IsTrue, IsSome};
ghost use Rattle.rv_book.specs.Book.{bound, last, last_order, retired};
ghost use Rattle.rv_history.specs.Groups.{Admits, is_elsewhere};
ghost use Rattle.rv_history.specs.Lawful.{IsBase, IsLawfulAfter};

use rv_base::{Id, Num, User};
use rv_book::{Book, Entry};
use rv_history::{Admission, Numbering, admits, numbering_of};

// Whether the user may use the group.
fn is_open(book: &Book, user: &User, group: &Id) -> bool
    ensures { IsTrue result ↔ Admits user.now group.now book.now.book }
{
    match admits(book, user, group) {
        Admission::Open { .. } => true,
        Admission::OfOther => false,
        Admission::Retired => false,
    }
}

// Whether the id is the next of a client that is of no other group.
fn is_next(book: &Book, client: &Id, group: &Id, id: Num) -> bool
    ensures { IsTrue result ↔ ((is_elsewhere client.now group.now book.now.book ≡ false) × (id ≡ last client.now book.now.book + 1)) }
{
    match numbering_of(book, client, group, id) {
        Numbering::Next { .. } => true,
        Numbering::Elsewhere => false,
        Numbering::Past { .. } => false,
        Numbering::Future { .. } => false,
    }
}

// Whether the place is that of a kept look by the user, with an order below this one.
fn is_base_at(book: &Book, user: &User, order: Num, place: u32) -> bool
    ensures { IsTrue result ↔ IsBase book.now.book user.now order (Some place) }
{
    if !book.kept(place) {
        return false;
    }
    match book.look(place) {
        Some(look) => *look.user == *user && look.order < order,
        None => false,
    }
}

fn is_base(book: &Book, user: &User, order: Num, base: Option<u32>) -> bool
    ensures { IsTrue result ↔ IsBase book.now.book user.now order base }
{
    match base {
        Some(place) => is_base_at(book, user, order, place),
        None => true,
    }
}

// Whether the order is above the group's last. A number's type says that it is at most 2^53 - 1.
fn is_above(book: &Book, group: &Id, order: Num) -> bool
    ensures { IsTrue result ↔ ((last_order group.now book.now.book < order) × (order < 2 ^ 53)) }
{
    book.last_order(group).get() < order.get()
}

// Whether an act or a look names the group, and it is not retired.
fn may_retire(book: &Book, group: &Id) -> bool
    ensures { IsTrue result ↔ (IsSome (bound group.now book.now.book) × (retired group.now book.now.book ≡ false)) }
{
    book.bound(group).is_some() && !book.retired(group)
}

// Whether an act may come next.
fn may_act(book: &Book, user: &User, group: &Id, client: &Id, id: Num) -> bool
    ensures { IsTrue result ↔ (Admits user.now group.now book.now.book × (is_elsewhere client.now group.now book.now.book ≡ false) × (id ≡ last client.now book.now.book + 1)) }
{
    if !is_open(book, user, group) {
        return false;
    }
    is_next(book, client, group, id)
}

// Whether the order may come next in the group, and the base be that of its look.
fn may_follow(book: &Book, user: &User, group: &Id, order: Num, base: Option<u32>) -> bool
    ensures { IsTrue result ↔ ((last_order group.now book.now.book < order) × (order < 2 ^ 53) × IsBase book.now.book user.now order base) }
{
    if !is_above(book, group, order) {
        return false;
    }
    is_base(book, user, order, base)
}

// Whether a look may come next.
fn may_look(book: &Book, user: &User, group: &Id, order: Num, base: Option<u32>) -> bool
    ensures { IsTrue result ↔ (Admits user.now group.now book.now.book × (last_order group.now book.now.book < order) × (order < 2 ^ 53) × IsBase book.now.book user.now order base) }
{
    if !is_open(book, user, group) {
        return false;
    }
    may_follow(book, user, group, order, base)
}

/// Whether the entry may stand after those of the book. Takes no memory.
pub fn may_stand(book: &Book, entry: &Entry) -> bool
    ensures { IsTrue result ↔ IsLawfulAfter book.now.book entry.now }
{
    match entry {
        Entry::Act {
            user,
            group,
            client,
            id,
            ..
        } => may_act(book, user, group, client, *id),
        Entry::Look {
            user,
            group,
            order,
            base,
        } => may_look(book, user, group, *order, *base),
        Entry::Retire { group } => may_retire(book, group),
    }
}
