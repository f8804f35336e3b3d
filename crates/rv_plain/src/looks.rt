ghost use Rattle.std.specs.Prelude.{◌≡◌, ◌==◌, ◌&&◌, false, count_by, find, decimal, option_map};
ghost use Rattle.std.specs.List.{range_with_len};
ghost use Rattle.std.specs.Option.{option_map_or};
ghost use Rattle.std.specs.Str.{bytes_eq};
ghost use Rattle.rv_book.specs.Book.{entry_at, since, size};
ghost use Rattle.rv_book.specs.Kept.{is_look_of, kept, look_at};
ghost use Rattle.rv_history.specs.Bases.{base_of, names_base};

use crate::book::retired;
use crate::plain_book::PlainBook;
use itoa::Buffer;
use rv_base::{Id, Num, User};
use rv_book::{Entry, KEPT_LOOKS, LookRef};
use rv_views::Cookie;

// The entry at a place, from 1.
fn entry_at(book: &PlainBook, place: u32) -> Option<&Entry>
    ensures { option_map (λ entry. entry.now) result ≡ entry_at place book.now }
{
    let page = book.page().at;
    if place <= page {
        return None;
    }
    book.entries().get((place - page) as usize - 1)
}

/// The look at a place.
pub(crate) fn look_at(book: &PlainBook, place: u32) -> Option<LookRef<'_>>
    ensures { option_map (λ look. (look.user.now, look.group.now, look.order)) result ≡ look_at place book.now }
{
    match entry_at(book, place)? {
        Entry::Act { .. } => None,
        Entry::Look {
            user,
            group,
            order,
            ..
        } => Some(LookRef {
            user,
            group,
            order: *order,
        }),
        Entry::Retire { .. } => None,
    }
}

fn is_look_of(entry: &Entry, group: &Id) -> bool
    ensures { result ≡ is_look_of group.now entry.now }
{
    match entry {
        Entry::Act { .. } => false,
        Entry::Look { group: other, .. } => other == group,
        Entry::Retire { .. } => false,
    }
}

// How many looks of a group stand after a place.
fn later_looks(book: &PlainBook, group: &Id, place: u32) -> usize
    ensures { result ≡ count_by (is_look_of group.now) (since place book.now) }
{
    book.since(place)
        .iter()
        .filter(|entry| is_look_of(entry, group))
        .count()
}

// Whether the look at a place is kept: its group is not retired, and fewer than [`KEPT_LOOKS`] later looks of its group
// stand in the book.
#[tactic(auto, unfolding(rv_book::specs::Kept::kept))]
fn kept(book: &PlainBook, place: u32) -> bool
    ensures { result ≡ kept place book.now }
{
    match look_at(book, place) {
        Some(look) => {
            !retired(book, look.group) && later_looks(book, look.group, place) < KEPT_LOOKS as usize
        }
        None => false,
    }
}

fn spells(text: &str, place: u32) -> bool
    ensures { result ≡ bytes_eq (decimal place) text.now }
{
    Buffer::new().format(place) == text
}

// Whether the look at a place is by this user and of this order.
fn is_by(book: &PlainBook, user: &User, order: Num, place: u32) -> bool
    ensures { result ≡ option_map_or (λ look. bytes_eq look.0 user.now && (look.2 == order)) (look_at place book.now) false }
{
    match look_at(book, place) {
        Some(look) => look.user == user && look.order == order,
        None => false,
    }
}

// Whether a text spells the place in decimal, and the look there is kept, by this user and of this order.
#[tactic(auto, unfolding(rv_history::specs::Bases::names_base))]
fn names_base(book: &PlainBook, user: &User, text: &str, order: Num, place: u32) -> bool
    ensures { result ≡ names_base user.now text.now order book.now place }
{
    spells(text, place) && kept(book, place) && is_by(book, user, order, place)
}

// The base that a place's text and an order name.
fn named(book: &PlainBook, user: &User, text: &str, order: Num) -> Option<u32>
    ensures { result ≡ find (names_base user.now text.now order book.now) (range_with_len 1 (size book.now)) }
{
    for index in 0..book.len() {
        if names_base(book, user, text, order, index + 1) {
            return Some(index + 1);
        }
    }
    None
}

/// The place of the kept look that a cookie names, where it names one.
pub(crate) fn base_of(book: &PlainBook, user: &User, cookie: &Cookie) -> Option<u32>
    ensures { result ≡ base_of user.now cookie.now book.now }
{
    match cookie {
        Cookie::Null => None,
        Cookie::Bare(_) => None,
        Cookie::Named { place_text, order } => named(book, user, place_text.as_str(), *order),
    }
}
