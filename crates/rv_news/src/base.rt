// The base of a pull: the kept look that its cookie names.
ghost use Rattle.std.specs.Prelude.{◌≡◌, ◌<◌, ◌^◌, ◌==◌, ◌&&◌, ℕ, false, find, decimal, IfSome, IfNone};
ghost use Rattle.std.specs.List.{range_with_len};
ghost use Rattle.std.specs.Option.{option_map_or};
ghost use Rattle.std.specs.Str.{bytes_eq};
ghost use Rattle.rv_book.specs.Kept.{kept, look_at};
ghost use Rattle.rv_book.specs.Book.{size};
ghost use Rattle.rv_history.specs.Bases.{base_of, names_base};

use itoa::Buffer;
use rv_base::{Num, User};
use rv_book::Book;
use rv_views::Cookie;

fn spells(text: &str, place: u32) -> bool
    ensures { result ≡ bytes_eq (decimal place) text.now }
{
    Buffer::new().format(place) == text
}

/// The place that a text spells in decimal without leading zeros, from 0 to 4,294,967,295, where it spells one.
pub fn place_of(text: &str) -> Option<u32>
    ensures found { IfSome result (λ place. text.now ≡ decimal place) }
    ensures none { IfNone result ((place : ℕ) → place < 2 ^ 32 → text.now ≡ decimal place → ⊥) }
{
    match text.parse::<u32>() {
        Ok(place) => {
            if spells(text, place) {
                Some(place)
            } else {
                None
            }
        }
        Err(_) => None,
    }
}

// Whether the look at a place is kept, by this user and of this order.
fn is_kept(book: &Book, user: &User, order: Num, place: u32) -> bool
    ensures { result ≡ (kept place book.now.book && option_map_or (λ look. bytes_eq look.0 user.now && (look.2 == order)) (look_at place book.now.book) false) }
{
    match book.look(place) {
        Some(look) => book.kept(place) && look.user == user && look.order == order,
        None => false,
    }
}

// The base that a place's text and an order name.
fn named(book: &Book, user: &User, text: &str, order: Num) -> Option<u32>
    ensures { result ≡ find (names_base user.now text.now order book.now.book) (range_with_len 1 (size book.now.book)) }
{
    // so that the book's length is known to be below 2^32, as a place is
    book.fits();
    let place = place_of(text)?;
    if is_kept(book, user, order, place) {
        Some(place)
    } else {
        None
    }
}

/// The place of the kept look that a cookie names, where it names one.
pub fn base_of(book: &Book, user: &User, cookie: &Cookie) -> Option<u32>
    ensures { result ≡ base_of user.now cookie.now book.now.book }
{
    match cookie {
        Cookie::Null => None,
        Cookie::Bare(_) => None,
        Cookie::Named { place_text, order } => named(book, user, place_text.as_str(), *order),
    }
}
