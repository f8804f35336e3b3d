ghost use Rattle.std.specs.Prelude.{◌≡◌, IfOk};

use rv_base::{Memory, Num, Text};
use std::alloc::Global;

/// Where a client stands. Cookies are ordered by their `order`.
#[derive(Debug, Drop)]
pub enum Cookie {
    /// Nowhere yet.
    Null,
    /// At a number, which names no view record.
    Bare(Num),
    /// At a view record: the member `cvrID` spells the place of the record's look in the book.
    Named {
        /// The member `cvrID`.
        place_text: Text,
        /// The member `order`.
        order: Num,
    },
}

impl Cookie {
    /// The same cookie, which shares its text.
    pub fn copy(&self, alloc: Global) -> Result<Cookie, Memory>
        ensures { IfOk result (λ cookie. cookie ≡ self.now) }
    {
        match self {
            Cookie::Null => Ok(Cookie::Null),
            Cookie::Bare(order) => Ok(Cookie::Bare(*order)),
            Cookie::Named { place_text, order } => Ok(Cookie::Named {
                place_text: place_text.copy(alloc)?,
                order: *order,
            }),
        }
    }
}
