ghost use Rattle.std.specs.Prelude.{◌≡◌};
ghost use Rattle.rv_book.specs.Book.{no_page};

use rv_base::{Id, Num, Sequence, User};
use rv_rows::Row;
use std::alloc::Global;

/// The opening page of a book that was closed: all that its entries up to a place have left, without these entries.
#[derive(Debug, Drop)]
pub struct Page {
    /// The place at which the book was closed; 0 where there is no page.
    pub at: u32,
    /// The rows, in the order of their keys, each with the place of its last write.
    pub rows: Sequence<(Row, u32)>,
    /// The clients in the order of their bytes, each with its group and its last mutation id.
    pub clients: Sequence<(Id, Id, Num)>,
    /// The groups in the order of their bytes, each with the user whom it is bound to, the order of its last look (0 where it has none), and
    /// whether it is retired.
    pub groups: Sequence<(Id, User, Num, bool)>,
}

impl Page {
    // No page.
    pub(crate) fn none(alloc: Global) -> Page
        ensures { result ≡ no_page }
    {
        Page {
            at: 0,
            rows: Sequence::new(alloc),
            clients: Sequence::new(alloc),
            groups: Sequence::new(alloc),
        }
    }
}
