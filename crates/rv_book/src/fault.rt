ghost use Rattle.std.specs.Prelude.{◌≡◌};
ghost use Rattle.rv_book.specs.declared.fault.BookFault.TheVariants as BookFault;

use std::alloc::AllocError;
use thiserror::Error;

/// Why no space for one more entry was made.
#[derive(Clone, Copy, Debug, PartialEq, Eq, Error)]
pub enum BookFault {
    /// The book is as long as it may be.
    #[error("the book is full")]
    Full,
    /// Memory was refused.
    #[error("out of memory")]
    Memory,
}

impl From<AllocError> for BookFault {
    ghost from_gives = { λ _ fault. fault ≡ BookFault.Memory };

    fn from(_error: AllocError) -> BookFault {
        BookFault::Memory
    }
}
