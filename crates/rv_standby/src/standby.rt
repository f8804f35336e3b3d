ghost use Rattle.std.specs.Prelude.{◌≡◌};
ghost use Rattle.rv_book.specs.Book.{empty_book, size};

use rv_book::Book;
use rv_state::State;
use std::alloc::Global;
use std::marker::Model;

/// A book that follows another's, with its replay.
#[derive(Debug, Drop)]
pub struct Standby {
    pub(crate) state: State,
    pub(crate) alloc: Global,
}

impl Model for Standby {
    ghost use Rattle.rv_standby.specs.Following.{Followed};

    ghost Value = { Followed };

    ghost view = { λ s. record { book = s.state.book; limit = s.state.limit } };
}

impl Standby {
    ghost use Rattle.rv_store.specs.Opening.{IsSoundBook};

    /// The standby whose book is empty, and may grow to this length.
    pub fn new(alloc: Global, limit: u32) -> Standby
        ensures book { result.book ≡ empty_book }
        ensures limit { result.limit ≡ limit }
    {
        Standby {
            state: State::new(alloc, limit),
            alloc,
        }
    }

    /// The book. Takes no memory.
    pub fn book(&self) -> &Book
        ensures book { result.now.book ≡ self.now.book }
        ensures limit { result.now.limit ≡ self.now.limit }
        ensures sound { IsSoundBook self.now.limit self.now.book }
    {
        self.state.book()
    }

    /// How long the book is: the place of its last entry, or of its page. Takes no memory.
    pub fn length(&self) -> u32
        ensures { result ≡ size self.now.book }
    {
        self.state.book().len()
    }
}
