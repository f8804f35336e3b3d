use rv_book::{Entry, Page};
use rv_desk::Desk;
use rv_keeper::Keeper;
use std::collections::LinkedList;
use std::marker::Model;

/// A book, its page and its entries, as a seat knows it. It stands in proofs alone: no value of it is made.
pub struct History {
    page: Page,
    entries: LinkedList<Entry>,
}

impl Model for History {
    ghost use Rattle.rv_book.specs.Book.{Book, book_from};

    ghost Value = { Book };

    ghost view = { λ history. book_from history.page history.entries };
}

/// What is in doubt, an entry or the book that closing leaves, as a seat knows it. It stands in proofs alone: no value of it is made.
pub struct InDoubt {
    entry: Option<Entry>,
    closed: History,
}

impl Model for InDoubt {
    ghost use Rattle.std.specs.Option.{option_map_or};
    ghost use Rattle.rv_history.specs.Served.{Next};

    ghost Value = { Next };

    ghost view = { λ next. option_map_or (λ e. Next.entry e) next.entry (Next.closed next.closed) };
}

/// What a seat knows. It stands in proofs alone: no value of it is made.
pub struct SeatView<K: Keeper> {
    /// How many seats it stands for.
    pub parts: u64,
    /// 1 while it waits for a turn or has one.
    pub waits: u64,
    /// 1 while it has the turn.
    pub turns: u64,
    /// The number of the turn that it waits for or has.
    pub ticket: u64,
    /// The desk as the room was opened. A view that stands for no seat has none.
    pub opened: Option<Desk<K>>,
    /// While it has the turn, the history.
    pub book: History,
    /// While it has the turn, what is in doubt.
    pub doubt: Option<InDoubt>,
    /// While it has the turn, the keeper.
    pub keeper: Option<K>,
    /// The history as its last turn ended.
    pub seen: History,
    /// The entries that its turns entered, each with the number of entries before it.
    pub own: LinkedList<(u64, Entry)>,
    /// Those of them that had been in doubt.
    pub settled: LinkedList<Entry>,
    /// What its turns left in doubt.
    pub left: LinkedList<InDoubt>,
    /// The length of the history as each of its turns ended.
    pub ends: LinkedList<u64>,
    /// How often the keeper had failed as each of its turns began.
    pub before: LinkedList<u64>,
    /// The keeper as each of its turns ended.
    pub after: LinkedList<K>,
    /// What the seats that it was joined from had seen.
    pub joined: LinkedList<History>,
}
