use rv_base::Num;

/// What is full.
#[derive(Clone, Copy, Debug, PartialEq, Eq)]
pub enum Which {
    /// The book of entries.
    Book,
    /// The orders of cookies.
    Order,
}

/// Why a turn could not be kept.
#[derive(Clone, Copy, Debug, PartialEq, Eq)]
pub enum Trouble {
    /// What keeps the book failed. What would have been entered, an entry or the closed book, may have been kept.
    Keeper,
    /// What is kept is at another generation than the book, or than the book with what may have been kept.
    Changed {
        /// How long the book is: the number of its entries, and where it opens with a page the page's place besides.
        kept: u64,
        /// The generation that was found.
        found: u64,
    },
}

/// Why a turn did not do what was asked. It leaves the book as it was.
#[derive(Clone, Copy, Debug, PartialEq, Eq)]
pub enum Refusal {
    /// The mutation's id is from the future.
    Future {
        /// The last mutation id of its client + 1.
        expected: Num,
        /// Its id.
        got: Num,
    },
    /// The client group is bound to another user.
    GroupOfOther,
    /// The client is of another group.
    ClientOfOther,
    /// The client group is retired.
    NotFound,
    /// No act and no look names the client group.
    NoGroup,
    /// The pull's cookie is of a later place than the book has: the book is this long, and follows another that is longer.
    Behind(u32),
    /// This is full, at this number.
    Limit(Which, Num),
    /// The turn could not be kept.
    Trouble(Trouble),
    /// Memory was refused.
    Memory,
}
