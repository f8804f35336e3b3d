ghost use Rattle.std.specs.Prelude.{◌≡◌};

/// Where the rows of a client group and of a client were found in a book, by which an act or a look of theirs is entered without a
/// search. Where other rows stand there by then, entering costs searches, and is the same: nothing has to be known of it.
#[derive(Clone, Copy, Debug)]
pub struct Found {
    /// The index of the group's row, and 0 where it has none.
    pub group: usize,
    /// The index of the client's row, and 0 where it has none, or where it was not looked for.
    pub client: usize,
}

impl Found {
    /// Nothing was looked up.
    pub fn nowhere() -> Found
        ensures { (result.group ≡ 0) × (result.client ≡ 0) }
    {
        Found {
            group: 0,
            client: 0,
        }
    }
}
