// The shelves of a book's cells.
ghost use Rattle.std.specs.Prelude.{◌≡◌};
ghost use Rattle.rv_keeper.specs.ShelfNumbers.{shelf_number};

/// A shelf on which cells of a book stand. A cell has the number of its shelf, since what is kept may be on any.
#[derive(Debug, Clone, Copy)]
pub enum Shelf {
    /// The entries.
    Entries,
    /// The rows, as they are after the last entry.
    Rows,
    /// The clients, each with its group and its last mutation id.
    Clients,
    /// The groups, each with its user and the order of its last look.
    Groups,
    /// The view records of the looks that are kept.
    Views,
    /// The place of the page that the book opens with.
    Page,
    /// The rows of that page.
    PageRows,
    /// The clients of that page.
    PageClients,
    /// The groups of that page.
    PageGroups,
}

impl Shelf {
    /// The number of the shelf, from 1 to 9.
    pub fn number(self) -> u8
        ensures { result ≡ shelf_number self }
    {
        match self {
            Shelf::Entries => 1,
            Shelf::Rows => 2,
            Shelf::Clients => 3,
            Shelf::Groups => 4,
            Shelf::Views => 5,
            Shelf::Page => 6,
            Shelf::PageRows => 7,
            Shelf::PageClients => 8,
            Shelf::PageGroups => 9,
        }
    }
}
