use crate::ending::Ending;

/// How a run of `serve` ends.
#[derive(Debug, Drop)]
pub enum ServeEnding {
    /// The connections were served, and the length of the book was written.
    Done,
    /// The account with this number, from 1, is not of the form; or, with 0, the accounts file as a whole.
    BadAccounts(u32),
    /// The account with this number, from 1, has the key of an earlier one.
    TwiceAccounts(u32),
    /// The accounts file could not be read, or the store did not open.
    NotOpened(Ending),
    /// Nothing could be listened to.
    Net,
    /// Memory was refused for what is listened to.
    Memory,
    /// A write of the book's length failed.
    Write,
}

impl ServeEnding {
    ghost use Rattle.std.specs.Prelude.{◌≡◌};
    ghost use Rattle.rv_cli.specs.Texts.{serve_status};

    /// The status of the process.
    pub fn status(&self) -> u8
        ensures { result ≡ serve_status self.now }
    {
        match self {
            ServeEnding::Done => 0,
            ServeEnding::BadAccounts(_) => 3,
            ServeEnding::TwiceAccounts(_) => 3,
            ServeEnding::NotOpened(ending) => ending.status(),
            ServeEnding::Net => 9,
            ServeEnding::Memory => 8,
            ServeEnding::Write => 7,
        }
    }
}
