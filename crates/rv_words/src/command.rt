use crate::name::Name;
use crate::serve_options::ServeOptions;
use rv_base::{Bounded, Id, User};

/// The name of an import: 1 to 48 bytes. None of them is a `/` where words ask for it.
pub type ImportName = Bounded<1, 48>;

/// What the words of a command line ask for.
#[derive(Debug, Drop)]
pub enum Command {
    /// `feed STORE`: answer the request lines of the input.
    Feed {
        /// The name of the store.
        store: Name,
    },
    /// `retire STORE GROUP`: end a client group.
    Retire {
        /// The name of the store.
        store: Name,
        /// The name of the group.
        group: Id,
    },
    /// `lists STORE`: tell the lists, with how much is in them.
    Lists {
        /// The name of the store.
        store: Name,
    },
    /// `activity STORE`: tell who did how much.
    Activity {
        /// The name of the store.
        store: Name,
    },
    /// `check STORE`: tell whether the store is sound.
    Check {
        /// The name of the store.
        store: Name,
    },
    /// `make SEED N`: take the first requests that a seed makes, over a fresh store in memory.
    Make {
        /// The seed, from 0 to 2,147,483,647.
        seed: u32,
        /// How many requests, from 0 to 1,000,000.
        requests: u32,
    },
    /// `import STORE USER NAME`: take todos as CSV, for a user.
    Import {
        /// The name of the store.
        store: Name,
        /// The name of the user.
        user: User,
        /// The name of the import. It has no `/`.
        name: ImportName,
    },
    /// `export STORE USER`: tell as CSV what a user sees.
    Export {
        /// The name of the store.
        store: Name,
        /// The name of the user.
        user: User,
    },
    /// `serve STORE` and options: answer the requests of connections.
    Serve {
        /// The name of the store.
        store: Name,
        /// How they are served.
        options: ServeOptions,
    },
    /// `close-book STORE`: close the book of the store: what its entries have left becomes one opening page, and they go.
    CloseBook {
        /// The name of the store.
        store: Name,
    },
    /// `ship STORE`: tell the book of the store as lines, which a standby takes.
    Ship {
        /// The name of the store.
        store: Name,
    },
    /// `follow --port PORT`: answer pulls from the book that the lines of one connection tell.
    Follow {
        /// The port at which the connection is accepted, from 1 to 65,535.
        port: u16,
    },
}
