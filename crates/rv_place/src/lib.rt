//! The stores of a run: memory, and the files of the file system.
//!
//! What keeps a store is a [`StoreKeeper`]: memory, which tells what it holds, or a SQLite database, which tells it where its keeper does.
//! [`RunPlace`] gives the keeper of the one store that a run opens, and takes it back; an [`Opener`] opens it. The machine's is
//! [`FileOpener`]. Its type parameter stands for what the store's file and its log held, which no code reads: what is proved of a run is
//! proved for all that they may have held.
#![tactic(auto)]

mod file_opener;
mod opened;
mod opener;
mod run_place;
mod store_keeper;

pub use file_opener::{FileOpener, HostPlace, close_store, end_run};
pub use opened::Opened;
pub use opener::Opener;
pub use run_place::RunPlace;
pub use sqlite::{Start, Unknown};
pub use store_keeper::StoreKeeper;
