//! Cells and a generation in a table of a SQLite database.
//!
//! [`SqliteKeeper`] keeps them over any store of the crate `sqlite`: a file, or memory.
//!
//! Where nothing of the database it was adopted with had the table's name, or the server's table stood there, whatever stood beside it,
//! it tells what it holds, and what a crash may leave, for as long as the disk gives back what was written and the connection is open
//! and in no transaction. What is loaded, and the generation that is answered, are what it holds, and the call has committed it once
//! more. A commit makes its changes and writes the generation after `from`, or, where it is refused, leaves all as it was. A crash
//! leaves no third thing.
//!
//! Over any other database are proved safety, the order of what is loaded and the causes of each answer, and, where the disk gave back
//! what was written, that what is loaded is just the rows of the table's one `SELECT`, or nothing where there is no table of its name.
#![tactic(auto)]

mod connected;
mod exact;
mod in_memory;
pub mod laws;
mod loading;
mod number;
mod reading;
mod row_read;
mod sqlite_keeper;
mod statements;
mod table;
mod writing;

pub use in_memory::keeper_in_memory;
pub use sqlite_keeper::SqliteKeeper;
pub use writing::fault_of;
