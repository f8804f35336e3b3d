//! Imports of todos from CSV.
//!
//! An import is a CSV file of todos, each of whose records is one mutation, of a client of the import's own ([`import_client`]).
//! [`import`] takes the turns of these mutations, so that the same file acts once however often it is imported. What bytes ask for
//! is defined in `specs/Imports.antt`, and the turns and the end of an import in `specs/Importing.antt`.
#![tactic(auto)]

mod import_calls;
mod import_end;
mod import_records;
mod importing;
pub mod laws;
mod taking;

pub use import_end::{ImportCounts, ImportEnd};
pub use importing::{ImportName, import_client, import_group, import_todo};
pub use taking::import;
