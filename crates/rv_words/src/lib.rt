//! What the words of a command line ask for.
//!
//! The words are read by `clap`, whose contracts say exactly what a simple command takes: the table of the commands
//! stands in `specs/` as a value of `clap`'s own, and [`command_of`] gives what the words ask for by that table.
#![tactic(auto)]

mod command;
pub mod laws;
mod name;
mod number;
mod reading;
mod serve_options;
mod table;

pub use command::{Command, ImportName};
pub use name::Name;
pub use reading::command_of;
pub use serve_options::ServeOptions;
