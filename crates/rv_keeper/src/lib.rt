//! What is kept outside the desk: cells and a generation.
//!
//! A [`Keeper`] holds cells, each with its shelf, its key and its body, in the order of shelves and then of keys, and a
//! generation. A commit changes the cells and raises the generation in one step. A keeper counts its faults, and a call
//! says that it failed only where that count rose. [`MemoryKeeper`] keeps all in memory, tells what it holds, and fails
//! at the calls of a schedule. A [`Place`] gives the keepers of stores by their names, takes them back, and reads accounts
//! files.
#![tactic(auto)]

mod cell;
mod change;
mod changing;
mod keeper;
mod loaded;
mod memory_keeper;
mod place;
mod shelf;
mod shelves;

pub use cell::{Cell, copy_bytes};
pub use change::Change;
pub use keeper::Keeper;
pub use loaded::{Cells, Loaded};
pub use memory_keeper::{Fails, MemoryKeeper, Schedule};
pub use place::Place;
pub use shelf::Shelf;
pub use shelves::Shelves;
