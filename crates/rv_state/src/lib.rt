//! The state of one server: a book of entries, the tables and view records that are its replay, and its users' marks.
//!
//! An entry comes into a [`State`] in two steps: it is prepared, which takes memory, and then entered, which can't fail.
//! [`may_stand`] tells whether an entry may come next, and [`State::enter_cell`] enters one that is kept as a cell. A state also opens with the page of a book, and goes on from the page that sums it up.
#![tactic(auto)]

mod closing;
mod entering;
mod known;
mod lawful;
mod marks;
mod prepared;
mod state;

pub use lawful::may_stand;
pub use prepared::{Prepared, PreparedAct, PreparedLook};
pub use state::State;
