//! What the nine calls do to the tables.
//!
//! [`stage`] finds the rows that a call writes and the keys that it removes, and makes all the space that they need;
//! [`Staged::apply`] then writes and removes them, and can't fail. Together they are the effect of the call on the rows.
#![tactic(auto)]

mod extents;
mod lists;
mod shares;
mod staged;
mod staging;
mod todos;

pub use staged::{Staged, StagedRows};
pub use staging::stage;
