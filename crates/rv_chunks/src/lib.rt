//! Items in an order of one's own, in chunks of a few, so that one that comes or goes moves at most a chunk, and not
//! all that stand after it.
//!
//! A contract sees [`Chunks`] as the list of its chunks, each the list of its items, and how many more can be inserted
//! without memory. It sees a [`Walk`] as the list of the items that are left.
#![tactic(auto)]

mod at;
mod chunks;
mod edits;
mod search;

pub use at::At;
pub use chunks::{Chunks, Walk};
pub use search::Compare;
