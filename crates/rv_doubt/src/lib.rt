//! A step that may have been made: [`keep`] commits the changes of cells that what is prepared makes, and enters it, or leaves it in
//! doubt where the keeper failed; [`settle`] asks the keeper whether what is in doubt was kept, and enters or drops it.
//!
//! Both stand on a state, on what is in doubt, and on a keeper that holds, where it tells, just the cells of the state's book, or of that
//! book with what is in doubt.
#![tactic(auto)]

mod doubt;
mod keeping;

pub use keeping::{keep, settle};
