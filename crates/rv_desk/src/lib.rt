//! One sequential server over what keeps it: a [`Desk`] opens from the cells of a [`Keeper`](rv_keeper::Keeper), and each of
//! its turns is a step of the machine that `rv_history` defines over plain lists.
//!
//! A turn prepares what it enters, an entry or the closed book, commits the changes of cells that this makes, and enters it. Where
//! the keeper fails in that, it is in doubt: it may have been kept. The next turn asks the keeper first, and then drops or enters it.
#![tactic(auto)]

mod closing;
mod desk;
mod mutating;
mod open_fault;
mod pulling;
mod retiring;
mod stepping;

pub use desk::Desk;
pub use open_fault::OpenFault;
