//! What a book of entries means: the rows that it leaves, what each user sees, what was written since a place, and the
//! machine, which says what a turn may be answered at a book and which book it leaves.
//!
//! The definitions are in `specs/`, over plain lists; [`laws`] has what follows from them for every book that the machine
//! makes. A step of the machine is one definition: a book, what is asked, what comes of it, and the next book.
//!
//! The calls are what each server asks before a step: whether the machine lets the user use the group, where the mutation stands in
//! its client's numbering, and which order comes next; and the entries that steps make.
#![tactic(auto)]

pub mod entries;
mod groups;
pub mod laws;
mod order;

pub use groups::{Admission, Numbering, admits, numbering_of};
pub use order::next_order;
