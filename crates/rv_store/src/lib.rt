//! How a book is kept: which cells it has, which of them each entry changes, and what opens from them.
//!
//! A book is kept as one cell for each entry, and for each row, client, group and kept view record that follow from its page
//! and its entries; and those of the page, where it opens with one. [`changes_for`] gives the changes that what is entered makes of
//! these cells, an entry or the closed book. [`restore`] reads the page and the entries again, makes all that
//! follows from them anew, and takes nothing else for granted: where what is kept is not just that, it tells the first place
//! that is wrong.
#![tactic(auto)]

mod changes;
mod closing;
mod comparing;
mod entering;
mod restoring;
mod view_changes;

pub use changes::changes_for;
pub use restoring::restore;
