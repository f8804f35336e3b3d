//! A standby: a book that follows another's, and answers pulls of it.
//!
//! A [`Standby`] takes the cells of the book that it follows: those of its opening page at once, and then those of its entries one after
//! another. It takes nothing else for granted: a cell whose entry may not come next is refused, and then the book stays as it was. So its
//! book is always a front of the one that it follows. A pull that it answers enters nothing. [`ship`] writes the cells that it takes, a
//! line each.
#![tactic(auto)]

mod following;
pub mod laws;
mod pulling;
mod shipping;
mod standby;
mod take_fault;

pub use shipping::ship;
pub use standby::Standby;
pub use take_fault::TakeFault;
