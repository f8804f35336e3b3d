//! The book: what was entered, entry by entry, and what is looked up in it.
//!
//! Contracts see the book and how long it may be at most. The definitions of what is looked up are in `specs/`, on books, those
//! that recur on lists of entries. The indexes that answer without a walk of the book are in no contract.
#![tactic(auto)]

mod book;
mod clients;
mod entry;
mod fault;
mod found;
mod group_clients;
mod groups;
mod log;
mod look;
mod members;
mod page;

pub use book::{BOOK_LIMIT, Book};
pub use clients::ClientRef;
pub use entry::Entry;
pub use fault::BookFault;
pub use found::Found;
pub use group_clients::GroupClients;
pub use groups::{GroupInfo, GroupRef};
pub use look::{KEPT_LOOKS, LookRef};
pub use page::Page;
