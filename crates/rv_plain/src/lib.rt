//! The plain slow program: what the server keeps and answers, computed by the definitions as they stand. A book is walked,
//! and replayed from its page and its first entry, each time.
//!
//! The trial programs compare the server with it. No crate of the server stands on it.
#![tactic(auto)]

mod book;
mod closing;
mod copies;
mod history;
mod looks;
mod plain_book;
mod registers;
mod rows;
mod server;
mod sharing;

pub use book::{last, rows_of};
pub use plain_book::PlainBook;
pub use rows::seen;
pub use server::PlainDesk;
