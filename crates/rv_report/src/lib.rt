//! What an operator asks of a store: which lists it has, who did how much, what a user sees, and whether it is sound.
//!
//! [`lists_text`] and [`export_text`] are texts of rows, and [`activity_text`] is one of a book; [`check`] opens a store as a server does,
//! and gives it back.
#![tactic(auto)]

mod activity;
mod check_answer;
mod checking;
mod counts;
mod exporting;
mod lists;
mod tallies;
mod tally;
mod texts;

pub use activity::activity_text;
pub use check_answer::CheckAnswer;
pub use checking::check;
pub use exporting::export_text;
pub use lists::lists_text;
