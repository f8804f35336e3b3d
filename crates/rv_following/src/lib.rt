//! The lines that a standby takes: from the bytes of a line to what a follower makes of it.
//!
//! A [`FollowLine`] has a cell of the book that is followed, says that its page is whole, or pulls. A [`Follower`] takes such lines one after
//! another: it gathers the cells of the page up to the line that says that it is whole, then enters the entries, and answers the pulls between.
#![tactic(auto)]

mod follow_line;
mod follower;
pub mod laws;
mod reading;

pub use follow_line::{FollowLine, ParsedPull};
pub use follower::Follower;
pub use reading::follow_line_of;
