//! Views of client groups, and what changes between two of them.
//!
//! A [`ViewRecord`] is what a group was shown by a pull: the keys that its user saw, each with the version of its row, and
//! the group's clients with their last mutation ids. [`difference`] gives what a later pull has to tell. Rows themselves are
//! not here: a version changes with each write of a row, so two versions that are equal mean a row that is the same (the
//! Row Version Strategy of Replicache's guide, with client view records).
#![tactic(auto)]

mod cookie;
mod diff;
mod record;
mod walks;

pub use cookie::Cookie;
pub use diff::Diff;
pub use record::{ViewRecord, record_now};
pub use walks::difference;
