//! From the bytes of a line to its answer, with the turns between. Nothing here reads or writes: lines and the bodies of HTTP
//! go by the same calls.
//!
//! A [`Line`] asks a [`Request`], or the first thing that is wrong with its body; or it is a stop. Turns are taken by anything that
//! implements [`rv_turns::Turns`]; what closes the book is asked only of who closes it.
#![tactic(auto)]

mod answer;
mod answering;
mod asking;
mod line;
mod request;

pub use answer::{Answer, Answered};
pub use answering::{close_book, retire_group, run_pull, run_push, serve_asked, serve_request};
pub use asking::{FeedSchemas, Parsed, line_of, one_member, two_members};
pub use line::Line;
pub use request::Request;
