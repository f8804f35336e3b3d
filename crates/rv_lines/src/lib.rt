//! The lines of a source, one at a time: what a line is, and a reader that gives each as soon as it is there.
//!
//! A line ends at LF or with the input; the nothing after a last LF is no line. [`LineReader`] reads no further than it
//! must: nothing while it holds a whole line, and nothing after the end.
#![tactic(auto)]

mod line_reader;
mod next;

pub use line_reader::LineReader;
pub use next::Next;
