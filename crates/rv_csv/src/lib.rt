//! Views as CSV.
//!
//! [`view_text`] writes rows in the order of their keys as `csv`'s writer writes records, and [`read_view`] takes exactly the
//! bytes that `csv`'s reader reads as such records. What the records of bytes are ([`Records`]), and what the text of a view is, is
//! defined in `specs/`.
#![tactic(auto)]

mod errors;
mod records;
mod row_reading;
mod texts;
mod view;
mod view_fault;
mod view_reading;
mod view_writing;

pub use records::Records;
pub use view::View;
pub use view_fault::ViewFault;
pub use view_reading::read_view;
pub use view_writing::view_text;
