//! The rows of the shared lists, their keys, the calls that change them, the sorted table of the rows that stand, and
//! each row as JSON.
//!
//! Contracts see rows, keys and calls as plain data. What speaks of lists of rows alone is defined in `specs/`: the key
//! of a row, who sees it, and the effect of a call.
#![tactic(auto)]

mod call;
mod filing;
mod indexed;
mod json_reading;
mod json_writing;
mod key;
mod lists;
mod positions;
mod role;
mod row;
mod row_json;
mod row_reading;
mod sequences;
mod tables;

pub use call::{Call, Reason};
pub use json_reading::{
    ids_of_value, lists_of_value, num_of_value, role_of_value, role_or_edit, text_of_value,
    text_within,
};
pub use json_writing::{
    write_bool_member, write_ids, write_num_member, write_row, write_text_member,
};
pub use key::{Key, Kind};
pub use lists::Lists;
pub use role::Role;
pub use row::{ExtentRow, ListRow, Row, ShareRow, TodoRow};
pub use row_json::row_value;
pub use row_reading::read_row;
pub use rv_chunks::At;
pub use sequences::{Clients, Ids, Keys, Rows, Users, Visible};
pub use tables::{RowsInOrder, Tables};
