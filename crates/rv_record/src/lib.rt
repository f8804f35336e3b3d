//! The cells that a book is kept as: one for each entry, each row with its version, each client, each group and each kept
//! view record; and of a page that the book opens with one for the page, each of its rows, clients and groups.
//!
//! The writers, `cell_of_entry` and its kin, give each the shelf, the key and the body that `specs/CellTexts.antt` defines.
//! A body is the compact text of a JSON value. The readers, `entry_of_cell` and its kin, take exactly these cells.
#![tactic(auto)]

mod call_reading;
mod cells;
mod client_reading;
mod entry_reading;
mod fault;
mod fitting;
mod opening;
mod page_checking;
mod page_read;
mod page_reading;
mod row_reading;
mod value_reading;
mod view_reading;
mod view_writing;
mod writing;

pub use cells::{
    cell_of_act, cell_of_client, cell_of_entry, cell_of_group, cell_of_look, cell_of_page,
    cell_of_page_client, cell_of_page_group, cell_of_page_row, cell_of_retirement, cell_of_row,
    cell_of_view, ten_digits,
};
pub use client_reading::{client_of_cell, group_of_cell, page_client_of_cell, page_group_of_cell};
pub use entry_reading::entry_of_cell;
pub use fault::{CellFault, Damage, damaged};
pub use fitting::{
    act_fits, client_fits, entry_fits, group_fits, id_fits, look_fits, place_fits, row_fits,
    texts_fit,
};
pub use opening::read_page;
pub use page_read::PageRead;
pub use page_reading::page_of_cell;
pub use row_reading::{page_row_of_cell, row_of_cell};
pub use view_reading::view_of_cell;
