//! Who sees which rows, and who may edit them.
//!
//! A user may see a list exactly where the list is there and the user owns it or a share of that list names the user, and
//! may edit the todos of a list that is the user's own or of which such a share has role edit. A user syncs a list exactly
//! where the user's extent names it, or where the user has none. A user sees each list that the user may see and syncs, with
//! its shares and its todos, and the user's extent. The calls here are these rules over [`Tables`](rv_rows::Tables).
#![tactic(auto)]

mod gathering;
mod lists;
mod viewers;
mod views;

pub use lists::{
    has_list, has_share, is_synced, list_to_edit, may_edit_list_of, may_see, owner_of, owns,
    owns_list_of,
};
pub use viewers::{add_if_synced, add_sharers, add_user, add_viewers, affected};
pub use views::{keys_of, rows_seen, visible};
