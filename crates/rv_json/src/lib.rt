//! JSON texts whose values borrow from the text.
//!
//! [`read_json`] reads a text (RFC 8259) as `json`'s tree, over a scratch that is kept from one text to the next. Contracts see a tree as the
//! value that `serde_json` reads the text as: of the members of one name the last counts, and an object's members stand in the order
//! of their names' bytes. The other functions look into a tree, and say what they find of that value.
#![tactic(auto)]

mod lookup;
mod reading;

pub use lookup::{Members, flag, is_null, is_object, item, items, member, members, text, whole};
pub use reading::read_json;
