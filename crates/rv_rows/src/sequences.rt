// Rows, keys, ids, users and clients one after another, which contracts see as lists.
use crate::key::Key;
use crate::row::Row;
use rv_base::{Id, Num, Sequence, User};

/// Rows one after another.
pub type Rows = Sequence<Row>;

/// Keys one after another.
pub type Keys = Sequence<Key>;

/// Ids one after another.
pub type Ids = Sequence<Id>;

/// Users one after another.
pub type Users = Sequence<User>;

/// Keys, each with the version of its row.
pub type Visible = Sequence<(Key, u32)>;

/// Clients of a group, each with its last mutation id.
pub type Clients = Sequence<(Id, Num)>;
