use rv_rows::Rows;

/// The rows of a view, in the order of their keys. The key of each is [`Row::key`](rv_rows::Row::key).
pub type View = Rows;
