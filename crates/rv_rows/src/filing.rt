/// What an order of rows goes by before their keys.
#[derive(Clone, Copy, Debug, PartialEq, Eq)]
pub(crate) enum Filing {
    /// The list that a row is or belongs to; an extent has none.
    List,
    /// The user whom a row names: an extent its user, a list its owner, a share the user that it is shared with; a todo names none.
    User,
    /// The list that a row is or belongs to, and within it the sort, from the greatest down; any other row than a todo has sort 0.
    Sort,
}
