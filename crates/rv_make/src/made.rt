use rv_base::{Num, Sequence, User};
use rv_rows::Call;

/// A request that was made.
#[derive(Debug, Drop)]
pub enum MadeRequest {
    /// The user's client pushes one mutation.
    Push {
        /// The user.
        user: User,
        /// The mutation's number.
        id: Num,
        /// What it asks for.
        call: Call,
    },
    /// The user pulls for its group, with the cookie that was answered to it last.
    PullLast(User),
    /// The user pulls for its group, with no cookie.
    PullNull(User),
}

/// Requests in the order in which they were made.
pub type Requests = Sequence<MadeRequest>;
