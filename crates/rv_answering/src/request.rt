use rv_base::{Id, User};
use rv_turns::PullRequest;
use rv_wire::Push;

/// What a line asks.
#[derive(Debug, Drop)]
pub enum Request {
    /// A user pushes mutations.
    Push {
        /// Who sends it.
        user: User,
        /// The push.
        push: Push,
    },
    /// A user pulls.
    Pull {
        /// Who sends it.
        user: User,
        /// The pull.
        pull: PullRequest,
    },
    /// A client group is retired.
    Retire {
        /// The group.
        group: Id,
    },
    /// The book is closed.
    Close,
}
