use crate::pull::PullRequest;
use rv_base::{Id, Num, User};
use rv_rows::Call;

/// What is asked of a server in one turn.
#[derive(Debug, Drop)]
pub enum Asked<'a> {
    /// A mutation is to be run.
    Mutation {
        /// Who sends it.
        user: &'a User,
        /// The client group that it is sent for.
        group: &'a Id,
        /// Its client.
        client: &'a Id,
        /// Its number.
        id: Num,
        /// What it asks for.
        call: Call,
    },
    /// A client group is to be told what its user sees.
    Pull {
        /// Who sends it.
        user: &'a User,
        /// Where the group stands.
        request: &'a PullRequest,
    },
    /// A client group is to be retired, for good.
    Retirement {
        /// The group.
        group: &'a Id,
    },
    /// The book is to be closed: the page that sums it up comes in the place of its entries.
    Closing,
}
