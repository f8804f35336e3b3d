use crate::op::Ops;
use rv_base::{Bytes, Id};
use rv_rows::Clients;
use rv_views::Cookie;

/// What a pull asks: where a client group stands.
#[derive(Debug, Drop)]
pub struct PullRequest {
    /// The client group.
    pub group: Id,
    /// The cookie that was answered to it last.
    pub cookie: Cookie,
}

/// What a pull is answered.
#[derive(Debug, Drop)]
pub struct PullReply {
    /// The cookie of the answer.
    pub cookie: Cookie,
    /// Whether it is the request's own.
    pub same: bool,
    /// The last mutation ids of clients, in the order of the clients' bytes.
    pub ids: Clients,
    /// The patch.
    pub ops: Ops,
    /// The answer's text, as it leaves the server.
    pub text: Bytes,
}
