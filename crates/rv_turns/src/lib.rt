//! What is asked of a server in one turn, and what comes of it.
//!
//! An [`Asked`] is a mutation of a client, a pull of a user, the retirement of a client group or the closing of the book. An
//! [`Outcome`] is what comes of it, which is a [`Refusal`] where it was not done. Whoever takes turns implements [`Turns`], and who
//! tells whether something has changed for a user implements [`Marks`]; who counts what was settled implements [`CountsSettled`]. A push is the turns of its mutations, one after another
//! ([`push`]). Nothing here knows how any of it is written or read.
#![tactic(auto)]

mod asked;
mod marks;
mod mutation;
mod op;
mod pull;
mod pushing;
mod refusal;
mod settled;
mod turns;

pub use asked::Asked;
pub use marks::Marks;
pub use mutation::{Mutation, Mutations};
pub use op::{Op, Ops};
pub use pull::{PullReply, PullRequest};
pub use pushing::{Outcome, PushEnd, push};
pub use refusal::{Refusal, Trouble, Which};
pub use rv_views::Cookie;
pub use settled::CountsSettled;
pub use turns::Turns;
