//! Poke sessions: a client is told, over a link of its own, that it should pull.
//!
//! The first message of a session names its user by an account's key. From then on the session looks at the user's mark, which
//! [`rv_turns::Marks`] tells, once at the start and once after each ring of a [`Bell`], and sends a poke over its [`PokeLink`]
//! exactly where the mark is above those before ([`poke_session`]). A poke says nothing but that a pull may have news.
#![tactic(auto)]

mod bell;
mod first;
mod poke_end;
mod poke_link;
mod sent;
mod session;
mod waited;

pub use bell::Bell;
pub use first::First;
pub use poke_end::PokeEnd;
pub use poke_link::PokeLink;
pub use sent::Sent;
pub use session::{MOST_POKES, MOST_WAITS, poke_session};
pub use waited::Waited;
