//! The JSON that clients send and get: the bodies of pushes and pulls, the answer to a pull, and the texts of refusals.
//!
//! The bodies are those of version 1 of the push and the pull of Replicache's reference ("Replicache Server: Push" and
//! "Pull"). JSON is read as `rv_json` reads it. An answer is written by `json`'s writer,
//! from left to right, with no value of it between.
#![tactic(auto)]

mod answer;
mod body;
mod calls;
mod closing;
mod error_body;
mod fault;
mod pull_body;
mod push;
mod push_body;
mod refusal;
mod reply;
mod retirement;

pub use answer::pull_text;
pub use body::SchemaVersions;
pub use calls::read_call;
pub use closing::closed_text;
pub use error_body::ErrorBody;
pub use fault::{FieldName, VersionKind, WireFault};
pub use pull_body::{pull_of_value, read_pull};
pub use push::Push;
pub use push_body::{push_of_value, read_push};
pub use refusal::error_text;
pub use reply::{bare_reply, look_reply, same_reply};
pub use retirement::retired_text;
