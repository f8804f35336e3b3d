//! Requests that a seed makes, and a run of them over a fresh store in memory.
//!
//! A [`Generator`] makes them one after another, and [`make_requests`] a list of them. [`play`] runs them, and tells how many were
//! answered how.
#![tactic(auto)]

mod asking;
mod calls;
mod counts;
mod devices;
mod draws;
mod generator;
mod made;
mod names;
mod playing;
mod summary;
mod three;

pub use generator::{Generator, make_requests};
pub use made::{MadeRequest, Requests};
pub use playing::play;
pub use summary::Summary;
