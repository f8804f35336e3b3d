//! What follows from what [`run`](rv_cli::run) promises of `feed`, `import`, `serve`, `follow` and `make`, as contracts of functions that do nothing:
//! a check of the crate proves them.
//!
//! Who has called `run` holds the promise of the command. [`feed::feeds_are_runs`], [`import::imports_are_runs`] and
//! [`serve::serves_are_runs`] make of it one record, the run that there was, and the other laws say of that record what stands in its book,
//! what its answers tell, and what its clients hold. [`stores::runs_go_on`] says of each command with what book the next run begins.
#![tactic(auto)]

pub mod feed;
pub mod follow;
pub mod import;
pub mod listeners;
pub mod make;
pub mod runs;
pub mod serve;
pub mod stores;
