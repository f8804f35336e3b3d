//! What a pull is told: the base that its cookie names, the view records of kept looks, and the operations and the last
//! mutation ids that are news since a base.
#![tactic(auto)]

mod base;
mod news;
mod pull;
mod records;

pub use base::{base_of, place_of};
pub use news::{News, view_now};
pub use pull::news_for;
pub use records::Records;
