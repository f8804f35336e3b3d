//! What every other crate stands on: texts and numbers within bounds, lists as contracts see them, and the bytes that
//! come in and go out.
//!
//! A contract sees an [`Id`], a [`User`] or a [`Text`] as the list of its bytes, a [`Num`] as a number, and a
//! [`Sequence`] as the list of its items. A [`Source`] and a [`Sink`] count their faults, and a call says that it failed
//! only where that count rose. A [`Fault`] tells that it failed, or that memory was refused.
#![tactic(auto)]

mod adapter;
mod bounded;
mod fault;
mod memory;
mod number;
mod outside;
mod schemas;
mod sequence;
mod steps;
mod writing;

pub use adapter::{Reading, Writing};
pub use bounded::{Bounded, Id, Text, TextRefusal, User};
pub use fault::Fault;
pub use memory::Memory;
pub use number::{Num, TooBig};
pub use outside::{Failed, Sink, Source, ends_after};
pub use schemas::Schemas;
pub use sequence::{Bytes, Sequence};
pub use steps::Steps;
pub use writing::write_all;
