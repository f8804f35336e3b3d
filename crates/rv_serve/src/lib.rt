//! Connections are served: their requests are read, answered by turns, and the answers are written.
//!
//! [`serve_connection`] serves one connection, and [`serve_listener`] those of a listener, one after the other. Turns are taken
//! by anything that implements [`rv_turns::Turns`]: a server by itself, or one of several that share a book. A request passes a
//! [`Gate`] before its turns. A connection ends after an answer that closes, at its 100th request, where it ends itself, or
//! at a fault, which [`ConnEnd`] tells. [`serve_links`] serves the links of clients that want pokes, each by a poke session, one after the
//! other.
#![tactic(auto)]

mod conn_end;
mod gate;
mod heard;
mod http_answer;
pub mod laws;
mod listening;
mod poking;
mod replying;
mod serving;
mod tools;
mod writing;

pub use conn_end::ConnEnd;
pub use gate::{Gate, OpenGate};
pub use heard::Heard;
pub use http_answer::{HttpAnswer, HttpAnswered};
pub use listening::serve_listener;
pub use poking::serve_links;
pub use serving::serve_connection;
