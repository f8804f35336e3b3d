//! Where the connections of a server come from, and where they go back to.
//!
//! A [`Net`] gives listeners at a port, and a [`Listen`] gives its connections one after another, until none is to come.
//! A [`Conn`] has two halves: where its bytes come from, and where the answers go. A [`PokeListen`] gives the links of clients that want
//! pokes, in the same way. What was given goes back when it is served. [`TcpNet`], [`TcpListen`] and [`TcpLink`] are over the sockets of
//! the machine, of which nothing is told.
#![tactic(auto)]

mod accepted;
mod awaited;
mod conn;
mod lingering;
mod listen;
mod listeners;
mod net;
mod patience;
mod poke_listen;
mod tcp_link;
mod tcp_listen;
mod tcp_net;
mod wanted;

pub use accepted::Accepted;
pub use awaited::Awaited;
pub use conn::Conn;
pub use lingering::LINGER_SECONDS;
pub use listen::Listen;
pub use listeners::Listeners;
pub use net::Net;
pub use poke_listen::PokeListen;
pub use tcp_link::{KEY_SECONDS, TcpLink};
pub use tcp_listen::{IDLE_SECONDS, TcpConn, TcpListen};
pub use tcp_net::TcpNet;
pub use wanted::Wanted;
