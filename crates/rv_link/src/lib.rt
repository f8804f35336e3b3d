//! The link of a poke session over WebSocket (RFC 6455), which stands on `tungstenite`.
//!
//! A [`SocketLink`] is the server's side of one client over any stream. Its handshake is part of taking the first message.
//!
//! Such a link tells neither its first message nor what was sent, so of a session over one nothing is proved but how it ends: which
//! user was named and how many pokes went out is proved over links that tell, as the one in memory does. Of the link itself it is proved
//! that each call that is `Ok` is a step of the protocol as `tungstenite` defines it: the first message is what is read of a socket
//! whose handshake was done, which takes at most 4,096 bytes; a poke and a close are the frames that the protocol makes of them, and
//! where the stream tells its bytes they were written to it. That the handshake answers the request's own key, and that a client gets what
//! is written, no clause says. The program `trial_net` plays sessions over streams in memory and prints each byte.
#![tactic(auto)]

mod line;
mod socket_link;

pub use socket_link::SocketLink;
