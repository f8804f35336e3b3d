/// What is sent to a client.
#[derive(Clone, Copy, Debug, PartialEq, Eq)]
pub enum Sent {
    /// The text `poke`.
    Poke,
    /// A ping without a payload (RFC 6455, section 5.5.2).
    Ping,
    /// The link's close, with its status code (RFC 6455, section 7.4).
    Close(u16),
}
