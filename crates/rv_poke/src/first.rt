use rv_base::Bytes;

/// The first message of a client.
#[derive(Debug, Drop)]
pub enum First {
    /// A text, as its bytes.
    Text(Bytes),
    /// Anything else.
    Other,
}
