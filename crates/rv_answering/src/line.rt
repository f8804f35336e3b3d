use crate::asking::Parsed;

/// What a line of the form is.
#[derive(Debug, Drop)]
pub enum Line {
    /// It asks something, which has an answer.
    Asks(Parsed),
    /// `{"stop":true}`: the server is closed and opened again, and nothing is answered.
    Stop,
}
