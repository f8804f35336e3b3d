/// What a listener answers.
#[derive(Drop)]
pub enum Accepted<C> {
    /// The next connection.
    Conn(C),
    /// No connection is to come.
    End,
}
