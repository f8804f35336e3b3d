use rv_base::{Id, Num, Sequence};
use rv_rows::Call;

/// One mutation of a client. A client numbers its mutations 1, 2, 3 and so on.
#[derive(Debug, Drop)]
pub struct Mutation {
    /// The client.
    pub client: Id,
    /// The mutation's number.
    pub id: Num,
    /// What it asks for.
    pub call: Call,
}

/// Mutations in the order in which they are to run.
pub type Mutations = Sequence<Mutation>;
