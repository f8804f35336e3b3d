use rv_base::Id;
use rv_turns::Mutations;

/// The body of a push: mutations of a client group.
#[derive(Debug, Drop)]
pub struct Push {
    /// The client group.
    pub group: Id,
    /// Its mutations, in order.
    pub mutations: Mutations,
}
