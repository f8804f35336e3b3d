// What comes of what is asked in a turn; and a push: mutations of a client group, one turn each.
ghost use Rattle.rv_turns.specs.Pushing.{Pushes, Runs};

use crate::asked::Asked;
use crate::mutation::{Mutation, Mutations};
use crate::pull::PullReply;
use crate::refusal::Refusal;
use crate::turns::Turns;
use rv_base::{Id, Num, User};

/// What comes of what is asked in a turn.
#[derive(Debug, Drop)]
pub enum Outcome {
    /// The mutation was run, and stands in the book at this place.
    Acted(u32),
    /// The mutation's id is not above this last mutation id of its client.
    Skipped(Num),
    /// The pull was answered.
    Pulled(PullReply),
    /// The group is retired, and this stands in the book at this place.
    Retired(u32),
    /// The book is closed: it opens with a page, which stands at this place.
    Closed(u32),
    /// What was asked was not done.
    Refused(Refusal),
}

impl Outcome {
    ghost use Rattle.std.specs.Prelude.{◌≡◌};
    ghost use Rattle.rv_turns.specs.Outcomes.{has_acted, refusal_of};

    /// The refusal, if it is one.
    pub fn refusal(&self) -> Option<Refusal>
        ensures { result ≡ refusal_of self.now }
    {
        match self {
            Outcome::Acted(_) => None,
            Outcome::Skipped(_) => None,
            Outcome::Pulled(_) => None,
            Outcome::Retired(_) => None,
            Outcome::Closed(_) => None,
            Outcome::Refused(refusal) => Some(*refusal),
        }
    }

    /// Whether a mutation was run.
    pub fn has_acted(&self) -> bool
        ensures { result ≡ has_acted self.now }
    {
        matches!(self, Outcome::Acted(_))
    }
}

/// How a push ended.
#[derive(Clone, Copy, Debug, PartialEq, Eq)]
pub struct PushEnd {
    /// The first refusal: none where each mutation was run or skipped.
    pub refusal: Option<Refusal>,
    /// Whether a mutation was run.
    pub acted: bool,
}

// One mutation of a group.
fn run<T: Turns>(turns: &mut T, user: &User, group: &Id, mutation: Mutation) -> PushEnd
    ensures { Runs T.takes (record { user = user.now; group = group.now }) mutation turns.old result.refusal result.acted turns.new }
{
    let Mutation { client, id, call } = mutation;
    let outcome = turns.take(Asked::Mutation {
        user,
        group,
        client: &client,
        id,
        call,
    });
    PushEnd {
        refusal: outcome.refusal(),
        acted: outcome.has_acted(),
    }
}

/// Runs the mutations of a push in order, up to the first refusal.
pub fn push<T: Turns>(turns: &mut T, user: &User, group: &Id, mutations: Mutations) -> PushEnd
    ensures { Pushes T.takes (record { user = user.now; group = group.now }) mutations turns.old result.refusal result.acted turns.new }
{
    let mut acted = false;
    for mutation in mutations.into_vec() {
        let ran = run(turns, user, group, mutation);
        acted |= ran.acted;
        if let Some(_) = ran.refusal {
            return PushEnd {
                refusal: ran.refusal,
                acted,
            };
        }
    }
    PushEnd {
        refusal: None,
        acted,
    }
}
