// How many requests were answered how.
ghost use Rattle.std.specs.Prelude.{◌≡◌};
ghost use Rattle.rv_make.specs.Answered.{is_skipped, is_look, is_same, lacked_memory, counts_after, no_counts, MayCount};

use rv_turns::{Outcome, Refusal};

// How many mutations were run and how many skipped; how many pulls entered a look, and how many were answered with their own cookie.
#[derive(Clone, Copy, Debug)]
pub(crate) struct AnswerCounts {
    pub(crate) acted: u32,
    pub(crate) skipped: u32,
    pub(crate) looks: u32,
    pub(crate) same: u32,
}

fn is_skipped(outcome: &Outcome) -> bool
    ensures { result ≡ is_skipped outcome.now }
{
    matches!(outcome, Outcome::Skipped(_))
}

fn is_look(outcome: &Outcome) -> bool
    ensures { result ≡ is_look outcome.now }
{
    match outcome {
        Outcome::Pulled(reply) => !reply.same,
        _ => false,
    }
}

fn is_same(outcome: &Outcome) -> bool
    ensures { result ≡ is_same outcome.now }
{
    match outcome {
        Outcome::Pulled(reply) => reply.same,
        _ => false,
    }
}

// Memory was refused.
pub(crate) fn lacked_memory(outcome: &Outcome) -> bool
    ensures { result ≡ lacked_memory outcome.now }
{
    matches!(outcome, Outcome::Refused(Refusal::Memory))
}

impl AnswerCounts {
    pub(crate) fn none() -> AnswerCounts
        ensures { result ≡ no_counts }
    {
        AnswerCounts {
            acted: 0,
            skipped: 0,
            looks: 0,
            same: 0,
        }
    }

    // The counts after one more outcome.
    pub(crate) fn after(self, outcome: &Outcome) -> AnswerCounts
        requires { MayCount self }
        ensures { result ≡ counts_after self outcome.now }
    {
        AnswerCounts {
            acted: self.acted + u32::from(outcome.has_acted()),
            skipped: self.skipped + u32::from(is_skipped(outcome)),
            looks: self.looks + u32::from(is_look(outcome)),
            same: self.same + u32::from(is_same(outcome)),
        }
    }
}
