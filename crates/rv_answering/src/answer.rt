use rv_turns::{Outcome, PullReply};
use rv_wire::ErrorBody;

/// What a request is answered.
#[derive(Debug, Drop)]
pub enum Answer {
    /// Each mutation of a push was run, or had been before.
    Pushed,
    /// A pull has its reply.
    Pulled(PullReply),
    /// A client group is retired; this stands in the book at this place.
    Retired(u32),
    /// The book is closed; its page stands at this place.
    Closed(u32),
    /// What was asked was refused.
    Refused(ErrorBody),
}

impl Answer {
    ghost use Rattle.std.specs.Prelude.{◌≡◌};
    ghost use Rattle.rv_answering.specs.Steps.{answer_of};
    ghost use Rattle.rv_answering.specs.Texts.{answer_status};

    /// What an outcome is answered as.
    pub fn of_outcome(outcome: Outcome) -> Answer
        ensures { result ≡ answer_of outcome }
    {
        match outcome {
            Outcome::Acted(_) => Answer::Pushed,
            Outcome::Skipped(_) => Answer::Pushed,
            Outcome::Pulled(reply) => Answer::Pulled(reply),
            Outcome::Retired(place) => Answer::Retired(place),
            Outcome::Closed(place) => Answer::Closed(place),
            Outcome::Refused(refusal) => Answer::Refused(ErrorBody::Refused(refusal)),
        }
    }

    /// The status that it is told with.
    pub fn status(&self) -> u16
        ensures { result ≡ answer_status self.now }
    {
        match self {
            Answer::Pushed => 200,
            Answer::Pulled(_) => 200,
            Answer::Retired(_) => 200,
            Answer::Closed(_) => 200,
            Answer::Refused(refusal) => refusal.status(),
        }
    }
}

/// What a request is answered, and whether a mutation was run for it.
#[derive(Debug, Drop)]
pub struct Answered {
    /// The answer.
    pub answer: Answer,
    /// Whether a mutation was run.
    pub acted: bool,
}

impl Answered {
    ghost use Rattle.std.specs.Prelude.{◌≡◌, false};

    /// An answer for which no mutation was run.
    pub fn without_act(answer: Answer) -> Answered
        ensures answer { result.answer ≡ answer }
        ensures acted { result.acted ≡ false }
    {
        Answered {
            answer,
            acted: false,
        }
    }
}
