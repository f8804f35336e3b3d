// What is asked, answered by turns.
ghost use Rattle.std.specs.Prelude.{◌≡◌, false};
ghost use Rattle.rv_answering.specs.Requests.{Parsed};
ghost use Rattle.rv_answering.specs.Reads.{IsReading};
ghost use Rattle.rv_answering.specs.Steps.{Answers, Handles};
ghost use Rattle.rv_answering.specs.declared.request.Request.TheVariants as requests;

use crate::answer::{Answer, Answered};
use crate::asking::Parsed;
use crate::request::Request;
use rv_base::{Id, User};
use rv_turns::{Asked, PullRequest, PushEnd, Turns, push};
use rv_wire::{ErrorBody, Push};

/// Answers a push of a user by its turns.
pub fn run_push<T: Turns>(turns: &mut T, user: &User, body: Push) -> Answered
    ensures { Answers T.takes turns.old (requests.Push user.now body) result.answer result.acted turns.new }
{
    let Push { group, mutations } = body;
    let PushEnd { refusal, acted } = push(turns, user, &group, mutations);
    let answer = match refusal {
        None => Answer::Pushed,
        Some(refusal) => Answer::Refused(ErrorBody::Refused(refusal)),
    };
    Answered { answer, acted }
}

/// Answers a pull of a user by its turn.
pub fn run_pull<T: Turns>(turns: &mut T, user: &User, request: &PullRequest) -> Answer
    ensures { Answers T.takes turns.old (requests.Pull user.now request.now) result false turns.new }
{
    Answer::of_outcome(turns.take(Asked::Pull { user, request }))
}

/// Retires a client group.
pub fn retire_group<T: Turns>(turns: &mut T, group: &Id) -> Answer
    ensures { Answers T.takes turns.old (requests.Retire group.now) result false turns.new }
{
    Answer::of_outcome(turns.take(Asked::Retirement { group }))
}

/// Closes the book.
pub fn close_book<T: Turns>(turns: &mut T) -> Answer
    requires { T.closes }
    ensures { Answers T.takes turns.old requests.Close result false turns.new }
{
    Answer::of_outcome(turns.take(Asked::Closing))
}

/// Answers a request by its turns.
pub fn serve_request<T: Turns>(turns: &mut T, request: Request) -> Answered
    requires { T.closes }
    ensures { Answers T.takes turns.old request result.answer result.acted turns.new }
{
    match request {
        Request::Push { user, push } => run_push(turns, &user, push),
        Request::Pull { user, pull } => Answered::without_act(run_pull(turns, &user, &pull)),
        Request::Retire { group } => Answered::without_act(retire_group(turns, &group)),
        Request::Close => Answered::without_act(close_book(turns)),
    }
}

/// Answers what was read of a line that asks something.
pub fn serve_asked<T: Turns>(turns: &mut T, read: Parsed) -> Answer
    requires { T.closes }
    ensures { (parsed : Parsed) → IsReading parsed read → Handles T.takes turns.old parsed result turns.new }
{
    match read {
        Ok(request) => serve_request(turns, request).answer,
        Err(fault) => Answer::Refused(fault.refusal()),
    }
}
