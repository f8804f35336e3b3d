// The answer to one request.
ghost use Rattle.std.specs.Prelude.{◌≡◌, ◌==◌, ◌||◌, not, false, map, string_bytes};
ghost use Rattle.rv_base.specs.Chains.{need};
ghost use Rattle.rv_wire.specs.Bodies.{push_body, pull_body};
ghost use Rattle.rv_answering.specs.Requests.{push_asked, pull_asked};
ghost use Rattle.rv_answering.specs.Steps.{HandlesActing};
ghost use Rattle.rv_http.specs.declared.routes.Route.TheVariants as routes;
ghost use Rattle.rv_serve.specs.Replies.{serves, user_by_key, asked_at, AnswersAsked, Responds};
ghost use Rattle.rv_serve.specs.Steps.{user_found};
ghost use Rattle.rv_serve.specs.declared.http_answer.HttpAnswer.TheVariants as answers;

use crate::http_answer::{HttpAnswer, HttpAnswered};
use json::Scratch;
use rv_accounts::Accounts;
use rv_answering::{Answer, Answered, run_pull, run_push};
use rv_base::{Schemas, User};
use rv_http::{Rejection, Request, Route, Routes};
use rv_turns::{CountsSettled, Turns};
use rv_wire::{read_pull, read_push};
use std::alloc::Global;

// Whom a request is from.
fn user_by_key<'a>(accounts: &'a Accounts, request: &Request) -> Option<&'a User>
    ensures { user_found result ≡ user_by_key accounts.now request.now }
{
    match &request.authorization {
        Some(key) => accounts.user_of(key.as_slice()),
        None => None,
    }
}

// Answers a push of a user.
fn answer_push<T: Turns>(
    alloc: Global,
    turns: &mut T,
    schemas: &Schemas,
    user: &User,
    body: &[u8],
    scratch: &mut Scratch,
) -> Answered
    ensures { HandlesActing T.takes turns.old (push_asked user.now (push_body (serves (map string_bytes schemas.now)) body.now)) result.answer result.acted turns.new }
{
    match read_push(alloc, body, schemas, scratch) {
        Ok(push) => run_push(turns, user, push),
        Err(fault) => Answered::without_act(Answer::Refused(fault.refusal())),
    }
}

// Answers a pull of a user.
fn answer_pull<T: Turns>(
    alloc: Global,
    turns: &mut T,
    schemas: &Schemas,
    user: &User,
    body: &[u8],
    scratch: &mut Scratch,
) -> Answer
    ensures { HandlesActing T.takes turns.old (pull_asked user.now (pull_body (serves (map string_bytes schemas.now)) body.now)) result false turns.new }
{
    match read_pull(alloc, body, schemas, scratch) {
        Ok(pull) => run_pull(turns, user, &pull),
        Err(fault) => Answer::Refused(fault.refusal()),
    }
}

// Whether a mutation was run, or something settled since so much was.
fn has_entered<T: CountsSettled>(turns: &T, before: u32, acted: bool) -> bool
    ensures { result ≡ (acted || not (before == T.settled turns.now)) }
{
    acted || turns.settled_count() != before
}

// Answers a request whose route is that of a push.
fn reply_push<T: Turns + CountsSettled>(
    alloc: Global,
    turns: &mut T,
    accounts: &Accounts,
    request: &Request,
    scratch: &mut Scratch,
) -> HttpAnswered
    ensures { AnswersAsked T.takes T.settled turns.old (asked_at accounts.now request.now routes.Push) result.answer result.entered turns.new }
{
    match user_by_key(accounts, request) {
        Some(user) => {
            let before = turns.settled_count();
            let Answered { answer, acted } = answer_push(
                alloc,
                turns,
                accounts.schemas(),
                user,
                request.body.as_slice(),
                scratch,
            );
            HttpAnswered {
                answer: HttpAnswer::Answered(answer),
                entered: has_entered(turns, before, acted),
            }
        }
        None => rejected(Rejection::Unauthorized),
    }
}

// Answers a request whose route is that of a pull.
fn reply_pull<T: Turns + CountsSettled>(
    alloc: Global,
    turns: &mut T,
    accounts: &Accounts,
    request: &Request,
    scratch: &mut Scratch,
) -> HttpAnswered
    ensures { AnswersAsked T.takes T.settled turns.old (asked_at accounts.now request.now routes.Pull) result.answer result.entered turns.new }
{
    match user_by_key(accounts, request) {
        Some(user) => {
            let before = turns.settled_count();
            let answer = answer_pull(
                alloc,
                turns,
                accounts.schemas(),
                user,
                request.body.as_slice(),
                scratch,
            );
            HttpAnswered {
                answer: HttpAnswer::Answered(answer),
                entered: has_entered(turns, before, false),
            }
        }
        None => rejected(Rejection::Unauthorized),
    }
}

// A rejection, for which nothing was entered.
fn rejected(rejection: Rejection) -> HttpAnswered
    ensures { (result.answer ≡ answers.Rejected rejection) × (result.entered ≡ false) }
{
    HttpAnswered {
        answer: HttpAnswer::Rejected(rejection),
        entered: false,
    }
}

/// Answers a request: the route, the method and the user are looked at, and then the body and the turns.
pub(crate) fn reply<T: Turns + CountsSettled>(
    alloc: Global,
    turns: &mut T,
    accounts: &Accounts,
    routes: &Routes,
    request: &Request,
    scratch: &mut Scratch,
) -> HttpAnswered
    ensures { Responds T.takes T.settled accounts.now turns.old request.now result.answer result.entered turns.new }
{
    match routes.route(&request.method, request.path.as_slice()) {
        Route::NoRoute => rejected(Rejection::NoRoute),
        Route::OtherMethod => rejected(Rejection::OtherMethod),
        Route::Push => reply_push(alloc, turns, accounts, request, scratch),
        Route::Pull => reply_pull(alloc, turns, accounts, request, scratch),
    }
}
