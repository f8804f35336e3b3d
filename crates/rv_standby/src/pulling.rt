// Pulls at a standby.
ghost use Rattle.std.specs.Prelude.{◌≡◌, ◌≤◌, ◌<◌, ◌+◌, ◌^◌, ℕ, false, decimal, IfOk, IfSome, IfNone, IsTrue, ◌↔◌};
ghost use Rattle.rv_book.specs.Book.{size};
ghost use Rattle.rv_history.specs.Groups.{Admits};
ghost use Rattle.rv_history.specs.Reading.{pull_steps};
ghost use Rattle.rv_turns.specs.declared.pushing.Outcome.TheVariants.{Pulled};
ghost use Rattle.rv_turns.specs.declared.pull.PullReply.{PullReply};
ghost use Rattle.rv_wire.specs.Answers.{pull_json};
ghost use Rattle.rv_history.specs.Properties.{ReplyTells};
ghost use Rattle.rv_standby.specs.Following.{Answers, AnswersOrNot, IsAhead, SpellsAbove};

use crate::standby::Standby;
use rv_base::{Memory, Num, Steps, User};
use rv_book::Book;
use rv_history::{Admission, admits, next_order};
use rv_news::place_of;
use rv_turns::{Cookie, Outcome, PullRequest, Refusal, Which};
use rv_wire::{bare_reply, same_reply};
use std::sync::ledger::Ledger;

// Whether the place is above the book's last.
fn is_above(book: &Book, place: u32) -> bool
    ensures range { place < 2 ^ 32 }
    ensures value { IsTrue result ↔ (size book.now.book < place) }
{
    place > book.len()
}

// Whether the text spells a place above the book's last.
fn spells_above(book: &Book, text: &str) -> bool
    ensures { IsTrue result ↔ SpellsAbove text.now book.now.book }
{
    match place_of(text) {
        Some(place) => is_above(book, place),
        None => false,
    }
}

// Whether the cookie names a place above the book's last.
fn is_ahead(book: &Book, cookie: &Cookie) -> bool
    ensures { IsTrue result ↔ IsAhead cookie.now book.now.book }
{
    match cookie {
        Cookie::Null => false,
        Cookie::Bare(_) => false,
        Cookie::Named { place_text, .. } => spells_above(book, place_text.as_str()),
    }
}

impl Standby {
    /// Answers a pull, and enters nothing: with the request's own cookie where there is nothing to tell since the look that it names, and
    /// else with a bare order as the cookie, which names no look. Each row and each client that is read of the look's record and of
    /// what is seen now is a step.
    ///
    /// Where it is refused the outcome tells why, by the first case that holds: the group is bound to another user; it is retired; the cookie
    /// is of a place above the book's last, so that the book is behind; the next order is above 2^53 - 1. Memory may be refused to a pull
    /// of a group that is the user's and not retired, where the book is not behind.
    pub fn pull<L: Ledger>(
        &self,
        user: &User,
        request: &PullRequest,
        steps: &mut Steps<L>,
    ) -> Outcome
        ensures answers { Answers self.now.book user.now request.now result }
        ensures tells { (reply : PullReply) → result ≡ Pulled reply → ReplyTells pull_json user.now request.now self.now.book reply }
        ensures most { steps.new ≤ steps.old + pull_steps user.now request.now self.now.book }
    {
        match self.answer(user, request, steps) {
            Ok(outcome) => outcome,
            Err(Memory) => Outcome::Refused(Refusal::Memory),
        }
    }

    // The answer to a pull.
    fn answer<L: Ledger>(
        &self,
        user: &User,
        request: &PullRequest,
        steps: &mut Steps<L>,
    ) -> Result<Outcome, Memory>
        ensures answers { AnswersOrNot self.now.book user.now request.now result }
        ensures most { steps.new ≤ steps.old + pull_steps user.now request.now self.now.book }
    {
        let book = self.state.book();
        match admits(book, user, &request.group) {
            Admission::OfOther => Ok(Outcome::Refused(Refusal::GroupOfOther)),
            Admission::Retired => Ok(Outcome::Refused(Refusal::NotFound)),
            Admission::Open { at } => {
                if is_ahead(book, &request.cookie) {
                    return Ok(Outcome::Refused(Refusal::Behind(book.len())));
                }
                self.answer_within(user, request, at, steps)
            }
        }
    }

    // The answer to a pull of a group that its user may use, and that the book has at an index, where the cookie is of no place above the
    // book's last.
    fn answer_within<L: Ledger>(
        &self,
        user: &User,
        request: &PullRequest,
        group_at: usize,
        steps: &mut Steps<L>,
    ) -> Result<Outcome, Memory>
        requires admits { Admits user.now request.now.group self.now.book }
        requires within { ¬ IsAhead request.now.cookie self.now.book }
        ensures answers { AnswersOrNot self.now.book user.now request.now result }
        ensures most { steps.new ≤ steps.old + pull_steps user.now request.now self.now.book }
    {
        let Some(news) = self.state.news(user, request, steps)? else {
            return Ok(Outcome::Pulled(same_reply(self.alloc, request)?));
        };
        let told = self.state.book().group_found(&request.group, group_at);
        let order = next_order(&request.cookie, told.last_order);
        if order > Num::MAX {
            return Ok(Outcome::Refused(Refusal::Limit(Which::Order, Num::from_u64(Num::MAX))));
        }
        let reply = bare_reply(self.alloc, Num::from_u64(order), news.ids, news.ops)?;
        Ok(Outcome::Pulled(reply))
    }
}
