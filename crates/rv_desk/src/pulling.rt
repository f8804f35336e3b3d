// Pulls where nothing is in doubt.
ghost use Rattle.std.specs.Prelude.{◌≡◌, ◌<◌, ◌≤◌, ◌+◌, None};
ghost use Rattle.rv_book.specs.Book.{size};
ghost use Rattle.rv_book.specs.declared.entry.Entry.TheVariants.{Look};
ghost use Rattle.rv_history.specs.Groups.{Admits};
ghost use Rattle.rv_history.specs.Lawful.{IsLawfulAfter};
ghost use Rattle.rv_history.specs.Machine.{IsUnchanged, next_order};
ghost use Rattle.rv_history.specs.Reading.{pull_steps};
ghost use Rattle.rv_news.specs.News.{IsNews};
ghost use Rattle.rv_turns.specs.Asks.{Ask};
ghost use Rattle.rv_doubt.specs.Keeping.{keep_trouble};
ghost use Rattle.rv_doubt.specs.Kept.{Assures};
ghost use Rattle.rv_desk.specs.DeskStates.{served};
ghost use Rattle.rv_desk.specs.Stepping.{HasStepped};

use crate::desk::Desk;
use rv_base::{Fault, Num, Steps, User};
use rv_book::Found;
use rv_doubt::keep;
use rv_history::{Admission, admits, next_order};
use rv_keeper::Keeper;
use rv_news::News;
use rv_turns::{Outcome, PullRequest, Refusal, Which};
use rv_wire::same_reply;
use std::sync::ledger::Ledger;

impl<K: Keeper> Desk<K> {
    // A pull.
    pub(crate) fn answer<L: Ledger>(
        &mut self,
        user: &User,
        request: &PullRequest,
        steps: &mut Steps<L>,
    ) -> Result<Outcome, Fault>
        requires settled { self.old.doubt ≡ None }
        ensures stepped { HasStepped (served K.faults self.old) (Ask.pull user.now request.now) result (served K.faults self.new) }
        ensures assured { Assures K.tells K.fails_no_more self.old.keeper (keep_trouble result) self.new.keeper }
        ensures most { steps.new ≤ steps.old + pull_steps user.now request.now self.old.book }
    {
        match admits(self.state.book(), user, &request.group) {
            Admission::OfOther => Ok(Outcome::Refused(Refusal::GroupOfOther)),
            Admission::Retired => Ok(Outcome::Refused(Refusal::NotFound)),
            Admission::Open { at } => self.answer_admitted(user, request, at, steps),
        }
    }

    // A pull of a group that its user may use, and that the book has at an index: tells what is news since the base that the cookie names, if there is anything to tell.
    fn answer_admitted<L: Ledger>(
        &mut self,
        user: &User,
        request: &PullRequest,
        group_at: usize,
        steps: &mut Steps<L>,
    ) -> Result<Outcome, Fault>
        requires settled { self.old.doubt ≡ None }
        requires admits { Admits user.now request.now.group self.old.book }
        ensures stepped { HasStepped (served K.faults self.old) (Ask.pull user.now request.now) result (served K.faults self.new) }
        ensures assured { Assures K.tells K.fails_no_more self.old.keeper (keep_trouble result) self.new.keeper }
        ensures most { steps.new ≤ steps.old + pull_steps user.now request.now self.old.book }
    {
        let Some(news) = self.state.news(user, request, steps)? else {
            return Ok(Outcome::Pulled(same_reply(self.alloc, request)?));
        };
        let book = self.state.book();
        let told = book.group_found(&request.group, group_at);
        let order = next_order(&request.cookie, told.last_order);
        if order > Num::MAX {
            return Ok(Outcome::Refused(Refusal::Limit(Which::Order, Num::from_u64(Num::MAX))));
        }
        if book.is_full() {
            return Ok(Outcome::Refused(Refusal::Limit(
                Which::Book,
                Num::from_u64(u64::from(book.len())),
            )));
        }
        self.look(user, request, Num::from_u64(order), news, group_at)
    }

    // Keeps the look of a pull that is told this, and gives its reply.
    fn look(
        &mut self,
        user: &User,
        request: &PullRequest,
        order: Num,
        news: News,
        group_at: usize,
    ) -> Result<Outcome, Fault>
        requires settled { self.old.doubt ≡ None }
        requires admits { Admits user.now request.now.group self.old.book }
        requires changed { ¬ IsUnchanged user.now request.now self.old.book }
        requires within_limit { size self.old.book < self.old.limit }
        requires order { order ≡ next_order request.now self.old.book }
        requires news { IsNews self.old.book user.now request.now news }
        requires lawful { IsLawfulAfter self.old.book (Look user.now request.now.group order news.base) }
        ensures stepped { HasStepped (served K.faults self.old) (Ask.pull user.now request.now) result (served K.faults self.new) }
        ensures assured { Assures K.tells K.fails_no_more self.old.keeper (keep_trouble result) self.new.keeper }
    {
        let found = Found {
            group: group_at,
            client: 0,
        };
        let (reply, prepared) = self.state.prepare_look(user, request, order, news, found)?;
        match keep(
            self.alloc,
            &mut self.state,
            &mut self.doubt,
            &mut self.keeper,
            prepared,
        ) {
            Ok(()) => Ok(Outcome::Pulled(reply)),
            Err(Fault::Failed) => Err(Fault::Failed),
            Err(Fault::Memory) => Err(Fault::Memory),
        }
    }
}
