ghost use Rattle.std.specs.Prelude.{◌≡◌, ◌≤◌, ◌<◌, [], ◌↔◌, IsTrue, IfOk, OnOk, OnErr};
ghost use Rattle.rv_base.specs.Sorted.{InOrder};
ghost use Rattle.rv_book.specs.declared.entry.Entry.TheVariants.{Act, Look, Retire};
ghost use Rattle.rv_book.specs.Book.{empty_book, size, with_entry};
ghost use Rattle.rv_history.specs.Groups.{is_of_other, is_elsewhere, Admits};
ghost use Rattle.rv_history.specs.Bases.{base_of};
ghost use Rattle.rv_history.specs.Machine.{patch_for, ids_for};
ghost use Rattle.rv_turns.specs.declared.refusal.Refusal.TheVariants as refusals;
ghost use Rattle.rv_turns.specs.declared.refusal.Which.TheVariants as which;

use crate::book::{bound, group_of, last, last_order, retired};
use crate::closing::page_of;
use crate::history::{ids_since, patch_since};
use crate::looks::base_of;
use crate::plain_book::PlainBook;
use rv_base::{Id, Memory, Num, User};
use rv_history::{entries, next_order};
use rv_rows::{Call, Clients};
use rv_turns::{Asked, Ops, Outcome, PullReply, PullRequest, Refusal, Turns, Which};
use rv_wire::{look_reply, same_reply};
use std::alloc::Global;
use std::marker::Model;

fn is_of_other(book: &PlainBook, user: &User, group: &Id) -> bool
    ensures { result ≡ is_of_other user.now group.now book.now }
{
    match bound(book, group) {
        Some(owner) => owner != user,
        None => false,
    }
}

fn is_elsewhere(book: &PlainBook, client: &Id, group: &Id) -> bool
    ensures { result ≡ is_elsewhere client.now group.now book.now }
{
    match group_of(book, client) {
        Some(other) => other != group,
        None => false,
    }
}

// The refusal of a book that is so long, and may become no longer.
fn full(limit: u32) -> Refusal
    ensures { result ≡ refusals.Limit which.Book limit }
{
    Refusal::Limit(Which::Book, Num::from_u64(u64::from(limit)))
}

// What a pull is told, with the place of its base.
#[derive(Drop)]
struct PullNews {
    base: Option<u32>,
    ops: Ops,
    ids: Clients,
}

impl PullNews {
    // Whether there is nothing to tell.
    fn is_empty(&self) -> bool
        ensures { IsTrue result ↔ ((self.now.ops ≡ []) × (self.now.ids ≡ [])) }
    {
        self.ops.as_slice().is_empty() && self.ids.as_slice().is_empty()
    }
}

// What a pull is told at a book.
fn news_at(
    alloc: Global,
    book: &PlainBook,
    user: &User,
    request: &PullRequest,
) -> Result<PullNews, Memory>
    ensures base { IfOk result (λ news. news.base ≡ base_of user.now request.now.cookie book.now) }
    ensures ops { IfOk result (λ news. news.ops ≡ patch_for user.now request.now book.now) }
    ensures ids { IfOk result (λ news. news.ids ≡ ids_for user.now request.now book.now) }
    ensures order { IfOk result (λ news. InOrder (λ pair. pair.0) news.ids) }
{
    let base = base_of(book, user, &request.cookie);
    let ops = patch_since(alloc, book, user, base)?;
    let ids = ids_since(alloc, book, &request.group, base)?;
    Ok(PullNews { base, ops, ids })
}

/// A server that has nothing but its book, and replays it at each pull.
#[derive(Drop)]
pub struct PlainDesk {
    book: PlainBook,
    limit: u32,
    alloc: Global,
}

impl Model for PlainDesk {
    ghost use Rattle.std.specs.Prelude.{◌+◌, ◌≤◌, length};
    ghost use Rattle.rv_plain.specs.Plain.{Plain};

    ghost Value = { Plain };

    ghost view = { λ d. record { book = d.book; limit = d.limit } };

    ghost invariant = { λ d. d.book.page.at + length d.book.entries ≤ d.limit };
}

impl PlainDesk {
    ghost use Rattle.rv_history.specs.Machine.{Step, next_order, reply_to};
    ghost use Rattle.rv_plain.specs.Plain.{Hinders};
    ghost use Rattle.rv_turns.specs.Asks.{Ask};
    ghost use Rattle.rv_wire.specs.Answers.{pull_json};

    /// A server with the empty book, which may become so long.
    pub fn new(alloc: Global, limit: u32) -> PlainDesk
        ensures book { result.book ≡ empty_book }
        ensures limit { result.limit ≡ limit }
    {
        PlainDesk {
            book: PlainBook::empty(alloc),
            limit,
            alloc,
        }
    }

    /// A server with this book, which may become so long.
    pub fn with(alloc: Global, book: PlainBook, limit: u32) -> PlainDesk
        requires { size book ≤ limit }
        ensures book { result.book ≡ book }
        ensures limit { result.limit ≡ limit }
    {
        PlainDesk { book, limit, alloc }
    }

    /// The book.
    pub fn book(&self) -> &PlainBook
        ensures { result.now ≡ self.now.book }
    {
        &self.book
    }

    // How a mutation is answered that is not run.
    fn hindrance(&self, user: &User, group: &Id, client: &Id, id: Num) -> Option<Outcome>
        ensures { Hinders self.now (record { user = user.now; group = group.now }) client.now id result }
    {
        let limit = self.limit;
        if is_of_other(&self.book, user, group) {
            return Some(Outcome::Refused(Refusal::GroupOfOther));
        }
        if retired(&self.book, group) {
            return Some(Outcome::Refused(Refusal::NotFound));
        }
        if is_elsewhere(&self.book, client, group) {
            return Some(Outcome::Refused(Refusal::ClientOfOther));
        }
        let last = last(&self.book, client);
        if id.get() <= last {
            return Some(Outcome::Skipped(Num::from_u64(last)));
        }
        if id.get() > last + 1 {
            return Some(Outcome::Refused(Refusal::Future {
                expected: Num::from_u64(last + 1),
                got: id,
            }));
        }
        if self.book.len() >= limit {
            return Some(Outcome::Refused(full(limit)));
        }
        None
    }

    /// One mutation.
    pub fn mutate(&mut self, user: &User, group: &Id, client: &Id, id: Num, call: Call) -> Outcome
        ensures step { Step pull_json self.old.limit self.old.book (Ask.mutation (record { user = user.now; group = group.now }) (record { client = client.now; id = id; call = call })) result self.new.book }
        ensures limit { self.new.limit ≡ self.old.limit }
    {
        match self.hindrance(user, group, client, id) {
            Some(outcome) => outcome,
            None => match self.act(user, group, client, id, call) {
                Ok(()) => Outcome::Acted(self.book.len()),
                Err(Memory) => Outcome::Refused(Refusal::Memory),
            },
        }
    }

    fn act(
        &mut self,
        user: &User,
        group: &Id,
        client: &Id,
        id: Num,
        call: Call,
    ) -> Result<(), Memory>
        requires { size self.old.book < self.old.limit }
        ensures ok { OnOk result (self.new.book ≡ with_entry self.old.book (Act user.now group.now client.now id call)) }
        ensures err { OnErr result (self.new.book ≡ self.old.book) }
        ensures limit { self.new.limit ≡ self.old.limit }
    {
        let entry = entries::act(self.alloc, user, group, client, id, call)?;
        self.book.enter(entry)?;
        Ok(())
    }

    /// One pull.
    pub fn pull(&mut self, user: &User, request: &PullRequest) -> Outcome
        ensures step { Step pull_json self.old.limit self.old.book (Ask.pull user.now request.now) result self.new.book }
        ensures limit { self.new.limit ≡ self.old.limit }
    {
        if is_of_other(&self.book, user, &request.group) {
            return Outcome::Refused(Refusal::GroupOfOther);
        }
        if retired(&self.book, &request.group) {
            return Outcome::Refused(Refusal::NotFound);
        }
        match self.answer(user, request) {
            Ok(outcome) => outcome,
            Err(Memory) => Outcome::Refused(Refusal::Memory),
        }
    }

    // The answer to a pull of a group that is the user's and not retired.
    fn answer(&mut self, user: &User, request: &PullRequest) -> Result<Outcome, Memory>
        requires admits { Admits user.now request.now.group self.old.book }
        ensures ok { IfOk result (λ outcome. Step pull_json self.old.limit self.old.book (Ask.pull user.now request.now) outcome self.new.book) }
        ensures err { OnErr result (self.new.book ≡ self.old.book) }
        ensures limit { self.new.limit ≡ self.old.limit }
    {
        let news = news_at(self.alloc, &self.book, user, request)?;
        if news.is_empty() {
            return Ok(Outcome::Pulled(same_reply(self.alloc, request)?));
        }
        let order = next_order(&request.cookie, last_order(&self.book, &request.group));
        if order > Num::MAX {
            return Ok(Outcome::Refused(Refusal::Limit(Which::Order, Num::from_u64(Num::MAX))));
        }
        if self.book.len() >= self.limit {
            return Ok(Outcome::Refused(full(self.limit)));
        }
        let reply = self.look(user, request, Num::from_u64(order), news)?;
        Ok(Outcome::Pulled(reply))
    }

    // Makes the reply, and then enters the look.
    fn look(
        &mut self,
        user: &User,
        request: &PullRequest,
        order: Num,
        news: PullNews,
    ) -> Result<PullReply, Memory>
        requires within_limit { size self.old.book < self.old.limit }
        requires order { order ≡ next_order request.now self.old.book }
        requires base { news.base ≡ base_of user.now request.now.cookie self.old.book }
        requires ops { news.ops ≡ patch_for user.now request.now self.old.book }
        requires ids { news.ids ≡ ids_for user.now request.now self.old.book }
        requires ids_order { InOrder (λ pair. pair.0) news.ids }
        ensures reply { IfOk result (λ reply. reply ≡ reply_to pull_json user.now request.now self.old.book) }
        ensures ok { OnOk result (self.new.book ≡ with_entry self.old.book (Look user.now request.now.group order (base_of user.now request.now.cookie self.old.book))) }
        ensures err { OnErr result (self.new.book ≡ self.old.book) }
        ensures limit { self.new.limit ≡ self.old.limit }
    {
        let PullNews { base, ops, ids } = news;
        let place = self.book.len() + 1;
        let reply = look_reply(self.alloc, place, order, ids, ops)?;
        let entry = entries::look(self.alloc, user, &request.group, order, base)?;
        self.book.enter(entry)?;
        Ok(reply)
    }

    /// One retirement.
    pub fn retire(&mut self, group: &Id) -> Outcome
        ensures step { Step pull_json self.old.limit self.old.book (Ask.retirement group.now) result self.new.book }
        ensures limit { self.new.limit ≡ self.old.limit }
    {
        if bound(&self.book, group).is_none() {
            return Outcome::Refused(Refusal::NoGroup);
        }
        if retired(&self.book, group) {
            return Outcome::Refused(Refusal::NotFound);
        }
        if self.book.len() >= self.limit {
            return Outcome::Refused(full(self.limit));
        }
        match self.enter_retirement(group) {
            Ok(()) => Outcome::Retired(self.book.len()),
            Err(Memory) => Outcome::Refused(Refusal::Memory),
        }
    }

    fn enter_retirement(&mut self, group: &Id) -> Result<(), Memory>
        requires { size self.old.book < self.old.limit }
        ensures ok { OnOk result (self.new.book ≡ with_entry self.old.book (Retire group.now)) }
        ensures err { OnErr result (self.new.book ≡ self.old.book) }
        ensures limit { self.new.limit ≡ self.old.limit }
    {
        let entry = entries::retirement(self.alloc, group)?;
        self.book.enter(entry)?;
        Ok(())
    }

    /// Closes the book: the page that sums it up comes in the place of its entries, at the place after its last.
    pub fn close_book(&mut self) -> Outcome
        ensures step { Step pull_json self.old.limit self.old.book Ask.closing result self.new.book }
        ensures limit { self.new.limit ≡ self.old.limit }
    {
        if self.book.len() >= self.limit {
            return Outcome::Refused(full(self.limit));
        }
        match page_of(self.alloc, &self.book) {
            Ok(page) => {
                let place = page.at;
                self.book = PlainBook::opening(self.alloc, page);
                Outcome::Closed(place)
            }
            Err(Memory) => Outcome::Refused(Refusal::Memory),
        }
    }
}

impl Turns for PlainDesk {
    ghost use Rattle.std.specs.Prelude.{◌≡◌};
    ghost use Rattle.rv_history.specs.Machine.{Step};
    ghost use Rattle.rv_wire.specs.Answers.{pull_json};

    ghost takes = { λ old ask outcome new. Step pull_json old.limit old.book ask outcome new.book × (new.limit ≡ old.limit) };

    ghost closes = { Unit };

    fn take(&mut self, asked: Asked<'_>) -> Outcome {
        match asked {
            Asked::Mutation {
                user,
                group,
                client,
                id,
                call,
            } => self.mutate(user, group, client, id, call),
            Asked::Pull { user, request } => self.pull(user, request),
            Asked::Retirement { group } => self.retire(group),
            Asked::Closing => self.close_book(),
        }
    }
}
