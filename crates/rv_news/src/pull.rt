// What a pull is told at a book, by the book's rows and records.
ghost use Rattle.std.specs.Prelude.{◌≡◌, ◌≤◌, ◌+◌, IsTrue, IfOk, None, Ok, option_and_then, option_map};
ghost use Rattle.rv_book.specs.Kept.{is_look_at};
ghost use Rattle.rv_history.specs.Bases.{base_of};
ghost use Rattle.rv_history.specs.Lawful.{IsLawful};
ghost use Rattle.rv_history.specs.Machine.{IsUnchanged};
ghost use Rattle.rv_history.specs.Marks.{IsMark};
ghost use Rattle.rv_history.specs.Reading.{pull_steps};
ghost use Rattle.rv_history.specs.Replay.{IsReplay};
ghost use Rattle.rv_news.specs.News.{IsNews, IsTold, is_base_since};
ghost use Rattle.rv_news.specs.Records.{AreRecords, Rise, record_at};

use crate::base::base_of;
use crate::news::{News, clients_read, news_since};
use crate::records::Records;
use rv_base::{Id, Memory, Steps, User};
use rv_book::Book;
use rv_rows::Tables;
use rv_sharing::{keys_of, rows_seen};
use rv_turns::PullRequest;
use rv_views::{ViewRecord, record_now};
use std::alloc::Global;
use std::sync::ledger::Ledger;

/// What a pull is told at a book, or `None` where there is nothing to tell. The mark is the user's, the tables are the book's
/// replay, and the records those of its kept looks.
///
/// Where the base is a look of the pull's own group at the mark or after it, there is nothing to tell, and nothing is walked. Else
/// each row and each client that is read of the base's record and of what is seen now is a step.
pub fn news_for<L: Ledger>(
    alloc: Global,
    book: &Book,
    tables: &Tables,
    records: &Records,
    mark: u32,
    user: &User,
    request: &PullRequest,
    steps: &mut Steps<L>,
) -> Result<Option<News>, Memory>
    requires lawful { IsLawful book.now.book }
    requires replay { IsReplay book.now.book tables.now.rows }
    requires records { AreRecords book.now.book records.now.records }
    requires mark { IsMark user.now book.now.book mark }
    ensures told { IfOk result (IsTold book.now.book user.now request.now) }
    ensures since { IsTrue (is_base_since mark user.now request.now book.now.book) → (result ≡ Ok None) × (steps.new ≡ steps.old) }
    ensures most { steps.new ≤ steps.old + pull_steps user.now request.now book.now.book }
{
    let base = base_of(book, user, &request.cookie);
    if is_since(book, user, request, base, mark) {
        return Ok(None);
    }
    let news = news_walked(alloc, book, tables, records, base, user, request, steps)?;
    if news.is_empty() {
        Ok(None)
    } else {
        Ok(Some(news))
    }
}

// What a pull with this base is told, by a walk along the base's record and what is seen now.
fn news_walked<L: Ledger>(
    alloc: Global,
    book: &Book,
    tables: &Tables,
    records: &Records,
    base: Option<u32>,
    user: &User,
    request: &PullRequest,
    steps: &mut Steps<L>,
) -> Result<News, Memory>
    requires replay { IsReplay book.now.book tables.now.rows }
    requires records { AreRecords book.now.book records.now.records }
    requires base { base ≡ base_of user.now request.now.cookie book.now.book }
    ensures news { IfOk result (λ news. IsNews book.now.book user.now request.now news) }
    ensures most { steps.new ≤ steps.old + pull_steps user.now request.now book.now.book }
{
    let clients = clients_read(alloc, book, &request.group, steps)?;
    let rows = rows_seen(alloc, tables, user, steps)?;
    let view = record_now(keys_of(alloc, &rows)?, clients)?;
    let found = base_record(records, base);
    news_since(alloc, tables, base, found, &rows, view, steps)
}

// The record of a base.
fn base_record(records: &Records, base: Option<u32>) -> Option<&ViewRecord>
    requires { Rise records.now.records }
    ensures { option_map (λ r. r.now) result ≡ option_and_then (λ place. record_at place records.now.records) base }
{
    records.get(base?)
}

// Whether the look at a place is of a group.
fn is_look_of(book: &Book, group: &Id, place: u32) -> bool
    ensures { result ≡ is_look_at group.now book.now.book place }
{
    match book.look(place) {
        Some(look) => look.group == group,
        None => false,
    }
}

// Whether the base of a pull is a look of the pull's own group, at the user's mark or after it: then the user sees the same
// as there, no client of the group has acted since, and there is nothing to tell. Takes no memory, and no walk.
fn is_since(book: &Book, user: &User, request: &PullRequest, base: Option<u32>, mark: u32) -> bool
    requires lawful { IsLawful book.now.book }
    requires base { base ≡ base_of user.now request.now.cookie book.now.book }
    requires mark { IsMark user.now book.now.book mark }
    ensures value { result ≡ is_base_since mark user.now request.now book.now.book }
    ensures unchanged { IsTrue result → IsUnchanged user.now request.now book.now.book }
{
    match base {
        Some(place) => mark <= place && is_look_of(book, &request.group, place),
        None => false,
    }
}
