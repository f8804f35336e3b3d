ghost use Rattle.std.specs.Prelude.{◌≡◌, ◌≤◌, ◌<◌, ◌+◌, ℕ, List, length, IsTrue, IfOk, OnOk, None, Ok};
ghost use Rattle.rv_rows.specs.Changes.{after};
ghost use Rattle.rv_rows.specs.Held.{rows_in};
ghost use Rattle.rv_mutators.specs.Staging.{staged, with_staged};
ghost use Rattle.rv_book.specs.declared.entry.Entry.TheVariants.{Act, Look, Retire};
ghost use Rattle.rv_book.specs.Book.{empty_book, size};
ghost use Rattle.rv_news.specs.News.{IsNews, IsTold, is_base_since};

use crate::known::{find, find_group, with_known_list, with_known_names};
use crate::marks::UserMarks;
use crate::prepared::{Prepared, PreparedAct, PreparedLook};
use rv_base::{Id, Memory, Num, Steps, User};
use rv_book::{Book, BookFault, Entry, Found};
use rv_mutators::{Staged, stage};
use rv_news::{News, Records, news_for, view_now};
use rv_record::{act_fits, id_fits, look_fits};
use rv_rows::{Call, Tables, Users};
use rv_sharing::add_user;
use rv_turns::{PullReply, PullRequest};
use rv_views::ViewRecord;
use rv_wire::look_reply;
use std::alloc::Global;
use std::marker::Model;
use std::sync::ledger::Ledger;

/// The state of one server in memory: its book, and beside it the tables, which are the book's replay, the view records of the
/// looks that the book keeps, and the users' marks.
///
/// What is entered, an entry or the closed book, comes in two steps. To prepare it takes all the memory that it needs, and changes
/// nothing but the space that there is; to enter it takes none and can't fail. It may be entered at any later time, while nothing else was.
#[derive(Debug, Drop)]
pub struct State {
    pub(crate) book: Book,
    pub(crate) tables: Tables,
    pub(crate) records: Records,
    pub(crate) marks: UserMarks,
    pub(crate) alloc: Global,
}

impl Model for State {
    ghost use Rattle.std.specs.List.{AllByRecursion};
    ghost use Rattle.rv_history.specs.Lawful.{IsLawful};
    ghost use Rattle.rv_history.specs.Replay.{IsReplay};
    ghost use Rattle.rv_news.specs.Records.{AreRecords};
    ghost use Rattle.rv_record.specs.EntryReading.{EntryFits};
    ghost use Rattle.rv_state.specs.Standing.{IsWithin, Standing};
    ghost use Rattle.rv_record.specs.PageCells.{PartsFit};
    ghost use Rattle.rv_state.specs.UserMarks.{AreMarks};

    ghost Value = { Standing };

    ghost view = { λ s. record {
      book = s.book.book;
      limit = s.book.limit;
      spare_entries = s.book.spare;
      rows = s.tables.rows;
      spare_rows = s.tables.spare;
      records = s.records.records;
      spare_views = s.records.spare;
      marks = s.marks.marks;
      spare_marks = s.marks.spare;
    } };

    ghost invariant = { λ s. IsLawful s.book.book × IsReplay s.book.book s.tables.rows × AreRecords s.book.book s.records.records ×
        AllByRecursion EntryFits s.book.book.entries × AreMarks s.book.book s.marks.marks × PartsFit s.book.book.page × IsWithin s.book.book s.book.limit };
}

// Makes space for an entry.
fn reserve(book: &mut Book) -> Result<(), Memory>
    requires { size book.old.book < book.old.limit }
    ensures spare_entries { OnOk result (1 ≤ book.new.spare) }
    ensures book { book.new.book ≡ book.old.book }
    ensures limit { book.new.limit ≡ book.old.limit }
{
    match book.reserve() {
        Ok(()) => Ok(()),
        Err(BookFault::Memory) => Err(Memory),
        Err(BookFault::Full) => unreachable!(),
    }
}

impl State {
    ghost use Rattle.rv_history.specs.Lawful.{IsLawful, IsLawfulAfter};
    ghost use Rattle.rv_history.specs.Reading.{pull_steps};
    ghost use Rattle.rv_history.specs.Replay.{IsReplay};
    ghost use Rattle.rv_history.specs.Bases.{base_of};
    ghost use Rattle.rv_record.specs.EntryReading.{EntryFits};
    ghost use Rattle.std.specs.List.{AllByRecursion};
    ghost use Rattle.rv_history.specs.Machine.{next_order, reply_to};
    ghost use Rattle.rv_history.specs.Served.{Next, with_next};
    ghost use Rattle.rv_history.specs.Marks.{AreConcerned, IsMark};
    ghost use Rattle.rv_news.specs.Records.{AreRecords, IsViewAt};
    ghost use Rattle.rv_record.specs.PageCells.{PartsFit};
    ghost use Rattle.rv_wire.specs.Answers.{pull_json};
    ghost use Rattle.rv_state.specs.Ready.{IsPrepared, next_of};
    ghost use Rattle.rv_state.specs.Standing.{IsWithin};

    /// The state of the empty book, which may grow to this length.
    pub fn new(alloc: Global, limit: u32) -> State
        ensures book { result.book ≡ empty_book }
        ensures limit { result.limit ≡ limit }
    {
        State {
            book: Book::new(alloc, limit),
            tables: Tables::new(alloc),
            records: Records::new(alloc),
            marks: UserMarks::new(alloc),
            alloc,
        }
    }

    /// The book. Takes no memory.
    pub fn book(&self) -> &Book
        ensures book { result.now.book ≡ self.now.book }
        ensures limit { result.now.limit ≡ self.now.limit }
        ensures lawful { IsLawful self.now.book }
        ensures fits { AllByRecursion EntryFits self.now.book.entries }
        ensures parts { PartsFit self.now.book.page }
        ensures within { IsWithin self.now.book self.now.limit }
        ensures rows { IsReplay self.now.book self.now.rows }
    {
        &self.book
    }

    /// The rows that the book leaves, each with the place of its last write. Takes no memory.
    pub fn tables(&self) -> &Tables
        ensures { IsReplay self.now.book result.now.rows }
    {
        &self.tables
    }

    /// The view records of the looks that the book keeps. Takes no memory.
    pub fn records(&self) -> &Records
        ensures { AreRecords self.now.book result.now.records }
    {
        &self.records
    }

    /// The mark of a user: the greatest place of an act that is by the user, or after which what the user sees is another; where there is
    /// none that of the book's page, and 0 without one. Takes no memory.
    pub fn mark(&self, user: &User) -> u32
        ensures { IsMark user.now self.now.book result }
    {
        self.marks.of(user, self.book.opened_at())
    }

    /// What a pull is told, or `None` where there is nothing to tell. Where its base is a look of its own group at its user's mark or
    /// after it, that is known from the mark, without a walk; else each row and each client that is read of its base's record and
    /// of what is seen now is a step.
    pub fn news<L: Ledger>(
        &self,
        user: &User,
        request: &PullRequest,
        steps: &mut Steps<L>,
    ) -> Result<Option<News>, Memory>
        ensures told { IfOk result (IsTold self.now.book user.now request.now) }
        ensures since { (mark : ℕ) → IsMark user.now self.now.book mark → IsTrue (is_base_since mark user.now request.now self.now.book) → (result ≡ Ok None) × (steps.new ≡ steps.old) }
        ensures most { steps.new ≤ steps.old + pull_steps user.now request.now self.now.book }
    {
        news_for(
            self.alloc,
            &self.book,
            &self.tables,
            &self.records,
            self.mark(user),
            user,
            request,
            steps,
        )
    }

    /// Prepares the act of a mutation that is to be run next, whose group and client were found in the book.
    pub fn prepare_act(
        &mut self,
        user: &User,
        group: &Id,
        client: &Id,
        id: Num,
        call: Call,
        found: Found,
    ) -> Result<Prepared, Memory>
        requires within_limit { size self.old.book < self.old.limit }
        requires lawful { IsLawfulAfter self.old.book (Act user.now group.now client.now id call) }
        ensures prepared { IfOk result (λ prepared. IsPrepared self.new prepared) }
        ensures entry { IfOk result (λ prepared. next_of prepared ≡ Next.entry (Act user.now group.now client.now id call)) }
        ensures book { self.new.book ≡ self.old.book }
        ensures limit { self.new.limit ≡ self.old.limit }
    {
        let user = user.copy(self.alloc)?;
        let group = group.copy(self.alloc)?;
        let client = client.copy(self.alloc)?;
        self.ready_act(user, group, client, id, call, found)
    }

    /// Prepares the look of a pull that is told this, whose group was found in the book, and makes its reply.
    pub fn prepare_look(
        &mut self,
        user: &User,
        request: &PullRequest,
        order: Num,
        news: News,
        found: Found,
    ) -> Result<(PullReply, Prepared), Memory>
        requires within_limit { size self.old.book < self.old.limit }
        requires order { order ≡ next_order request.now self.old.book }
        requires news { IsNews self.old.book user.now request.now news }
        requires lawful { IsLawfulAfter self.old.book (Look user.now request.now.group order news.base) }
        ensures prepared { IfOk result (λ made. IsPrepared self.new made.1) }
        ensures entry { IfOk result (λ made. next_of made.1 ≡ Next.entry (Look user.now request.now.group order (base_of user.now request.now.cookie self.old.book))) }
        ensures reply { IfOk result (λ made. made.0 ≡ reply_to pull_json user.now request.now self.old.book) }
        ensures book { self.new.book ≡ self.old.book }
        ensures limit { self.new.limit ≡ self.old.limit }
    {
        let News {
            base,
            view,
            ops,
            ids,
        } = news;
        let place = self.book.len() + 1;
        let reply = look_reply(self.alloc, place, order, ids, ops)?;
        let user = user.copy(self.alloc)?;
        let group = request.group.copy(self.alloc)?;
        let prepared = self.ready_look(user, group, order, base, view, found)?;
        Ok((reply, prepared))
    }

    /// Prepares the retirement of a client group.
    pub fn prepare_retirement(&mut self, group: &Id) -> Result<Prepared, Memory>
        requires within_limit { size self.old.book < self.old.limit }
        requires lawful { IsLawfulAfter self.old.book (Retire group.now) }
        ensures prepared { IfOk result (λ prepared. IsPrepared self.new prepared) }
        ensures entry { IfOk result (λ prepared. next_of prepared ≡ Next.entry (Retire group.now)) }
        ensures book { self.new.book ≡ self.old.book }
        ensures limit { self.new.limit ≡ self.old.limit }
    {
        let group = group.copy(self.alloc)?;
        self.ready_retirement(group)
    }

    // The users whom an act of this call concerns, by what it stages.
    fn concerned(&self, user: &User, call: &Call, changes: &Staged) -> Result<Users, Memory>
        requires staged { changes.now ≡ staged (rows_in self.now.rows) user.now call.now }
        requires effect { (version : ℕ) → with_staged version changes.now self.now.rows ≡ after self.now.rows user.now call.now version }
        ensures { IfOk result (λ users. (group client : List ℕ) (id : ℕ) → AreConcerned self.now.book (Act user.now group client id call.now) users) }
    {
        let touched = changes.affected(self.alloc, &self.tables)?;
        add_user(self.alloc, touched, user)
    }

    // What an act of this call writes and removes, and the users whom it concerns, with the space that both need.
    fn stage_act(&mut self, user: &User, call: &Call) -> Result<(Staged, Users), Memory>
        ensures rows { IfOk result (λ made. length made.0.rows ≤ self.new.spare_rows) }
        ensures staged { IfOk result (λ made. made.0 ≡ staged (rows_in self.new.rows) user.now call.now) }
        ensures effect { IfOk result (λ made. (version : ℕ) → with_staged version made.0 self.new.rows ≡ after self.new.rows user.now call.now version) }
        ensures marks { IfOk result (λ made. length made.1 ≤ self.new.spare_marks) }
        ensures concerned { IfOk result (λ made. (group client : List ℕ) (id : ℕ) → AreConcerned self.new.book (Act user.now group client id call.now) made.1) }
        ensures book { self.new.book ≡ self.old.book }
        ensures limit { self.new.limit ≡ self.old.limit }
        ensures spare { self.old.spare_entries ≤ self.new.spare_entries }
    {
        let staged = stage(self.alloc, &mut self.tables, user, call)?;
        let concerned = self.concerned(user, call, &staged)?;
        self.marks.reserve(concerned.len())?;
        Ok((staged, concerned))
    }

    /// Prepares an entry that may stand next, as it was kept elsewhere.
    pub fn prepare(&mut self, entry: Entry) -> Result<Prepared, Memory>
        requires within_limit { size self.old.book < self.old.limit }
        requires lawful { IsLawfulAfter self.old.book entry }
        ensures prepared { IfOk result (λ prepared. IsPrepared self.new prepared) }
        ensures entry { IfOk result (λ prepared. next_of prepared ≡ Next.entry entry) }
        ensures book { self.new.book ≡ self.old.book }
        ensures limit { self.new.limit ≡ self.old.limit }
    {
        match entry {
            Entry::Act {
                user,
                group,
                client,
                id,
                call,
            } => {
                let found = find(&self.book, &group, &client);
                self.ready_act(user, group, client, id, call, found)
            }
            Entry::Look {
                user,
                group,
                order,
                base,
            } => {
                let view = view_now(self.alloc, &self.book, &self.tables, &user, &group)?;
                let found = find_group(&self.book, &group);
                self.ready_look(user, group, order, base, view, found)
            }
            Entry::Retire { group } => self.ready_retirement(group),
        }
    }

    // Prepares an act of these names.
    fn ready_act(
        &mut self,
        user: User,
        group: Id,
        client: Id,
        id: Num,
        call: Call,
        found: Found,
    ) -> Result<Prepared, Memory>
        requires within_limit { size self.old.book < self.old.limit }
        requires lawful { IsLawfulAfter self.old.book (Act user group client id call) }
        ensures prepared { IfOk result (λ prepared. IsPrepared self.new prepared) }
        ensures entry { IfOk result (λ prepared. next_of prepared ≡ Next.entry (Act user group client id call)) }
        ensures book { self.new.book ≡ self.old.book }
        ensures limit { self.new.limit ≡ self.old.limit }
    {
        act_fits(&user, &group, &client, id, &call);
        reserve(&mut self.book)?;
        let (staged, concerned) = self.stage_act(&user, &call)?;
        let call = with_known_list(self.alloc, &staged, call);
        Ok(Prepared::Act(PreparedAct {
            user,
            group,
            client,
            id,
            call,
            found,
            staged,
            concerned,
        }))
    }

    // Prepares a look of these names with this view record.
    fn ready_look(
        &mut self,
        user: User,
        group: Id,
        order: Num,
        base: Option<u32>,
        view: ViewRecord,
        found: Found,
    ) -> Result<Prepared, Memory>
        requires within_limit { size self.old.book < self.old.limit }
        requires lawful { IsLawfulAfter self.old.book (Look user group order base) }
        requires view { IsViewAt self.old.book user group view }
        ensures prepared { IfOk result (λ prepared. IsPrepared self.new prepared) }
        ensures entry { IfOk result (λ prepared. next_of prepared ≡ Next.entry (Look user group order base)) }
        ensures book { self.new.book ≡ self.old.book }
        ensures limit { self.new.limit ≡ self.old.limit }
    {
        look_fits(&user, &group, order, base);
        reserve(&mut self.book)?;
        self.records.reserve()?;
        let gone = self.book.falls_out(&group);
        Ok(Prepared::Look(PreparedLook {
            user,
            group,
            order,
            base,
            view,
            found,
            gone,
        }))
    }

    // Prepares the retirement of this group.
    fn ready_retirement(&mut self, group: Id) -> Result<Prepared, Memory>
        requires within_limit { size self.old.book < self.old.limit }
        requires lawful { IsLawfulAfter self.old.book (Retire group) }
        ensures prepared { IfOk result (λ prepared. IsPrepared self.new prepared) }
        ensures entry { IfOk result (λ prepared. next_of prepared ≡ Next.entry (Retire group)) }
        ensures book { self.new.book ≡ self.old.book }
        ensures limit { self.new.limit ≡ self.old.limit }
    {
        id_fits(&group);
        reserve(&mut self.book)?;
        Ok(Prepared::Retirement(group))
    }

    /// Enters what was prepared at this state. It can't fail, and takes no memory. The records of looks that are not kept any
    /// more go.
    pub fn enter(&mut self, prepared: Prepared)
        requires { IsPrepared self.old prepared }
        ensures book { self.new.book ≡ with_next self.old.book (next_of prepared) }
        ensures limit { self.new.limit ≡ self.old.limit }
    {
        let place = self.book.len() + 1;
        match prepared {
            Prepared::Act(act) => {
                let found = act.found;
                let (entry, staged, concerned) = act.into_parts();
                let entry = with_known_names(self.alloc, &self.book, entry, found);
                self.book.push_found(entry, found);
                staged.apply(&mut self.tables, place);
                self.marks.set_all(concerned, place);
            }
            Prepared::Look(look) => {
                let PreparedLook {
                    user,
                    group,
                    order,
                    base,
                    view,
                    found,
                    gone,
                } = look;
                let entry = Entry::Look {
                    user,
                    group,
                    order,
                    base,
                };
                let entry = with_known_names(self.alloc, &self.book, entry, found);
                self.book.push_found(entry, found);
                self.records.let_one_go(gone);
                self.records.push(place, view);
            }
            Prepared::Retirement(group) => {
                self.book.push_entry(Entry::Retire { group });
                self.records.let_go(&self.book);
            }
            Prepared::Closing(closed) => self.close(closed),
        }
    }
}
