ghost use Rattle.std.specs.Prelude.{◌≡◌, ◌<◌};
ghost use Rattle.rv_keeper.specs.Cells.{AreCells};
ghost use Rattle.rv_desk.specs.Opened.{IsLoaded, OpensOrNot, OpensLoaded, ReopensOrNot};
ghost use Rattle.rv_desk.specs.DeskStates.{DeskTakes};
ghost use Rattle.rv_turns.specs.Asks.{ask_of};

use crate::open_fault::OpenFault;
use rv_base::{Fault, Id, Num, Steps, User};
use rv_book::Book;
use rv_keeper::{Keeper, Loaded};
use rv_news::Records;
use rv_record::CellFault;
use rv_rows::{Call, Tables};
use rv_state::{Prepared, State};
use rv_store::restore;
use rv_turns::{Asked, Outcome, PullRequest, Refusal, Turns};
use std::alloc::Global;
use std::marker::{Brand, Model};
use std::sync::ledger::{Blank, Ledger};

/// One sequential server over what keeps it.
///
/// What was to be entered, an entry or the closed book, is in doubt where its commit failed, since it may have been kept;
/// [`Desk::book`], [`Desk::tables`] and [`Desk::records`] speak of the book without it. The next turn settles it.
pub struct Desk<K: Keeper> {
    pub(crate) state: State,
    pub(crate) doubt: Option<Prepared>,
    pub(crate) keeper: K,
    pub(crate) alloc: Global,
}

impl<K: Keeper> Model for Desk<K> {
    ghost use Rattle.std.specs.Prelude.{option_map};
    ghost use Rattle.rv_state.specs.Ready.{next_of};
    ghost use Rattle.rv_doubt.specs.Kept.{AreInStep, LeavesInStep};
    ghost use Rattle.rv_desk.specs.DeskStates.{DeskState};

    ghost Value = { DeskState K };

    ghost view = { λ d. record { book = d.state.book; limit = d.state.limit; doubt = option_map next_of d.doubt; keeper = d.keeper } };

    ghost invariant = { λ d. AreInStep d.state d.doubt (K.tells d.keeper) (K.holds d.keeper) × LeavesInStep d.state d.doubt (K.honest d.keeper) (K.may_leave d.keeper) };
}

impl<K: Keeper> Desk<K> {
    ghost use Rattle.std.specs.List.{AllByRecursion};
    ghost use Rattle.rv_history.specs.Lawful.{IsLawful};
    ghost use Rattle.rv_history.specs.Marks.{IsMark};
    ghost use Rattle.rv_history.specs.Replay.{IsReplay};
    ghost use Rattle.rv_history.specs.Served.{MayStand};
    ghost use Rattle.rv_keeper.specs.declared.loaded.Loaded.{Loaded};
    ghost use Rattle.rv_news.specs.Records.{AreRecords};
    ghost use Rattle.rv_record.specs.PageCells.{PartsFit};
    ghost use Rattle.rv_record.specs.EntryReading.{EntryFits};
    ghost use Rattle.rv_doubt.specs.Kept.{HoldsBook, KeepsBook, LeavesBook};
    ghost use Rattle.rv_desk.specs.DeskStates.{DeskKeeps, IsSoundDesk};

    /// The desk of the book that the keeper holds, which may grow to this length. Whatever is kept is left as it is. The refusals
    /// give the keeper back: the keeper failed, and its count of faults rose; the cells are not just those of a lawful book of at
    /// most this length, first at this place; or memory was refused.
    pub fn open(alloc: Global, keeper: K, limit: u32) -> Result<Desk<K>, (OpenFault, K)>
        ensures { OpensOrNot K.Keeper limit keeper result }
    {
        let mut keeper = keeper;
        match keeper.load() {
            Ok(loaded) => Desk::open_loaded(alloc, keeper, loaded, limit),
            Err(Fault::Failed) => Err((OpenFault::Keeper, keeper)),
            Err(Fault::Memory) => Err((OpenFault::Memory, keeper)),
        }
    }

    /// Opens the desk again from what its keeper holds, as it opens where it was closed before: what was in doubt is settled by that. The
    /// refusals are those of [`Desk::open`], and leave the desk as it was.
    pub fn reopen(&mut self) -> Result<(), OpenFault>
        ensures { ReopensOrNot K.Keeper self.old result self.new }
    {
        let limit = self.state.book().limit();
        match self.keeper.load() {
            Ok(loaded) => match restore(self.alloc, loaded, limit) {
                Ok(state) => {
                    self.state = state;
                    self.doubt = None;
                    Ok(())
                }
                Err(CellFault::BadCell(damage)) => Err(OpenFault::Damaged(damage)),
                Err(CellFault::Memory) => Err(OpenFault::Memory),
            },
            Err(Fault::Failed) => Err(OpenFault::Keeper),
            Err(Fault::Memory) => Err(OpenFault::Memory),
        }
    }

    /// The book, without what is in doubt. Takes no memory.
    pub fn book(&self) -> &Book
        ensures book { result.now.book ≡ self.now.book }
        ensures limit { result.now.limit ≡ self.now.limit }
        ensures lawful { IsLawful self.now.book }
        ensures fits { AllByRecursion EntryFits self.now.book.entries }
        ensures parts { PartsFit self.now.book.page }
        ensures next { MayStand self.now.book self.now.limit self.now.doubt }
        ensures held { K.tells self.now.keeper → HoldsBook (K.holds self.now.keeper) self.now.book self.now.doubt }
        ensures left { K.honest self.now.keeper → LeavesBook (K.may_leave self.now.keeper) self.now.book self.now.doubt }
    {
        self.state.book()
    }

    /// The rows that the book leaves, each with the place of its last write. Takes no memory.
    pub fn tables(&self) -> &Tables
        ensures { IsReplay self.now.book result.now.rows }
    {
        self.state.tables()
    }

    /// The view records of the looks that the book keeps. Takes no memory.
    pub fn records(&self) -> &Records
        ensures { AreRecords self.now.book result.now.records }
    {
        self.state.records()
    }

    /// The mark of a user in the book, without what is in doubt: the greatest place of an act that is by the user, or after which what the
    /// user sees is another; where there is none that of the book's page, and 0 without one. Takes no memory.
    pub fn mark(&self, user: &User) -> u32
        ensures mark { IsMark user.now self.now.book result }
        ensures kept { KeepsBook K.Keeper self.now.keeper self.now.book self.now.doubt }
    {
        self.state.mark(user)
    }

    /// The keeper, as it stands. Takes no memory.
    pub fn keeper(&self) -> &K
        ensures { result.now ≡ self.now.keeper }
    {
        &self.keeper
    }

    /// Gives the keeper back as it is. What is in doubt is dropped, unsettled.
    pub fn close(self) -> K
        ensures keeper { result ≡ self.keeper }
        ensures sound { IsSoundDesk self }
        ensures kept { DeskKeeps K.Keeper self }
    {
        // The book is lawful, and within its limit.
        self.state.book().fits();
        let Desk {
            state: _state,
            doubt: _doubt,
            keeper,
            alloc: _alloc,
        } = self;
        keeper
    }

    // The desk of what was loaded from the keeper.
    fn open_loaded(
        alloc: Global,
        keeper: K,
        loaded: Loaded,
        limit: u32,
    ) -> Result<Desk<K>, (OpenFault, K)>
        requires order { AreCells loaded.cells }
        requires holds { K.tells keeper → K.holds keeper loaded }
        requires left { K.honest keeper → IsLoaded (K.may_leave keeper) loaded }
        ensures { OpensLoaded K.Keeper limit loaded keeper result }
    {
        match restore(alloc, loaded, limit) {
            Ok(state) => Ok(Desk {
                state,
                doubt: None,
                keeper,
                alloc,
            }),
            Err(CellFault::BadCell(damage)) => Err((OpenFault::Damaged(damage), keeper)),
            Err(CellFault::Memory) => Err((OpenFault::Memory, keeper)),
        }
    }
}

impl<K: Keeper> Turns for Desk<K> {
    ghost use Rattle.rv_desk.specs.DeskStates.{DeskTakes};

    ghost takes = { DeskTakes K.Keeper };

    ghost closes = { Unit };

    fn take(&mut self, asked: Asked<'_>) -> Outcome {
        take_from::<K, Brand>(self, asked, Blank::new(1))
    }
}

// A turn, with a count of its own.
fn take_from<K: Keeper, L: Ledger>(desk: &mut Desk<K>, asked: Asked<'_>, blank: Blank) -> Outcome
    requires name { blank.name ≡ L.name }
    requires parts { (blank.parts ≡ L.parts) × (0 < L.parts) }
    ensures { DeskTakes K.Keeper desk.old (ask_of asked.entry) result desk.new }
{
    let mut steps = Steps::<L>::new(blank);
    desk.take_counted(asked, &mut steps)
}

impl<K: Keeper> Desk<K> {
    ghost use Rattle.rv_turns.specs.Asks.{Ask, ask_of};
    ghost use Rattle.rv_desk.specs.DeskStates.{DeskTakes, DeskTakesWithin};

    /// Takes a turn. Of a pull each row and each client that is read of its base's record and of what is seen now is a step.
    pub fn take_counted<L: Ledger>(&mut self, asked: Asked<'_>, steps: &mut Steps<L>) -> Outcome
        ensures { DeskTakesWithin K.Keeper self.old (ask_of asked.entry) result self.new steps.old steps.new }
    {
        match self.settle() {
            Ok(()) => self.take_settled(asked, steps),
            Err(trouble) => Outcome::Refused(Refusal::Trouble(trouble)),
        }
    }

    /// One mutation of a client. Takes no memory unless it is run, and after every refusal but `Trouble::Keeper` all is as before, once
    /// what was in doubt is settled.
    pub fn mutate(&mut self, user: &User, group: &Id, client: &Id, id: Num, call: Call) -> Outcome
        ensures { DeskTakes K.Keeper self.old (Ask.mutation (record { user = user.now; group = group.now }) (record { client = client.now; id = id; call = call })) result self.new }
    {
        self.take(Asked::Mutation {
            user,
            group,
            client,
            id,
            call,
        })
    }

    /// One pull. After every refusal but `Trouble::Keeper` all is as before, once what was in doubt is settled. It takes at most as many
    /// steps as its base's record and what is seen now have rows and clients.
    pub fn pull<L: Ledger>(
        &mut self,
        user: &User,
        request: &PullRequest,
        steps: &mut Steps<L>,
    ) -> Outcome
        ensures { DeskTakesWithin K.Keeper self.old (Ask.pull user.now request.now) result self.new steps.old steps.new }
    {
        self.take_counted(Asked::Pull { user, request }, steps)
    }

    /// Retires a client group, for good. After every refusal but `Trouble::Keeper` all is as before, once what was in doubt is settled.
    pub fn retire(&mut self, group: &Id) -> Outcome
        ensures { DeskTakes K.Keeper self.old (Ask.retirement group.now) result self.new }
    {
        self.take(Asked::Retirement { group })
    }

    /// Closes the book: the page that sums it up, at the place after its last, comes in the place of its entries, in one commit. After
    /// every refusal but `Trouble::Keeper` all is as before, once what was in doubt is settled.
    pub fn close_book(&mut self) -> Outcome
        ensures { DeskTakes K.Keeper self.old Ask.closing result self.new }
    {
        self.take(Asked::Closing)
    }
}
