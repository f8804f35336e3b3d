// The desk of a room, in a box.
ghost use Rattle.std.specs.Prelude.{◌≡◌, ◌≤◌, ◌+◌, None, IfOk, IfErr};
ghost use Rattle.rv_history.specs.Marks.{IsMark};
ghost use Rattle.rv_history.specs.Reading.{turn_steps};
ghost use Rattle.rv_turns.specs.Asks.{ask_of};
ghost use Rattle.rv_doubt.specs.Kept.{Assures, KeepsBook};
ghost use Rattle.rv_doubt.specs.Settling.{HasSettled, settle_trouble};
ghost use Rattle.rv_desk.specs.DeskStates.{DeskTakes, served};

use rv_base::{Memory, Steps, User};
use rv_book::Book;
use rv_desk::Desk;
use rv_keeper::Keeper;
use rv_turns::{Asked, Outcome, Trouble};
use std::alloc::{AllocFailed, Global};
use std::marker::Model;
use std::sync::ledger::Ledger;

/// The desk that seats share, in a box, so that a turn moves the box and not the desk. Clauses see the desk.
pub struct BoxedDesk<K: Keeper> {
    desk: Box<Desk<K>>,
}

impl<K: Keeper> Model for BoxedDesk<K> {
    ghost use Rattle.rv_desk.specs.DeskStates.{DeskState};

    ghost Value = { DeskState K };

    ghost view = { λ b. b.desk.value };
}

impl<K: Keeper> BoxedDesk<K> {
    // Puts a desk into a box. Where memory is refused, the desk is given back as it was.
    pub(crate) fn new(alloc: Global, desk: Desk<K>) -> Result<BoxedDesk<K>, (Memory, Desk<K>)>
        ensures ok { IfOk result (λ boxed. boxed ≡ desk) }
        ensures err { IfErr result (λ refused. refused.1 ≡ desk) }
    {
        match Box::new(alloc, desk) {
            Ok(desk) => Ok(BoxedDesk { desk }),
            Err(AllocFailed { value }) => Err((Memory, value)),
        }
    }

    // The desk, out of its box. Takes no memory.
    pub(crate) fn into_inner(self) -> Desk<K>
        ensures { result ≡ self }
    {
        let BoxedDesk { desk } = self;
        Box::into_inner(desk)
    }

    // The desk's book.
    pub(crate) fn book(&self) -> &Book
        ensures book { result.now.book ≡ self.now.book }
    {
        self.desk.book()
    }

    // The desk settles what is in doubt.
    pub(crate) fn settle(&mut self) -> Result<(), Trouble>
        ensures settled { HasSettled (served K.faults self.old) result (served K.faults self.new) }
        ensures assured { Assures K.tells K.fails_no_more self.old.keeper (settle_trouble result) self.new.keeper }
        ensures kept { KeepsBook K.Keeper self.new.keeper self.new.book self.new.doubt }
    {
        self.desk.settle()
    }

    // The desk takes a turn where nothing is in doubt.
    pub(crate) fn take_settled<L: Ledger>(
        &mut self,
        asked: Asked<'_>,
        steps: &mut Steps<L>,
    ) -> Outcome
        requires { self.old.doubt ≡ None }
        ensures turn { DeskTakes K.Keeper self.old (ask_of asked.entry) result self.new }
        ensures most { steps.new ≤ steps.old + turn_steps (ask_of asked.entry) self.old.book }
    {
        self.desk.take_settled(asked, steps)
    }

    // The mark of a user in the desk's book.
    pub(crate) fn mark(&self, user: &User) -> u32
        ensures mark { IsMark user.now self.now.book result }
        ensures kept { KeepsBook K.Keeper self.now.keeper self.now.book self.now.doubt }
    {
        self.desk.mark(user)
    }
}
