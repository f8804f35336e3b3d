// Settling what is in doubt, and turns where nothing is.
ghost use Rattle.std.specs.Prelude.{◌≡◌, ◌≤◌, ◌+◌, None};
ghost use Rattle.rv_history.specs.Reading.{turn_steps};
ghost use Rattle.rv_turns.specs.Asks.{ask_of};
ghost use Rattle.rv_doubt.specs.Keeping.{keep_trouble};
ghost use Rattle.rv_doubt.specs.Kept.{Assures, KeepsBook};
ghost use Rattle.rv_doubt.specs.Settling.{HasSettled, IsFound, settle_trouble};
ghost use Rattle.rv_desk.specs.DeskStates.{DeskTakes, served};
ghost use Rattle.rv_desk.specs.Stepping.{HasStepped};

use crate::desk::Desk;
use rv_base::{Fault, Steps};
use rv_doubt::settle;
use rv_keeper::Keeper;
use rv_turns::{Asked, Outcome, Refusal, Trouble};
use std::sync::ledger::Ledger;

impl<K: Keeper> Desk<K> {
    /// Settles what is in doubt, if anything is: it is entered where it was kept, and dropped where it was not. Where the keeper
    /// does not say so, it stays in doubt. Every turn does this first. Takes no memory.
    pub fn settle(&mut self) -> Result<(), Trouble>
        ensures settled { HasSettled (served K.faults self.old) result (served K.faults self.new) }
        ensures assured { Assures K.tells K.fails_no_more self.old.keeper (settle_trouble result) self.new.keeper }
        ensures found { IsFound K.asks self.old.book self.old.keeper (settle_trouble result) self.new.keeper }
        ensures kept { KeepsBook K.Keeper self.new.keeper self.new.book self.new.doubt }
    {
        settle(&mut self.state, &mut self.doubt, &mut self.keeper)
    }

    /// A turn where nothing is in doubt. Of a pull each row and each client that is read of its base's record and of what is seen
    /// now is a step.
    pub fn take_settled<L: Ledger>(&mut self, asked: Asked<'_>, steps: &mut Steps<L>) -> Outcome
        requires { self.old.doubt ≡ None }
        ensures turn { DeskTakes K.Keeper self.old (ask_of asked.entry) result self.new }
        ensures most { steps.new ≤ steps.old + turn_steps (ask_of asked.entry) self.old.book }
    {
        let stepped = self.step(asked, steps);
        // The book is kept.
        self.book().fits();
        match stepped {
            Ok(outcome) => outcome,
            Err(Fault::Failed) => Outcome::Refused(Refusal::Trouble(Trouble::Keeper)),
            Err(Fault::Memory) => Outcome::Refused(Refusal::Memory),
        }
    }

    // A step where nothing is in doubt.
    fn step<L: Ledger>(&mut self, asked: Asked<'_>, steps: &mut Steps<L>) -> Result<Outcome, Fault>
        requires settled { self.old.doubt ≡ None }
        ensures stepped { HasStepped (served K.faults self.old) (ask_of asked.entry) result (served K.faults self.new) }
        ensures assured { Assures K.tells K.fails_no_more self.old.keeper (keep_trouble result) self.new.keeper }
        ensures most { steps.new ≤ steps.old + turn_steps (ask_of asked.entry) self.old.book }
    {
        match asked {
            Asked::Mutation {
                user,
                group,
                client,
                id,
                call,
            } => self.run(user, group, client, id, call),
            Asked::Pull { user, request } => self.answer(user, request, steps),
            Asked::Retirement { group } => self.end_group(group),
            Asked::Closing => self.end_book(),
        }
    }
}
