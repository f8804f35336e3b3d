// Closing the book where nothing is in doubt.
ghost use Rattle.std.specs.Prelude.{◌≡◌, ◌<◌, None};
ghost use Rattle.rv_book.specs.Book.{size};
ghost use Rattle.rv_turns.specs.Asks.{Ask};
ghost use Rattle.rv_doubt.specs.Keeping.{keep_trouble};
ghost use Rattle.rv_doubt.specs.Kept.{Assures};
ghost use Rattle.rv_desk.specs.DeskStates.{served};
ghost use Rattle.rv_desk.specs.Stepping.{HasStepped};

use crate::desk::Desk;
use rv_base::{Fault, Num};
use rv_doubt::keep;
use rv_keeper::Keeper;
use rv_turns::{Outcome, Refusal, Which};

impl<K: Keeper> Desk<K> {
    // A closing of the book.
    pub(crate) fn end_book(&mut self) -> Result<Outcome, Fault>
        requires settled { self.old.doubt ≡ None }
        ensures stepped { HasStepped (served K.faults self.old) Ask.closing result (served K.faults self.new) }
        ensures assured { Assures K.tells K.fails_no_more self.old.keeper (keep_trouble result) self.new.keeper }
    {
        let book = self.state.book();
        if book.is_full() {
            return Ok(Outcome::Refused(Refusal::Limit(
                Which::Book,
                Num::from_u64(u64::from(book.len())),
            )));
        }
        self.enter_closing()
    }

    // Keeps the closed book. What is prepared is made and dropped here alone.
    fn enter_closing(&mut self) -> Result<Outcome, Fault>
        requires settled { self.old.doubt ≡ None }
        requires within_limit { size self.old.book < self.old.limit }
        ensures stepped { HasStepped (served K.faults self.old) Ask.closing result (served K.faults self.new) }
        ensures assured { Assures K.tells K.fails_no_more self.old.keeper (keep_trouble result) self.new.keeper }
    {
        let place = self.state.book().len() + 1;
        let prepared = self.state.prepare_closing()?;
        match keep(
            self.alloc,
            &mut self.state,
            &mut self.doubt,
            &mut self.keeper,
            prepared,
        ) {
            Ok(()) => Ok(Outcome::Closed(place)),
            Err(fault) => Err(fault),
        }
    }
}
