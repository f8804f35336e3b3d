// Retirements where nothing is in doubt.
ghost use Rattle.std.specs.Prelude.{◌≡◌, ◌<◌, ◌+◌, None, IfOk};
ghost use Rattle.rv_book.specs.declared.entry.Entry.TheVariants.{Retire};
ghost use Rattle.rv_book.specs.Book.{size};
ghost use Rattle.rv_history.specs.Lawful.{IsLawfulAfter};
ghost use Rattle.rv_history.specs.Served.{Next};
ghost use Rattle.rv_turns.specs.Asks.{Ask};
ghost use Rattle.rv_doubt.specs.Keeping.{IsKept, keep_trouble};
ghost use Rattle.rv_doubt.specs.Kept.{Assures};
ghost use Rattle.rv_desk.specs.DeskStates.{served};
ghost use Rattle.rv_desk.specs.Stepping.{HasStepped};

use crate::desk::Desk;
use rv_base::{Fault, Id, Num};
use rv_doubt::keep;
use rv_keeper::Keeper;
use rv_turns::{Outcome, Refusal, Which};

impl<K: Keeper> Desk<K> {
    // A retirement of a client group.
    pub(crate) fn end_group(&mut self, group: &Id) -> Result<Outcome, Fault>
        requires settled { self.old.doubt ≡ None }
        ensures stepped { HasStepped (served K.faults self.old) (Ask.retirement group.now) result (served K.faults self.new) }
        ensures assured { Assures K.tells K.fails_no_more self.old.keeper (keep_trouble result) self.new.keeper }
    {
        let book = self.state.book();
        if book.bound(group).is_none() {
            return Ok(Outcome::Refused(Refusal::NoGroup));
        }
        if book.retired(group) {
            return Ok(Outcome::Refused(Refusal::NotFound));
        }
        if book.is_full() {
            return Ok(Outcome::Refused(Refusal::Limit(
                Which::Book,
                Num::from_u64(u64::from(book.len())),
            )));
        }
        match self.enter_retirement(group) {
            Ok(place) => Ok(Outcome::Retired(place)),
            Err(fault) => Err(fault),
        }
    }

    // Keeps a retirement.
    fn enter_retirement(&mut self, group: &Id) -> Result<u32, Fault>
        requires settled { self.old.doubt ≡ None }
        requires within_limit { size self.old.book < self.old.limit }
        requires lawful { IsLawfulAfter self.old.book (Retire group.now) }
        ensures kept { IsKept (served K.faults self.old) (Next.entry (Retire group.now)) result (served K.faults self.new) }
        ensures assured { Assures K.tells K.fails_no_more self.old.keeper (keep_trouble result) self.new.keeper }
        ensures place { IfOk result (λ place. place ≡ size self.old.book + 1) }
    {
        let place = self.state.book().len() + 1;
        let prepared = self.state.prepare_retirement(group)?;
        keep(
            self.alloc,
            &mut self.state,
            &mut self.doubt,
            &mut self.keeper,
            prepared,
        )?;
        Ok(place)
    }
}
