// Mutations where nothing is in doubt.
ghost use Rattle.std.specs.Prelude.{◌≡◌, ◌+◌, None};
ghost use Rattle.rv_book.specs.Book.{last};
ghost use Rattle.rv_history.specs.Machine.{TakesMutation};
ghost use Rattle.rv_turns.specs.Asks.{Ask};
ghost use Rattle.rv_doubt.specs.Keeping.{keep_trouble};
ghost use Rattle.rv_doubt.specs.Kept.{Assures};
ghost use Rattle.rv_desk.specs.DeskStates.{served};
ghost use Rattle.rv_desk.specs.Stepping.{HasStepped};

use crate::desk::Desk;
use rv_base::{Fault, Id, Num, User};
use rv_book::Found;
use rv_doubt::keep;
use rv_history::{Admission, Numbering, admits, numbering_of};
use rv_keeper::Keeper;
use rv_rows::Call;
use rv_turns::{Outcome, Refusal, Which};

impl<K: Keeper> Desk<K> {
    // A mutation.
    pub(crate) fn run(
        &mut self,
        user: &User,
        group: &Id,
        client: &Id,
        id: Num,
        call: Call,
    ) -> Result<Outcome, Fault>
        requires settled { self.old.doubt ≡ None }
        ensures stepped { HasStepped (served K.faults self.old) (Ask.mutation (record { user = user.now; group = group.now }) (record { client = client.now; id = id; call = call })) result (served K.faults self.new) }
        ensures assured { Assures K.tells K.fails_no_more self.old.keeper (keep_trouble result) self.new.keeper }
    {
        let book = self.state.book();
        match admits(book, user, group) {
            Admission::OfOther => Ok(Outcome::Refused(Refusal::GroupOfOther)),
            Admission::Retired => Ok(Outcome::Refused(Refusal::NotFound)),
            Admission::Open { at: group_at } => match numbering_of(book, client, group, id) {
                Numbering::Elsewhere => Ok(Outcome::Refused(Refusal::ClientOfOther)),
                Numbering::Past { last } => Ok(Outcome::Skipped(last)),
                Numbering::Future { expected } => {
                    Ok(Outcome::Refused(Refusal::Future { expected, got: id }))
                }
                Numbering::Next { at } => {
                    let found = Found {
                        group: group_at,
                        client: at,
                    };
                    self.act(user, group, client, id, call, found)
                }
            },
        }
    }

    // The next mutation of a client of the group: its act is kept.
    fn act(
        &mut self,
        user: &User,
        group: &Id,
        client: &Id,
        id: Num,
        call: Call,
        found: Found,
    ) -> Result<Outcome, Fault>
        requires settled { self.old.doubt ≡ None }
        requires takes { TakesMutation (record { user = user.now; group = group.now }) client.now self.old.book }
        requires next { id ≡ last client.now self.old.book + 1 }
        ensures stepped { HasStepped (served K.faults self.old) (Ask.mutation (record { user = user.now; group = group.now }) (record { client = client.now; id = id; call = call })) result (served K.faults self.new) }
        ensures assured { Assures K.tells K.fails_no_more self.old.keeper (keep_trouble result) self.new.keeper }
    {
        let book = self.state.book();
        if book.is_full() {
            return Ok(Outcome::Refused(Refusal::Limit(
                Which::Book,
                Num::from_u64(u64::from(book.len())),
            )));
        }
        let place = book.len() + 1;
        let prepared = self
            .state
            .prepare_act(user, group, client, id, call, found)?;
        match keep(
            self.alloc,
            &mut self.state,
            &mut self.doubt,
            &mut self.keeper,
            prepared,
        ) {
            Ok(()) => Ok(Outcome::Acted(place)),
            Err(fault) => Err(fault),
        }
    }
}
