// The turns of a seat.
ghost use Rattle.std.specs.Prelude.{◌≡◌, ◌<◌, None};
ghost use Rattle.rv_turns.specs.Asks.{Ask, IsClosing, ask_of};
ghost use Rattle.rv_room.specs.SeatMarks.{IsSeatMark};
ghost use Rattle.rv_room.specs.SeatTurns.{IsSeatTurn, IsSeatTurnWithin, SettlesSo};
ghost use Rattle.rv_room.specs.Seats.{id_of, room_of, view_of};

use crate::room::Room;
use crate::seat::Seat;
use crate::turned::Turned;
use rv_base::{Id, Num, Steps, User};
use rv_keeper::Keeper;
use rv_rows::Call;
use rv_turns::{Asked, Outcome, PullRequest, Refusal};
use std::marker::Brand;
use std::sync::Wait;
use std::sync::ledger::{Blank, Ledger};

impl<K: Keeper> Room<K> {
    /// A turn of a seat: it waits for the turn, and then the desk takes one. It asks anything but that the book be closed.
    pub fn turn(&self, rt: &impl Wait, seat: &mut Seat<K>, asked: Asked<'_>) -> Outcome
        requires room { room_of seat.old ≡ id_of self.now }
        requires asks { ¬ IsClosing (ask_of asked) }
        ensures same { room_of seat.new ≡ room_of seat.old }
        ensures turn { IsSeatTurn K.Keeper (view_of seat.old) (ask_of asked.entry) result (view_of seat.new) }
    {
        self.turned(rt, seat, asked).outcome
    }

    /// The same, with what the turn settled.
    pub(crate) fn turned(&self, rt: &impl Wait, seat: &mut Seat<K>, asked: Asked<'_>) -> Turned
        requires room { room_of seat.old ≡ id_of self.now }
        requires asks { ¬ IsClosing (ask_of asked) }
        ensures same { room_of seat.new ≡ room_of seat.old }
        ensures turn { IsSeatTurn K.Keeper (view_of seat.old) (ask_of asked.entry) result.outcome (view_of seat.new) }
        ensures settles { SettlesSo (view_of seat.old) result.settled (view_of seat.new) }
    {
        turn_from::<_, K, Brand>(rt, self, seat, asked, Blank::new(1))
    }

    /// The same. Of a pull each row and each client that is read of its base's record and of what is seen now is a step.
    pub fn turn_counted<L: Ledger>(
        &self,
        rt: &impl Wait,
        seat: &mut Seat<K>,
        asked: Asked<'_>,
        steps: &mut Steps<L>,
    ) -> Outcome
        requires room { room_of seat.old ≡ id_of self.now }
        requires asks { ¬ IsClosing (ask_of asked) }
        ensures same { room_of seat.new ≡ room_of seat.old }
        ensures turn { IsSeatTurnWithin K.Keeper (view_of seat.old) (ask_of asked.entry) result (view_of seat.new) steps.old steps.new }
    {
        self.turned_counted(rt, seat, asked, steps).outcome
    }

    // The same, with what the turn settled.
    fn turned_counted<L: Ledger>(
        &self,
        rt: &impl Wait,
        seat: &mut Seat<K>,
        asked: Asked<'_>,
        steps: &mut Steps<L>,
    ) -> Turned
        requires room { room_of seat.old ≡ id_of self.now }
        requires asks { ¬ IsClosing (ask_of asked) }
        ensures same { room_of seat.new ≡ room_of seat.old }
        ensures turn { IsSeatTurnWithin K.Keeper (view_of seat.old) (ask_of asked.entry) result.outcome (view_of seat.new) steps.old steps.new }
        ensures settles { SettlesSo (view_of seat.old) result.settled (view_of seat.new) }
    {
        let token = &mut seat.token;
        let mut desk = self.begin(rt, token);
        let began = desk.book().len();
        match desk.settle() {
            Ok(()) => {
                let settled = desk.book().len();
                let outcome = desk.take_settled(asked, steps);
                let now = desk.book().len();
                self.end(token, desk, began, settled, now);
                Turned {
                    outcome,
                    settled: settled - began,
                }
            }
            Err(trouble) => {
                self.end_held(token, desk);
                Turned {
                    outcome: Outcome::Refused(Refusal::Trouble(trouble)),
                    settled: 0,
                }
            }
        }
    }

    /// One mutation of a client, as a turn of a seat.
    ///
    /// Nothing in the program calls it, whose connections take turns by [`SeatTurns`](crate::SeatTurns): it is for who holds a seat alone.
    pub fn turn_mutate(
        &self,
        rt: &impl Wait,
        seat: &mut Seat<K>,
        user: &User,
        group: &Id,
        client: &Id,
        id: Num,
        call: Call,
    ) -> Outcome
        requires { room_of seat.old ≡ id_of self.now }
        ensures same { room_of seat.new ≡ room_of seat.old }
        ensures turn { IsSeatTurn K.Keeper (view_of seat.old) (Ask.mutation (record { user = user.now; group = group.now }) (record { client = client.now; id = id; call = call })) result (view_of seat.new) }
    {
        self.turn(
            rt,
            seat,
            Asked::Mutation {
                user,
                group,
                client,
                id,
                call,
            },
        )
    }

    /// One pull, as a turn of a seat. It takes at most as many steps as its base's record and what is seen now have rows and clients.
    ///
    /// Nothing in the program calls it, whose connections take turns by [`SeatTurns`](crate::SeatTurns): it is for who holds a seat alone.
    pub fn turn_pull<L: Ledger>(
        &self,
        rt: &impl Wait,
        seat: &mut Seat<K>,
        user: &User,
        request: &PullRequest,
        steps: &mut Steps<L>,
    ) -> Outcome
        requires { room_of seat.old ≡ id_of self.now }
        ensures same { room_of seat.new ≡ room_of seat.old }
        ensures turn { IsSeatTurnWithin K.Keeper (view_of seat.old) (Ask.pull user.now request.now) result (view_of seat.new) steps.old steps.new }
    {
        self.turn_counted(rt, seat, Asked::Pull { user, request }, steps)
    }

    /// One retirement of a client group, as a turn of a seat.
    ///
    /// Nothing in the program calls it, whose connections take turns by [`SeatTurns`](crate::SeatTurns): it is for who holds a seat alone.
    pub fn turn_retire(&self, rt: &impl Wait, seat: &mut Seat<K>, group: &Id) -> Outcome
        requires { room_of seat.old ≡ id_of self.now }
        ensures same { room_of seat.new ≡ room_of seat.old }
        ensures turn { IsSeatTurn K.Keeper (view_of seat.old) (Ask.retirement group.now) result (view_of seat.new) }
    {
        self.turn(rt, seat, Asked::Retirement { group })
    }

    /// The mark of a user, in a turn of a seat, which leaves the desk as it is: what is in doubt stays in doubt. Takes no memory.
    pub fn turn_mark(&self, rt: &impl Wait, seat: &mut Seat<K>, user: &User) -> u32
        requires { room_of seat.old ≡ id_of self.now }
        ensures same { room_of seat.new ≡ room_of seat.old }
        ensures mark { IsSeatMark K.Keeper (view_of seat.old) user.now result (view_of seat.new) }
    {
        let token = &mut seat.token;
        let desk = self.begin(rt, token);
        let mark = desk.mark(user);
        self.end_held(token, desk);
        mark
    }
}

// A turn of a seat, with a count of its own.
fn turn_from<R: Wait, K: Keeper, L: Ledger>(
    rt: &R,
    room: &Room<K>,
    seat: &mut Seat<K>,
    asked: Asked<'_>,
    blank: Blank,
) -> Turned
    requires room { room_of seat.old ≡ id_of room.now }
    requires asks { ¬ IsClosing (ask_of asked) }
    requires name { blank.name ≡ L.name }
    requires parts { (blank.parts ≡ L.parts) × (0 < L.parts) }
    ensures same { room_of seat.new ≡ room_of seat.old }
    ensures turn { IsSeatTurn K.Keeper (view_of seat.old) (ask_of asked.entry) result.outcome (view_of seat.new) }
    ensures settles { SettlesSo (view_of seat.old) result.settled (view_of seat.new) }
{
    let mut steps = Steps::<L>::new(blank);
    room.turned_counted(rt, seat, asked, &mut steps)
}
