ghost use Rattle.std.specs.Prelude.{◌≡◌, ◌≤◌};
ghost use Rattle.rv_book.specs.Book.{size};
ghost use Rattle.rv_room.specs.Seats.{id_of, room_of, view_of};

use crate::room::Room;
use crate::seat::Seat;
use crate::turned::Turned;
use rv_base::User;
use rv_keeper::Keeper;
use rv_turns::{Asked, CountsSettled, Marks, Outcome, Turns};
use std::sync::Wait;

/// A seat that takes turns in its room, tells marks, and counts what its turns have settled.
#[derive(Drop)]
pub struct SeatTurns<'a, R: Wait, K: Keeper> {
    rt: &'a R,
    room: &'a Room<K>,
    seat: Seat<K>,
    // How many entries that had been in doubt its turns have entered.
    settled: u32,
    ghost at: { room_of seat ≡ id_of room.now },
    ghost few: { settled ≤ size (view_of seat).seen },
}

impl<'a, R: Wait, K: Keeper> SeatTurns<'a, R, K> {
    /// The turns of a seat of this room.
    pub fn new(rt: &'a R, room: &'a Room<K>, seat: Seat<K>) -> SeatTurns<'a, R, K>
        requires { room_of seat ≡ id_of room.now }
        ensures { (result.room.now ≡ room.now) × (result.seat ≡ seat) }
    {
        SeatTurns {
            rt,
            room,
            seat,
            settled: 0,
        }
    }

    /// The seat.
    pub fn into_seat(self) -> Seat<K>
        ensures seat { result ≡ self.entry.seat }
        ensures at { room_of result ≡ id_of self.entry.room.now }
    {
        self.seat
    }
}

impl<'a, R: Wait, K: Keeper> Turns for SeatTurns<'a, R, K> {
    ghost use Rattle.std.specs.Prelude.{◌+◌};
    ghost use Rattle.rv_room.specs.SeatTurns.{IsSeatTurn, settled_by};

    // It is in the same room, and what it counts grows as what its seat has settled.
    ghost takes = { λ old ask outcome new. IsSeatTurn K.Keeper (view_of old.seat) ask outcome (view_of new.seat) × ((new.room.now ≡ old.room.now) × (settled_by (view_of new.seat) + old.settled ≡ settled_by (view_of old.seat) + new.settled)) };

    ghost closes = { ⊥ };

    fn take(&mut self, asked: Asked<'_>) -> Outcome {
        let room = self.room;
        let Turned { outcome, settled } = room.turned(self.rt, &mut self.seat, asked);
        self.settled += settled;
        outcome
    }
}

impl<'a, R: Wait, K: Keeper> CountsSettled for SeatTurns<'a, R, K> {
    ghost settled = { λ turns. turns.settled };

    fn settled_count(&self) -> u32 {
        self.settled
    }
}

impl<'a, R: Wait, K: Keeper> Marks for SeatTurns<'a, R, K> {
    ghost use Rattle.rv_room.specs.SeatMarks.{IsSeatMark};

    ghost marks = { λ old user mark new. IsSeatMark K.Keeper (view_of old.seat) user mark (view_of new.seat) × (new.room.now ≡ old.room.now) };

    fn mark(&mut self, user: &User) -> u32 {
        let room = self.room;
        room.turn_mark(self.rt, &mut self.seat, user)
    }
}
