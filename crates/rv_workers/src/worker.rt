ghost use Rattle.std.specs.Prelude.{◌≡◌};
ghost use Rattle.rv_room.specs.Seats.{id_of, room_of};

use crate::job::Job;
use rv_accounts::Accounts;
use rv_keeper::Keeper;
use rv_net::Listen;
use rv_room::{Room, Seat, SeatTurns};
use rv_serve::{Gate, serve_listener};
use std::alloc::Global;
use std::sync::Wait;

/// One worker, which serves the connections of its listener by the turns of its seat, and then leaves. Each request passes its gate.
pub struct Worker<'a, R: Wait, K: Keeper, L: Listen, G: Gate> {
    alloc: Global,
    turns: SeatTurns<'a, R, K>,
    accounts: &'a Accounts,
    listener: L,
    gate: G,
}

impl<'a, R: Wait, K: Keeper, L: Listen, G: Gate> Worker<'a, R, K, L, G> {
    /// A worker with a seat of this room, and its gate.
    pub(crate) fn new(
        alloc: Global,
        runtime: &'a R,
        room: &'a Room<K>,
        accounts: &'a Accounts,
        seat: Seat<K>,
        listener: L,
        gate: G,
    ) -> Worker<'a, R, K, L, G>
        requires { room_of seat ≡ id_of room.now }
        ensures room { result.turns.room.now ≡ room.now }
        ensures seat { result.turns.seat ≡ seat }
        ensures accounts { result.accounts.now ≡ accounts.now }
        ensures listener { result.listener ≡ listener }
    {
        Worker {
            alloc,
            turns: SeatTurns::new(runtime, room, seat),
            accounts,
            listener,
            gate,
        }
    }

    /// Its seat and its listener.
    pub(crate) fn dismiss(self) -> (Seat<K>, L)
        ensures seat { result.0 ≡ self.entry.turns.seat }
        ensures at { room_of result.0 ≡ id_of self.entry.turns.room.now }
        ensures listener { result.1 ≡ self.entry.listener }
    {
        let Worker {
            alloc: _alloc,
            turns,
            accounts: _accounts,
            listener,
            gate: _gate,
        } = self;
        (turns.into_seat(), listener)
    }
}

impl<'a, R: Wait + Sync, K: Keeper + Send, L: Listen + Send, G: Gate + Send> Job
    for Worker<'a, R, K, L, G>
where
    L::In: Send,
    L::Out: Send,
{
    ghost use Rattle.rv_workers.specs.Working.{WorkerHasServed};

    ghost needs = { λ worker. Unit {0} };

    ghost worked = { λ old new. WorkerHasServed K.Keeper L.Listen L.In.Source L.Out.Sink G.Gate old new };

    fn work(&mut self) {
        serve_listener(
            self.alloc,
            &mut self.turns,
            self.accounts,
            &mut self.gate,
            &mut self.listener,
        );
        self.gate.leave();
    }
}
