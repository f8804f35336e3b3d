ghost use Rattle.std.specs.Prelude.{◌≡◌};
ghost use Rattle.rv_room.specs.Seats.{id_of, room_of};

use crate::job::Job;
use rv_accounts::Accounts;
use rv_keeper::Keeper;
use rv_net::PokeListen;
use rv_poke::{Bell, PokeLink};
use rv_room::{Room, Seat, SeatTurns};
use rv_serve::serve_links;
use std::alloc::Global;
use std::sync::Wait;

/// One poke job, which serves the links of its listener by the looks of its seat, each by a poke session that waits for its bell.
pub struct PokeJob<'a, R: Wait, K: Keeper, P: PokeListen, B: Bell> {
    alloc: Global,
    runtime: &'a R,
    turns: SeatTurns<'a, R, K>,
    accounts: &'a Accounts,
    listener: P,
    bell: B,
}

impl<'a, R: Wait, K: Keeper, P: PokeListen, B: Bell + Drop> PokeJob<'a, R, K, P, B> {
    /// A poke job with a seat of this room, and its bell.
    pub(crate) fn new(
        alloc: Global,
        runtime: &'a R,
        room: &'a Room<K>,
        accounts: &'a Accounts,
        seat: Seat<K>,
        listener: P,
        bell: B,
    ) -> PokeJob<'a, R, K, P, B>
        requires { room_of seat ≡ id_of room.now }
        ensures room { result.turns.room.now ≡ room.now }
        ensures seat { result.turns.seat ≡ seat }
        ensures accounts { result.accounts.now ≡ accounts.now }
        ensures listener { result.listener ≡ listener }
        ensures bell { result.bell ≡ bell }
    {
        PokeJob {
            alloc,
            runtime,
            turns: SeatTurns::new(runtime, room, seat),
            accounts,
            listener,
            bell,
        }
    }

    /// Its seat and its listener.
    pub(crate) fn dismiss(self) -> (Seat<K>, P)
        ensures seat { result.0 ≡ self.entry.turns.seat }
        ensures at { room_of result.0 ≡ id_of self.entry.turns.room.now }
        ensures listener { result.1 ≡ self.entry.listener }
    {
        let PokeJob {
            alloc: _alloc,
            runtime: _runtime,
            turns,
            accounts: _accounts,
            listener,
            bell: _bell,
        } = self;
        (turns.into_seat(), listener)
    }
}

impl<'a, R: Wait + Sync, K: Keeper + Send, P: PokeListen + Send, B: Bell + Send> Job
    for PokeJob<'a, R, K, P, B>
where
    P::Link: PokeLink + Send,
{
    ghost use Rattle.rv_workers.specs.Working.{PokeJobHasServed};

    ghost needs = { λ job. Unit {0} };

    ghost worked = { λ old new. PokeJobHasServed K.Keeper P.PokeListen P.Link.PokeLink B.Bell old new };

    fn work(&mut self) {
        serve_links(
            self.runtime,
            self.alloc,
            &mut self.turns,
            self.accounts,
            &mut self.bell,
            &mut self.listener,
        );
    }
}
