// How a seat comes to its turn, and how it passes the turn on.
ghost use Rattle.std.specs.Prelude.{◌≡◌, ℕ, ◌+◌, ◌%◌, ◌^◌, ◌<◌, [], ◌∷◌, None, Some, IfSome};
ghost use Rattle.rv_book.specs.Book.{Extends};
ghost use Rattle.rv_desk.specs.DeskStates.{DeskState};
ghost use Rattle.rv_room.specs.Following.{FollowsAll};
ghost use Rattle.rv_room.specs.Plays.{TakesTicket};
ghost use Rattle.rv_room.specs.Rule.{IsOf};
ghost use Rattle.rv_room.specs.Views.{IsIdle, KnowsDesk, ended, on_turn};

use crate::room::Room;
use crate::rule::{CheckTurn, PassTurn, Signal, TakeFreeTicket, TakeTicket};
use crate::seat::Token;
use rv_keeper::Keeper;
use std::hint;
use std::sync::Wait;

// How often a seat spins for its turn before it sleeps: for about as long as it takes to wake a thread.
const SPINS: u32 = 2048;

// How often a seat sleeps before it takes a ticket behind others. From then on nobody can go before it.
const SLEEPS: u32 = 16;

// The words of the table that tell of turns: how many tickets were taken, how many turns have ended, how many seats sleep without a
// ticket, and the bells: one for those, and sixteen for seats that have one. A seat with a ticket sleeps at the bell of its number, so
// the end of a turn wakes just the seat whose turn it is.
const TICKETS: usize = 0;

pub(crate) const TURNS: usize = 1;

const SLEEPERS: usize = 3;

const LOBBY: usize = 4;

const BELLS: usize = 5;

const BELL_COUNT: u64 = 16;

// The bell of a ticket.
fn bell_of(ticket: u64) -> usize
    ensures { result ≡ 5 + ticket % 16 }
{
    BELLS + (ticket % BELL_COUNT) as usize
}

impl<K: Keeper> Room<K> {
    // The next ticket, if its turn seems to have come, which is so where no seat has a ticket. It can change between the two reads.
    fn free_ticket(&self) -> Option<u64> {
        let ended = self.table.shared.peek(TURNS);
        if self.table.shared.peek(TICKETS) == ended {
            Some(ended)
        } else {
            None
        }
    }

    // Takes the next ticket, if its turn has come.
    fn take_free_ticket(&self, token: &mut Token<K>) -> Option<u64>
        requires table { token.old.table_id ≡ self.now.table.shared.table_id }
        requires idle { IsIdle token.old.me.0 × (0 < token.old.me.0.parts) }
        ensures same { (token.new.table_id ≡ token.old.table_id) × (token.new.id ≡ token.old.id) }
        ensures waits { IfSome result (λ ticket. TakesTicket token.old.me ticket token.new.me) }
        ensures stays { result ≡ None → token.new.me ≡ token.old.me }
    {
        let ticket = self.free_ticket()?;
        let next = ticket.wrapping_add(1);
        let was = self
            .table
            .shared
            .compare_exchange::<TakeFreeTicket>(token, TICKETS, ticket, next);
        if was == ticket { Some(ticket) } else { None }
    }

    // Takes the next ticket as soon as its turn has come, but gives up after many spins.
    fn spin_for_ticket(&self, token: &mut Token<K>) -> Option<u64>
        requires table { token.old.table_id ≡ self.now.table.shared.table_id }
        requires idle { IsIdle token.old.me.0 × (0 < token.old.me.0.parts) }
        ensures same { (token.new.table_id ≡ token.old.table_id) × (token.new.id ≡ token.old.id) }
        ensures waits { IfSome result (λ ticket. TakesTicket token.old.me ticket token.new.me) }
        ensures stays { result ≡ None → token.new.me ≡ token.old.me }
    {
        for _ in 0..SPINS {
            if let Some(ticket) = self.take_free_ticket(token) {
                return Some(ticket);
            }
            hint::spin_loop();
        }
        None
    }

    // Sleeps until a turn has ended. It counts itself among the sleepers before it checks for the last time: so a turn that ends after
    // this check wakes it.
    fn sleep(&self, rt: &impl Wait, token: &mut Token<K>)
        requires table { token.old.table_id ≡ self.now.table.shared.table_id }
        ensures { (token.new.table_id ≡ token.old.table_id) × (token.new.id ≡ token.old.id) × (token.new.me ≡ token.old.me) }
    {
        self.table.shared.fetch_add::<Signal>(token, SLEEPERS, 1);
        let rung = self.table.shared.peek(LOBBY);
        if self.free_ticket().is_none() {
            self.table.shared.park(rt, LOBBY, (rung % (1 << 32)) as u32);
        }
        self.table.shared.fetch_sub::<Signal>(token, SLEEPERS, 1);
    }

    // Takes the next ticket behind all others.
    fn queue(&self, token: &mut Token<K>) -> u64
        requires table { token.old.table_id ≡ self.now.table.shared.table_id }
        requires idle { IsIdle token.old.me.0 × (0 < token.old.me.0.parts) }
        ensures same { (token.new.table_id ≡ token.old.table_id) × (token.new.id ≡ token.old.id) }
        ensures waits { TakesTicket token.old.me result token.new.me }
    {
        self.table.shared.fetch_add::<TakeTicket>(token, TICKETS, 1)
    }

    // Takes a ticket: one whose turn has come, where there soon is one, and else one behind others.
    pub(crate) fn take_ticket(&self, rt: &impl Wait, token: &mut Token<K>) -> u64
        requires table { token.old.table_id ≡ self.now.table.shared.table_id }
        requires idle { IsIdle token.old.me.0 × (0 < token.old.me.0.parts) }
        ensures same { (token.new.table_id ≡ token.old.table_id) × (token.new.id ≡ token.old.id) }
        ensures waits { TakesTicket token.old.me result token.new.me }
    {
        for _ in 0..SLEEPS {
            if let Some(ticket) = self.spin_for_ticket(token) {
                return ticket;
            }
            self.sleep(rt, token);
        }
        self.queue(token)
    }

    // Waits for the turn of this ticket. The desk is then the seat's.
    pub(crate) fn wait_for(&self, rt: &impl Wait, token: &mut Token<K>, ticket: u64)
        requires table { token.old.table_id ≡ self.now.table.shared.table_id }
        requires waits { (token.old.me.0.waits ≡ 1) × (token.old.me.0.turns ≡ 0) × (token.old.me.0.ticket % 2 ^ 64 ≡ ticket) }
        ensures same { (token.new.table_id ≡ token.old.table_id) × (token.new.id ≡ token.old.id) }
        ensures turn { (d : DeskState K) × IsOf K.Keeper token.old.me.0 d × Extends d.book token.old.me.0.seen × FollowsAll K.Keeper token.old.me.0.after d.keeper ×
            (token.new.me ≡ (on_turn K.faults token.old.me.0 d, (0, Some d) ∷ token.old.me.1)) }
    {
        let bell = bell_of(ticket);
        let mut spins = 0;
        for _ in rt.forever() {
            let rung = self.table.shared.peek(bell);
            let found = self.table.shared.load::<CheckTurn>(token, TURNS);
            if found == ticket {
                return;
            }
            spins = self.rest(rt, bell, rung, spins);
        }
        unreachable!()
    }

    // Lets time pass, after so many spins. A seat that has spun often sleeps until the bell is rung again.
    fn rest(&self, rt: &impl Wait, bell: usize, rung: u64, spins: u32) -> u32
        requires { bell < 21 }
    {
        if spins < SPINS {
            hint::spin_loop();
            return spins + 1;
        }
        self.table.shared.park(rt, bell, (rung % (1 << 32)) as u32);
        spins
    }

    // Wakes the seat that has this ticket, if it sleeps.
    fn ring(&self, token: &mut Token<K>, ticket: u64)
        requires table { token.old.table_id ≡ self.now.table.shared.table_id }
        ensures { (token.new.table_id ≡ token.old.table_id) × (token.new.id ≡ token.old.id) × (token.new.me ≡ token.old.me) }
    {
        let bell = bell_of(ticket);
        self.table.shared.fetch_add::<Signal>(token, bell, 1);
        self.table.shared.wake_all(bell);
    }

    // Wakes one seat that sleeps without a ticket, if there is one.
    fn wake_sleeper(&self, token: &mut Token<K>)
        requires table { token.old.table_id ≡ self.now.table.shared.table_id }
        ensures { (token.new.table_id ≡ token.old.table_id) × (token.new.id ≡ token.old.id) × (token.new.me ≡ token.old.me) }
    {
        if self.table.shared.peek(SLEEPERS) != 0 {
            self.table.shared.fetch_add::<Signal>(token, LOBBY, 1);
            self.table.shared.wake_one(LOBBY);
        }
    }

    // Passes the turn on: the desk that lies in the slot is at home. The seat with the next ticket is woken, or where nobody has one,
    // one of those that sleep without.
    pub(crate) fn pass(&self, token: &mut Token<K>)
        requires table { token.old.table_id ≡ self.now.table.shared.table_id }
        requires home { (d : DeskState K) × (token.old.me.1 ≡ (0, Some d) ∷ []) × IsOf K.Keeper token.old.me.0 d × KnowsDesk token.old.me.0 d }
        ensures same { (token.new.table_id ≡ token.old.table_id) × (token.new.id ≡ token.old.id) }
        ensures ended { token.new.me ≡ (ended token.old.me.0, []) }
    {
        let ended = self.table.shared.fetch_add::<PassTurn>(token, TURNS, 1);
        let next = ended.wrapping_add(1);
        if self.table.shared.peek(TICKETS) == next {
            self.wake_sleeper(token);
        } else {
            self.ring(token, next);
        }
    }
}
