// A net in memory, which fails at the calls of a list.
ghost use Rattle.std.specs.Prelude.{◌≡◌, ◌≤◌, ◌||◌, length, nat_lt, vec_len, IfOk, IsErrOf};
ghost use Rattle.rv_base.specs.Causes.{Counts, Rose};
ghost use Rattle.rv_doubles.specs.InMemory.{FailsNoMore, fails_next};
ghost use Rattle.rv_base.specs.Outside.{counted, counted_if};
ghost use Rattle.rv_base.specs.declared.fault.Fault.TheVariants as Fault;
ghost use Rattle.rv_net.specs.Giving.{Gives, TakesBack, has_failed};
ghost use Rattle.rv_doubles.specs.Stocks.{giving_of};

use crate::memory_link::MemoryLink;
use crate::memory_listen::{MemoryConn, MemoryListen};
use crate::memory_stock::MemoryStock;
use rv_base::{Fault, Memory};
use rv_net::{Listeners, Net, Wanted};
use std::alloc::Global;

/// A listener in memory for links.
pub type MemoryPokes = MemoryListen<MemoryLink>;

/// Gives the listeners of two lists, and keeps those that come back. It tells which, and what it was asked for. It fails at
/// the calls of a list, and where fewer listeners are left than are asked for. Its counts of calls and faults stand still
/// at 2^64 - 1.
#[derive(Drop)]
pub struct MemoryNet {
    /// The listeners for connections.
    pub listeners: MemoryStock<MemoryListen<MemoryConn>>,
    /// The listeners for links.
    pub pokes: MemoryStock<MemoryPokes>,
    /// The numbers of the calls of `listen` and `listen_pokes` that fail, from 1; both are counted together.
    pub failing: Vec<u64>,
    /// How many of these calls there were.
    pub calls: u64,
    /// How many of them failed, but for want of memory.
    pub faults: u64,
}

impl MemoryNet {
    /// A net that has these listeners to give, the next one first. It makes the space for those that come back.
    pub fn new(
        alloc: Global,
        listeners: Vec<MemoryListen<MemoryConn>>,
        pokes: Vec<MemoryPokes>,
        failing: Vec<u64>,
    ) -> Result<Self, Memory>
        ensures listeners { IfOk result (λ made. made.listeners.to_give ≡ listeners) }
        ensures pokes { IfOk result (λ made. made.pokes.to_give ≡ pokes) }
        ensures failing { IfOk result (λ made. made.failing ≡ failing) }
        ensures counts { IfOk result (λ made. (made.calls ≡ 0) × (made.faults ≡ 0)) }
    {
        let listeners = MemoryStock::new(alloc, listeners)?;
        let pokes = MemoryStock::new(alloc, pokes)?;
        Ok(MemoryNet {
            listeners,
            pokes,
            failing,
            calls: 0,
            faults: 0,
        })
    }

    // Counts a call, and tells whether it is to fail.
    fn fails(&mut self) -> bool
        ensures fails { result ≡ fails_next self.old.calls self.old.failing.items }
        ensures after { self.new ≡ record self.old { calls = counted self.old.calls } }
    {
        self.calls = self.calls.saturating_add(1);
        self.failing.contains(&self.calls)
    }

    // Counts a fault where a call has failed.
    fn told<T>(&mut self, given: Result<T, Fault>) -> Result<T, Fault>
        ensures same { result ≡ given }
        ensures counts { Counts self.old.faults self.new.faults result }
        ensures after { self.new ≡ record self.old { faults = counted_if (has_failed given) self.old.faults } }
    {
        match given {
            Ok(given) => Ok(given),
            Err(Fault::Memory) => Err(Fault::Memory),
            Err(Fault::Failed) => {
                self.faults = self.faults.saturating_add(1);
                Err(Fault::Failed)
            }
        }
    }
}

impl Net for MemoryNet {
    type Listen = MemoryListen<MemoryConn>;

    type Pokes = MemoryPokes;

    // It tells whatever comes.
    ghost tells = { λ s. Unit {0} };

    ghost listeners = { λ s. giving_of s.listeners };

    ghost pokes = { λ s. giving_of s.pokes };

    ghost faults = { λ s. s.faults };

    // No call of the list is still to come.
    ghost fails_no_more = { λ s. FailsNoMore s.calls s.failing.items };

    #[tactic(auto, using(crate::specs::InMemoryLaws::not_next, crate::specs::InMemoryLaws::fails_no_more_later))]
    fn listen(
        &mut self,
        port: u16,
        count: u32,
        most: u32,
    ) -> Result<Listeners<MemoryListen<MemoryConn>>, Fault>
        ensures count { IfOk result (λ given. length given.listeners ≡ count) }
        ensures gives { Gives (record { port = port; count = count; most = most }) (giving_of self.old.listeners) (giving_of self.new.listeners) result }
        ensures others { self.new.pokes ≡ self.old.pokes }
        ensures faults { Counts self.old.faults self.new.faults result }
        ensures failed { IsErrOf result Fault.Failed → Rose self.old.faults self.new.faults }
        ensures fails { has_failed result ≡ (fails_next self.old.calls self.old.failing.items || nat_lt (vec_len self.old.listeners.to_give) count) }
        ensures failing { self.new.failing ≡ self.old.failing }
        ensures calls { self.new.calls ≡ counted self.old.calls }
        ensures counted { self.new.faults ≡ counted_if (has_failed result) self.old.faults }
        ensures steady { FailsNoMore self.old.calls self.old.failing.items → FailsNoMore self.new.calls self.new.failing.items × (count ≤ vec_len self.old.listeners.to_give → ¬ IsErrOf result Fault.Failed) }
    {
        let fails = self.fails();
        let given = self.listeners.give(Wanted { port, count, most }, fails);
        self.told(given)
    }

    #[tactic(auto, using(crate::specs::InMemoryLaws::not_next, crate::specs::InMemoryLaws::fails_no_more_later))]
    fn listen_pokes(
        &mut self,
        port: u16,
        count: u32,
        most: u32,
    ) -> Result<Listeners<MemoryPokes>, Fault>
        ensures count { IfOk result (λ given. length given.listeners ≡ count) }
        ensures gives { Gives (record { port = port; count = count; most = most }) (giving_of self.old.pokes) (giving_of self.new.pokes) result }
        ensures others { self.new.listeners ≡ self.old.listeners }
        ensures faults { Counts self.old.faults self.new.faults result }
        ensures failed { IsErrOf result Fault.Failed → Rose self.old.faults self.new.faults }
        ensures fails { has_failed result ≡ (fails_next self.old.calls self.old.failing.items || nat_lt (vec_len self.old.pokes.to_give) count) }
        ensures failing { self.new.failing ≡ self.old.failing }
        ensures calls { self.new.calls ≡ counted self.old.calls }
        ensures counted { self.new.faults ≡ counted_if (has_failed result) self.old.faults }
        ensures steady { FailsNoMore self.old.calls self.old.failing.items → FailsNoMore self.new.calls self.new.failing.items × (count ≤ vec_len self.old.pokes.to_give → ¬ IsErrOf result Fault.Failed) }
    {
        let fails = self.fails();
        let given = self.pokes.give(Wanted { port, count, most }, fails);
        self.told(given)
    }

    fn done(&mut self, returned: Listeners<MemoryListen<MemoryConn>>)
        requires { length returned.listeners ≤ self.old.listeners.out }
        ensures back { TakesBack (giving_of self.old.listeners) (giving_of self.new.listeners) returned.listeners }
        ensures others { self.new ≡ record self.old { listeners = self.new.listeners } }
    {
        self.listeners.take_back(returned);
    }

    fn done_pokes(&mut self, returned: Listeners<MemoryPokes>)
        requires { length returned.listeners ≤ self.old.pokes.out }
        ensures back { TakesBack (giving_of self.old.pokes) (giving_of self.new.pokes) returned.listeners }
        ensures others { self.new ≡ record self.old { pokes = self.new.pokes } }
    {
        self.pokes.take_back(returned);
    }

    ghost steady_tells = { λ net steady. tt };
}
