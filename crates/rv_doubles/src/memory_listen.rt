// A listener in memory.
ghost use Rattle.std.specs.Prelude.{◌≡◌, ◌+◌, ◌<◌, ◌≤◌, ◌∷◌, ◌++◌, [], IfOk, vec_len, vec_capacity};
ghost use Rattle.rv_base.specs.Outside.{counted_if};
ghost use Rattle.rv_net.specs.Accepting.{Accepts, GivesFewer, is_end};

use crate::in_memory::{MemorySink, MemorySource};
use crate::memory_link::MemoryLink;
use rv_base::Memory;
use rv_net::{Accepted, Awaited, Conn, Listen, PokeListen};
use std::alloc::Global;
use std::sync::Wait;

/// A connection in memory.
pub type MemoryConn = Conn<MemorySource, MemorySink>;

/// Gives the connections of a list, or the links, and keeps those that come back. It tells which.
#[derive(Drop)]
pub struct MemoryListen<C> {
    /// Those that are still to come, the next one first.
    pub to_come: Vec<C>,
    /// Those that came back, in order.
    pub came_back: Vec<C>,
    /// How many were given and have not come back.
    pub out: usize,
    /// How often it has answered that none is to come. It stands still at 2^64 - 1.
    pub ends: u64,
    // Whatever was given or is to come has a slot to come back to.
    ghost capacity: { vec_len came_back + out + vec_len to_come ≤ vec_capacity came_back },
}

impl<C: Drop> MemoryListen<C> {
    /// A listener to which these are to come, the next one first. It makes the space for those that come back.
    pub fn new(alloc: Global, to_come: Vec<C>) -> Result<Self, Memory>
        ensures to_come { IfOk result (λ made. made.to_come ≡ to_come) }
        ensures came_back { IfOk result (λ made. made.came_back.items ≡ []) }
        ensures counts { IfOk result (λ made. (made.out ≡ 0) × (made.ends ≡ 0)) }
    {
        let came_back = Vec::with_capacity(alloc, to_come.len())?;
        Ok(MemoryListen {
            to_come,
            came_back,
            out: 0,
            ends: 0,
        })
    }

    // Gives the next one, or tells that none is to come.
    fn give(&mut self) -> Accepted<C>
        ensures given { Accepts self.old.to_come.items self.old.out self.new.to_come.items self.new.out result }
        ensures back { self.new.came_back ≡ self.old.came_back }
        ensures ends { self.new.ends ≡ counted_if (is_end result) self.old.ends }
        ensures fewer { GivesFewer (vec_len self.old.to_come) (vec_len self.new.to_come) result }
    {
        if self.to_come.is_empty() {
            self.ends = self.ends.saturating_add(1);
            return Accepted::End;
        }
        let conn = self.to_come.remove(0);
        self.out += 1;
        Accepted::Conn(conn)
    }

    // Keeps one that comes back.
    fn keep(&mut self, conn: C)
        requires { 0 < self.old.out }
        ensures back { self.new.came_back.items ≡ self.old.came_back.items ++ conn ∷ [] }
        ensures out { self.old.out ≡ self.new.out + 1 }
        ensures to_come { self.new.to_come ≡ self.old.to_come }
        ensures ends { self.new.ends ≡ self.old.ends }
    {
        self.out -= 1;
        self.came_back.push_reserved(conn);
    }
}

impl Listen for MemoryListen<MemoryConn> {
    type In = MemorySource;

    type Out = MemorySink;

    // It tells whatever comes.
    ghost tells = { λ s. Unit {0} };

    ghost to_come = { λ s. s.to_come.items };

    ghost came_back = { λ s. s.came_back.items };

    ghost out = { λ s. s.out };

    ghost ends = { λ s. s.ends };

    ghost accepts = { λ s. vec_len s.to_come };

    fn end_count(&self) -> u64
        ensures { result ≡ self.now.ends }
    {
        self.ends
    }

    fn accept(&mut self) -> Accepted<MemoryConn>
        ensures given { Accepts self.old.to_come.items self.old.out self.new.to_come.items self.new.out result }
        ensures back { self.new.came_back ≡ self.old.came_back }
        ensures ends { self.new.ends ≡ counted_if (is_end result) self.old.ends }
        ensures fewer { GivesFewer (vec_len self.old.to_come) (vec_len self.new.to_come) result }
    {
        self.give()
    }

    fn done(&mut self, conn: MemoryConn)
        requires { 0 < self.old.out }
        ensures back { self.new.came_back.items ≡ self.old.came_back.items ++ conn ∷ [] }
        ensures out { self.old.out ≡ self.new.out + 1 }
        ensures to_come { self.new.to_come ≡ self.old.to_come }
        ensures ends { self.new.ends ≡ self.old.ends }
    {
        self.keep(conn);
    }
}

impl PokeListen for MemoryListen<MemoryLink> {
    ghost use Rattle.std.specs.Prelude.{false};
    ghost use Rattle.rv_net.specs.Accepting.{Awaits, is_last, is_nobody};

    type Link = MemoryLink;

    // It tells whatever comes.
    ghost tells = { λ s. Unit {0} };

    ghost to_come = { λ s. s.to_come.items };

    ghost came_back = { λ s. s.came_back.items };

    ghost out = { λ s. s.out };

    ghost ends = { λ s. s.ends };

    fn accept<R: Wait>(&mut self, _rt: &R, _is_over: bool) -> Awaited<MemoryLink>
        ensures given { Awaits self.old.to_come.items self.old.out self.new.to_come.items self.new.out result }
        ensures back { self.new.came_back ≡ self.old.came_back }
        ensures ends { self.new.ends ≡ counted_if (is_last result) self.old.ends }

        // It never waits.
        ensures some { is_nobody result ≡ false }
    {
        match self.give() {
            Accepted::Conn(link) => Awaited::Link(link),
            Accepted::End => Awaited::End,
        }
    }

    fn done(&mut self, link: MemoryLink)
        requires { 0 < self.old.out }
        ensures back { self.new.came_back.items ≡ self.old.came_back.items ++ link ∷ [] }
        ensures out { self.old.out ≡ self.new.out + 1 }
        ensures to_come { self.new.to_come ≡ self.old.to_come }
        ensures ends { self.new.ends ≡ self.old.ends }
    {
        self.keep(link);
    }
}
