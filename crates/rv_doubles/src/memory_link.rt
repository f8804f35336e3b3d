use rv_base::{Failed, Fault};
use rv_poke::{First, PokeLink, Sent};
use std::alloc::Global;

/// Gives its first message and keeps what is sent. It fails at the calls of a list, where it has no message to give, and where it
/// finds no memory to keep what is sent. It tells all. Its counts stand still at 2^64 - 1.
#[derive(Drop)]
pub struct MemoryLink {
    /// The first message, until it is taken.
    pub coming: Option<First>,
    /// What was sent, in order.
    pub sent: Vec<Sent>,
    /// The numbers of the calls that fail, from 1.
    pub failing: Vec<u64>,
    /// How many calls there were.
    pub calls: u64,
    /// How often its client was looked for and was there.
    pub found: u64,
    /// How many of them failed.
    pub faults: u64,
}

impl MemoryLink {
    ghost use Rattle.std.specs.Prelude.{◌≡◌, ◌+◌, ◌<◌, ◌⊎◌, [], true, vec_len, vec_capacity, is_err};
    ghost use Rattle.rv_doubles.specs.InMemory.{fails_next};
    ghost use Rattle.rv_base.specs.Outside.{counted, counted_if};
    ghost use Rattle.rv_doubles.specs.MemoryLinks.{link_state};
    ghost use Rattle.rv_poke.specs.Links.{Says};

    /// A link to which this message is to come, or none.
    pub fn new(alloc: Global, coming: Option<First>, failing: Vec<u64>) -> MemoryLink
        ensures sent { result.sent.items ≡ [] }
        ensures others { result ≡ record { coming = coming; sent = result.sent; failing = failing; calls = 0; found = 0; faults = 0 } }
    {
        MemoryLink {
            coming,
            sent: Vec::new(alloc),
            failing,
            calls: 0,
            found: 0,
            faults: 0,
        }
    }

    // Counts a call, and tells whether it is to fail.
    fn fails(&mut self) -> bool
        ensures fails { result ≡ fails_next self.old.calls self.old.failing.items }
        ensures after { self.new ≡ record self.old { calls = counted self.old.calls } }
    {
        self.calls = self.calls.saturating_add(1);
        self.failing.contains(&self.calls)
    }

    // Keeps what is sent.
    fn say(&mut self, one: Sent) -> Result<(), Failed>
        ensures says { Says one (link_state self.old) (link_state self.new) result }
        ensures fails { fails_next self.old.calls self.old.failing.items ≡ true → is_err result ≡ true }
        ensures only { is_err result ≡ true → (fails_next self.old.calls self.old.failing.items ≡ true) ⊎ (vec_capacity self.old.sent < vec_len self.old.sent + 1) }
        ensures after { self.new ≡ record self.old { sent = self.new.sent; calls = counted self.old.calls; faults = counted_if (is_err result) self.old.faults } }
    {
        if self.fails() || self.sent.push(one).is_err() {
            self.faults = self.faults.saturating_add(1);
            return Err(Failed);
        }
        Ok(())
    }
}

impl PokeLink for MemoryLink {
    ghost use Rattle.std.specs.Prelude.{◌≡◌, ◌+◌, ◌<◌, ◌⊎◌, ◌||◌, true, not, is_some, vec_len, vec_capacity, is_err};
    ghost use Rattle.rv_doubles.specs.InMemory.{fails_next};
    ghost use Rattle.rv_base.specs.Outside.{counted, counted_if};
    ghost use Rattle.rv_poke.specs.declared.sent.Sent.TheVariants.{Close, Ping, Poke};
    ghost use Rattle.rv_doubles.specs.MemoryLinks.{link_state};
    ghost use Rattle.rv_poke.specs.Links.{Finds, Says, Takes};

    ghost state = { link_state };

    fn first(&mut self, _alloc: Global) -> Result<First, Fault>
        ensures takes { Takes (link_state self.old) (link_state self.new) result }

        // It fails exactly at the calls of its list and where no message is to come.
        ensures fails { is_err result ≡ (fails_next self.old.calls self.old.failing.items || not (is_some self.old.coming)) }

        // Nothing else changes.
        ensures after { self.new ≡ record self.old { coming = self.new.coming; calls = counted self.old.calls; faults = counted_if (is_err result) self.old.faults } }
    {
        if self.fails() {
            self.faults = self.faults.saturating_add(1);
            return Err(Fault::Failed);
        }
        match self.coming.take() {
            Some(first) => Ok(first),
            None => {
                self.faults = self.faults.saturating_add(1);
                Err(Fault::Failed)
            }
        }
    }

    fn send_poke(&mut self) -> Result<(), Failed>
        ensures says { Says Poke (link_state self.old) (link_state self.new) result }

        // It fails at the calls of its list, and else only where it has to grow.
        ensures fails { fails_next self.old.calls self.old.failing.items ≡ true → is_err result ≡ true }
        ensures only { is_err result ≡ true → (fails_next self.old.calls self.old.failing.items ≡ true) ⊎ (vec_capacity self.old.sent < vec_len self.old.sent + 1) }

        // Nothing else changes.
        ensures after { self.new ≡ record self.old { sent = self.new.sent; calls = counted self.old.calls; faults = counted_if (is_err result) self.old.faults } }
    {
        self.say(Sent::Poke)
    }

    fn find(&mut self) -> Result<(), Failed>
        ensures finds { Finds (link_state self.old) (link_state self.new) result }

        // The client is there but at the calls of its list.
        ensures fails { is_err result ≡ fails_next self.old.calls self.old.failing.items }

        // Nothing else changes.
        ensures after { self.new ≡ record self.old { calls = counted self.old.calls; found = counted_if (not (is_err result)) self.old.found; faults = counted_if (is_err result) self.old.faults } }
    {
        if self.fails() {
            self.faults = self.faults.saturating_add(1);
            return Err(Failed);
        }
        self.found = self.found.saturating_add(1);
        Ok(())
    }

    fn ping(&mut self) -> Result<(), Failed>
        ensures says { Says Ping (link_state self.old) (link_state self.new) result }

        // It fails at the calls of its list, and else only where it has to grow.
        ensures fails { fails_next self.old.calls self.old.failing.items ≡ true → is_err result ≡ true }
        ensures only { is_err result ≡ true → (fails_next self.old.calls self.old.failing.items ≡ true) ⊎ (vec_capacity self.old.sent < vec_len self.old.sent + 1) }

        // Nothing else changes.
        ensures after { self.new ≡ record self.old { sent = self.new.sent; calls = counted self.old.calls; faults = counted_if (is_err result) self.old.faults } }
    {
        self.say(Sent::Ping)
    }

    fn close(&mut self, code: u16) -> Result<(), Failed>
        ensures says { Says (Close code) (link_state self.old) (link_state self.new) result }

        // It fails at the calls of its list, and else only where it has to grow.
        ensures fails { fails_next self.old.calls self.old.failing.items ≡ true → is_err result ≡ true }
        ensures only { is_err result ≡ true → (fails_next self.old.calls self.old.failing.items ≡ true) ⊎ (vec_capacity self.old.sent < vec_len self.old.sent + 1) }

        // Nothing else changes.
        ensures after { self.new ≡ record self.old { sent = self.new.sent; calls = counted self.old.calls; faults = counted_if (is_err result) self.old.faults } }
    {
        self.say(Sent::Close(code))
    }
}
