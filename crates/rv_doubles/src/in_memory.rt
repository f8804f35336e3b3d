// A source and a sink in memory, which fail at the calls of a list.
ghost use Rattle.std.specs.Prelude.{◌≡◌, ◌≤◌, ◌<◌, [], min, max, length, take};

use rv_base::{Failed, Sink, Source, ends_after};
use std::alloc::Global;

/// Gives its bytes in pieces, and fails at the calls of a list. It tells what is left.
#[derive(Drop)]
pub struct MemorySource {
    /// All its bytes.
    pub bytes: Vec<u8>,
    /// Where the next byte stands.
    pub at: usize,
    /// The most bytes of one read. 0 counts as 1.
    pub most: usize,
    /// The numbers of the calls that fail, from 1.
    pub failing: Vec<u64>,
    /// How many calls there were.
    pub calls: u64,
    /// How many of them failed.
    pub faults: u64,
    /// How many of them told the end.
    pub ends: u64,
}

impl MemorySource {
    /// A source of these bytes.
    pub fn new(bytes: Vec<u8>, most: usize, failing: Vec<u64>) -> Self
        ensures { result ≡ record { bytes = bytes; at = 0; most = most; failing = failing; calls = 0; faults = 0; ends = 0 } }
    {
        MemorySource {
            bytes,
            at: 0,
            most,
            failing,
            calls: 0,
            faults: 0,
            ends: 0,
        }
    }
}

// Copies as many bytes as both pieces have, and at most so many.
fn copy_front(from: &[u8], to: &mut [u8], most: usize) -> usize
    ensures count { result ≤ length from.now }
    ensures bound { result ≤ length to.old }
    ensures bytes { take result to.new ≡ take result from.now }
    ensures some { 0 < length from.now → 0 < length to.old → 0 < result }
    ensures exact { result ≡ min (min (max most 1) (length from.now)) (length to.old) }
{
    let count = most.max(1).min(from.len()).min(to.len());
    to[..count].copy_from_slice(&from[..count]);
    count
}

impl Source for MemorySource {
    ghost use Rattle.std.specs.Prelude.{◌≡◌, ◌-◌, ◌≤◌, min, length, IfOk, IsOk, is_err};
    ghost use Rattle.std.specs.Io.{ReadsAtMost};
    ghost use Rattle.rv_base.specs.Outside.{Reads, counted, counted_if, read_is_end};
    ghost use Rattle.rv_doubles.specs.InMemory.{source_state, fails_next, FailsNoMore, moved, stands_after};

    ghost state = { source_state };

    // No number of a call to come is on the list.
    ghost fails_no_more = { λ s. FailsNoMore s.calls s.failing.items };

    #[tactic(auto, using(crate::specs::InMemoryLaws::not_next, crate::specs::InMemoryLaws::fails_no_more_later))]
    fn read(&mut self, piece: &mut [u8]) -> Result<usize, Failed>
        ensures bound { ReadsAtMost result piece.new }
        ensures reads { Reads (source_state self.old) (source_state self.new) result piece.new }
        ensures steady { FailsNoMore self.old.calls self.old.failing.items → IsOk result × FailsNoMore self.new.calls self.new.failing.items }

        // It fails exactly at the calls of its list, and else gives as much as it may and there is space for.
        ensures fails { is_err result ≡ fails_next self.old.calls self.old.failing.items }
        ensures count { IfOk result (λ n. n ≡ min (moved self.old.most (length self.old.bytes.items - self.old.at)) (length piece.new)) }

        // Nothing else changes.
        ensures after { self.new ≡ record self.old { at = stands_after self.old result; calls = counted self.old.calls; faults = counted_if (is_err result) self.old.faults; ends = counted_if (read_is_end result piece.new) self.old.ends } }
    {
        self.calls = self.calls.saturating_add(1);
        if self.failing.contains(&self.calls) {
            self.faults = self.faults.saturating_add(1);
            return Err(Failed);
        }
        let at = self.at.min(self.bytes.len());
        let count = copy_front(&self.bytes[at..], piece, self.most);
        self.ends = ends_after(self.ends, count, piece);
        self.at = at + count;
        Ok(count)
    }
}

/// Takes bytes in pieces, and fails at the calls of a list and where it finds no memory. It tells what was written.
#[derive(Drop)]
pub struct MemorySink {
    /// All that was written.
    pub bytes: Vec<u8>,
    /// The most bytes of one write. 0 counts as 1.
    pub most: usize,
    /// The numbers of the calls that fail, from 1.
    pub failing: Vec<u64>,
    /// How many calls there were.
    pub calls: u64,
    /// How many of them failed.
    pub faults: u64,
    /// How many of them failed because memory was refused.
    pub refusals: u64,
}

impl MemorySink {
    /// A sink that has nothing yet.
    pub fn new(alloc: Global, most: usize, failing: Vec<u64>) -> Self
        ensures bytes { result.bytes.items ≡ [] }
        ensures others { result ≡ record { bytes = result.bytes; most = most; failing = failing; calls = 0; faults = 0; refusals = 0 } }
    {
        MemorySink {
            bytes: Vec::new(alloc),
            most,
            failing,
            calls: 0,
            faults: 0,
            refusals: 0,
        }
    }
}

impl Sink for MemorySink {
    ghost use Rattle.std.specs.Prelude.{◌≡◌, ◌+◌, ◌<◌, ◌⊎◌, ◌&&◌, not, true, length, vec_len, vec_capacity, IfOk, is_err};
    ghost use Rattle.std.specs.Io.{WritesAtMost};
    ghost use Rattle.rv_base.specs.Outside.{WritesSome, IsSteady, counted, counted_if};
    ghost use Rattle.rv_doubles.specs.InMemory.{sink_state, fails_next, FailsNoMore, moved, refusals_after};

    ghost state = { sink_state };

    // No number of a call to come is on the list.
    ghost fails_no_more = { λ s. FailsNoMore s.calls s.failing.items };

    #[tactic(auto, using(crate::specs::InMemoryLaws::not_next, crate::specs::InMemoryLaws::fails_no_more_later))]
    fn write(&mut self, piece: &[u8]) -> Result<usize, Failed>
        ensures bound { WritesAtMost result piece.now }
        ensures some { 0 < length piece.now → IfOk result (λ n. 0 < n) }
        ensures writes { WritesSome (sink_state self.old) (sink_state self.new) result piece.now }
        ensures steady { FailsNoMore self.old.calls self.old.failing.items → IsSteady (FailsNoMore self.new.calls self.new.failing.items) (sink_state self.old) (sink_state self.new) result }

        // It fails at the calls of its list, and else only where it has to grow.
        ensures fails { fails_next self.old.calls self.old.failing.items ≡ true → is_err result ≡ true }
        ensures only { is_err result ≡ true → (fails_next self.old.calls self.old.failing.items ≡ true) ⊎ (vec_capacity self.old.bytes < vec_len self.old.bytes + moved self.old.most (length piece.now)) }
        ensures count { IfOk result (λ n. n ≡ moved self.old.most (length piece.now)) }

        // Nothing else changes.
        ensures after { self.new ≡ record self.old { bytes = self.new.bytes; calls = counted self.old.calls; faults = counted_if (is_err result) self.old.faults; refusals = refusals_after self.old result } }
    {
        self.calls = self.calls.saturating_add(1);
        if self.failing.contains(&self.calls) {
            self.faults = self.faults.saturating_add(1);
            return Err(Failed);
        }
        let count = self.most.max(1).min(piece.len());
        if self.bytes.extend_from_slice(&piece[..count]).is_err() {
            self.faults = self.faults.saturating_add(1);
            self.refusals = self.refusals.saturating_add(1);
            return Err(Failed);
        }
        Ok(count)
    }
}
