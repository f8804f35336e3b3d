ghost use Rattle.std.specs.Prelude.{◌≡◌};

use rv_poke::{Bell, Waited};
use std::sync::Wait;

/// A bell in memory: so many waits end at once as it is silent, then so many as it is rung, and each later one as all is over.
#[derive(Clone, Copy, Debug)]
pub struct MemoryBell {
    /// How many silences are left.
    pub silent: u32,
    /// How many rings are left.
    pub left: u32,
    /// How often a wait ended as it was rung. It stands still at 2^64 - 1.
    pub rungs: u64,
    /// How often a wait ended as it was silent. It stands still at 2^64 - 1.
    pub quiets: u64,
    /// How often a wait ended as all was over. It stands still at 2^64 - 1.
    pub overs: u64,
}

impl MemoryBell {
    /// A bell with so many silences and so many rings that are left.
    pub fn new(silent: u32, left: u32) -> MemoryBell
        ensures { result ≡ record { silent = silent; left = left; rungs = 0; quiets = 0; overs = 0 } }
    {
        MemoryBell {
            silent,
            left,
            rungs: 0,
            quiets: 0,
            overs: 0,
        }
    }
}

impl Bell for MemoryBell {
    ghost use Rattle.std.specs.Prelude.{◌≡◌, ◌<◌, ◌-◌, ◌&&◌, nat_eq, if◌then◌else◌};
    ghost use Rattle.rv_poke.specs.Bells.{HasWaited};
    ghost use Rattle.rv_doubles.specs.MemoryLinks.{bell_state};
    ghost use Rattle.rv_poke.specs.declared.waited.Waited.TheVariants.{Rung, Quiet, Over};

    ghost state = { bell_state };

    fn wait<R: Wait>(&mut self, _rt: &R) -> Waited
        ensures waited { HasWaited (bell_state self.old) (bell_state self.new) result }

        // It is silent exactly while silences are left, then rung exactly while rings are, and each time one less is.
        ensures quiet { result ≡ Quiet → 0 < self.old.silent }
        ensures rung { result ≡ Rung → (self.old.silent ≡ 0) × (0 < self.old.left) }
        ensures over { result ≡ Over → (self.old.silent ≡ 0) × (self.old.left ≡ 0) }
        ensures silent { self.new.silent ≡ self.old.silent - 1 }
        ensures left { self.new.left ≡ (if nat_eq self.old.silent 0 then self.old.left - 1 else self.old.left) }
    {
        if self.silent > 0 {
            self.silent -= 1;
            self.quiets = self.quiets.saturating_add(1);
            return Waited::Quiet;
        }
        if self.left == 0 {
            self.overs = self.overs.saturating_add(1);
            return Waited::Over;
        }
        self.left -= 1;
        self.rungs = self.rungs.saturating_add(1);
        Waited::Rung
    }

    fn is_over(&self) -> bool
        ensures { result ≡ (nat_eq self.now.silent 0 && nat_eq self.now.left 0) }
    {
        self.silent == 0 && self.left == 0
    }
}
