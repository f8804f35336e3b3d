use rv_serve::{Gate, Heard};
use std::alloc::Global;

/// A gate in memory, which holds no request. It keeps what it hears, and tells it unless memory was refused for it.
#[derive(Debug, Drop)]
pub struct MemoryGate {
    heard: Vec<Heard>,
    lost: bool,
}

impl MemoryGate {
    ghost use Rattle.std.specs.Prelude.{◌≡◌, [], ◌∷◌, Some, MatchOption};
    ghost use Rattle.rv_serve.specs.Hearing.{Hears};
    ghost use Rattle.rv_doubles.specs.MemoryGates.{heard_by};

    /// A gate that has heard nothing yet.
    pub fn new(alloc: Global) -> MemoryGate
        ensures { heard_by result ≡ Some [] }
    {
        MemoryGate {
            heard: Vec::new(alloc),
            lost: false,
        }
    }

    /// What it has heard, in order, or none where memory was refused.
    pub fn heard(&self) -> Option<&[Heard]>
        ensures { MatchOption result (heard_by self.now ≡ None) (λ heard. heard_by self.now ≡ Some heard.now) }
    {
        if self.lost {
            None
        } else {
            Some(self.heard.as_slice())
        }
    }

    // Keeps what was heard.
    fn keep(&mut self, heard: Heard)
        ensures { Hears (heard_by self.old) (heard_by self.new) (heard ∷ []) }
    {
        match self.heard.push(heard) {
            Ok(()) => {}
            Err(_) => self.lost = true,
        }
    }
}

impl Gate for MemoryGate {
    ghost use Rattle.rv_doubles.specs.MemoryGates.{heard_by};

    ghost heard = { heard_by };

    fn before(&mut self, number: u32) {
        self.keep(Heard::Before(number));
    }

    fn after(&mut self, status: u16, entered: bool) {
        self.keep(Heard::After(status, entered));
    }

    fn leave(&mut self) {
        self.keep(Heard::Left);
    }
}
