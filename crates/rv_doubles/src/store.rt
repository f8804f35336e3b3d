ghost use Rattle.std.specs.Prelude.{◌≡◌, [], true, false};
ghost use Rattle.std.specs.Str.{bytes_eq};

use rv_base::Bytes;
use rv_keeper::Shelves;
use std::alloc::Global;
use std::mem;

/// A store of a place in memory.
#[derive(Debug, Drop)]
pub struct Store {
    /// Its name.
    pub name: Bytes,
    /// Its cells; none while its keeper is out.
    pub shelves: Shelves,
    /// Its generation; 0 while its keeper is out.
    pub generation: u64,
    /// Its keeper is out.
    pub is_out: bool,
}

impl Store {
    /// Whether the store has this name.
    pub(crate) fn is_named(&self, name: &str) -> bool
        ensures { result ≡ bytes_eq name.now self.now.name }
    {
        name.as_bytes() == self.name.as_slice()
    }

    /// Gives out the cells and the generation.
    pub(crate) fn give_out(&mut self, alloc: Global) -> (Shelves, u64)
        ensures shelves { result.0 ≡ self.old.shelves }
        ensures generation { result.1 ≡ self.old.generation }
        ensures after { self.new ≡ record self.old { shelves = []; generation = 0; is_out = true } }
    {
        self.is_out = true;
        let shelves = mem::replace(&mut self.shelves, Shelves::new(alloc));
        let generation = mem::replace(&mut self.generation, 0);
        (shelves, generation)
    }

    /// Takes cells and a generation back.
    pub(crate) fn take_back(&mut self, shelves: Shelves, generation: u64)
        ensures { self.new ≡ record self.old { shelves = shelves; generation = generation; is_out = false } }
    {
        self.is_out = false;
        self.shelves = shelves;
        self.generation = generation;
    }
}
