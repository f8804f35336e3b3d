ghost use Rattle.std.specs.Prelude.{◌≡◌, IfOk};

use crate::cell::{Cell, copy_bytes};
use rv_base::{Bytes, Memory};
use std::alloc::Global;

/// A change of one cell.
#[derive(Debug, Drop)]
pub enum Change {
    /// The cell is written, over one that is there.
    Put(Cell),
    /// The cell of a shelf, from 1 to 255, and a key among those of the shelf is taken away, if it is there.
    Remove(u8, Bytes),
}

impl Change {
    /// The same change, in memory of its own.
    pub fn copy(&self, alloc: Global) -> Result<Change, Memory>
        ensures { IfOk result (λ copy. copy ≡ self.now) }
    {
        match self {
            Change::Put(cell) => Ok(Change::Put(cell.copy(alloc)?)),
            Change::Remove(shelf, key) => Ok(Change::Remove(*shelf, copy_bytes(alloc, key)?)),
        }
    }
}
