ghost use Rattle.std.specs.Prelude.{◌≡◌};
ghost use Rattle.rv_record.specs.declared.fault.CellFault.TheVariants as faults;
ghost use Rattle.rv_record.specs.CellReading.{Blames};

use rv_base::{Bytes, Memory};
use rv_keeper::Cell;
use std::alloc::Global;
use thiserror::Error;

/// Where a store is damaged: the shelf and the key at which it does not hold what a book's cells have there. Shelf 0 and no key
/// are the generation.
#[derive(Debug, Drop)]
pub struct Damage {
    /// The shelf.
    pub shelf: u8,
    /// The key among those of the shelf.
    pub key: Bytes,
}

/// Why cells were not read.
#[derive(Debug, Drop, Error)]
pub enum CellFault {
    /// What stands there is not what a book's cells have there: it is missing, is too much, or is another.
    #[error("the store is damaged on shelf {}", .0.shelf)]
    BadCell(Damage),
    /// Memory was refused.
    #[error("out of memory")]
    Memory,
}

impl From<Memory> for CellFault {
    ghost from_gives = { λ _ fault. fault ≡ faults.Memory };

    fn from(_error: Memory) -> CellFault {
        CellFault::Memory
    }
}

/// The damage at a cell's place, or that memory was refused.
pub fn damaged(alloc: Global, cell: &Cell) -> CellFault
    ensures { Blames cell.now result }
{
    match cell.key.as_slice().to_vec(alloc) {
        Ok(key) => CellFault::BadCell(Damage {
            shelf: cell.shelf,
            key: Bytes::from_vec(key),
        }),
        Err(_) => CellFault::Memory,
    }
}
