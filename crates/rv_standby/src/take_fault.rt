ghost use Rattle.std.specs.Prelude.{◌≡◌};
ghost use Rattle.rv_standby.specs.Following.{fault_of};
ghost use Rattle.rv_standby.specs.declared.take_fault.TakeFault.TheVariants as faults;

use rv_base::Memory;
use rv_record::CellFault;
use thiserror::Error;

/// Why a standby did not take what it was given.
#[derive(Clone, Copy, Debug, PartialEq, Eq, Error)]
pub enum TakeFault {
    /// It is not what may come next in the book.
    #[error("this may not come next in the book")]
    Refused,
    /// Memory was refused.
    #[error("out of memory")]
    Memory,
}

impl From<Memory> for TakeFault {
    ghost from_gives = { λ _ fault. fault ≡ faults.Memory };

    fn from(_error: Memory) -> TakeFault {
        TakeFault::Memory
    }
}

impl From<CellFault> for TakeFault {
    ghost from_gives = { λ cell fault. fault ≡ fault_of cell };

    fn from(error: CellFault) -> TakeFault {
        match error {
            CellFault::BadCell(_) => TakeFault::Refused,
            CellFault::Memory => TakeFault::Memory,
        }
    }
}
