ghost use Rattle.std.specs.Prelude.{◌≡◌};
ghost use Rattle.rv_csv.specs.declared.view_fault.ViewFault.TheVariants as faults;

use rv_base::Memory;
use thiserror::Error;

/// Why the text of a view was not read.
#[derive(Clone, Copy, Debug, PartialEq, Eq, Error)]
pub enum ViewFault {
    /// The record of this number is the first that is not of the form. The header has number 0, and is missing where there is no
    /// record.
    #[error("record {0} is not one of a view")]
    BadRecord(u64),
    /// Memory was refused.
    #[error("out of memory")]
    Memory,
}

impl From<Memory> for ViewFault {
    ghost from_gives = { λ _ fault. fault ≡ faults.Memory };

    fn from(_error: Memory) -> ViewFault {
        ViewFault::Memory
    }
}
