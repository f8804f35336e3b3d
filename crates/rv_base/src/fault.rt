ghost use Rattle.std.specs.Prelude.{◌≡◌};
ghost use Rattle.rv_base.specs.declared.fault.Fault.TheVariants as Fault;

use crate::memory::Memory;
use crate::outside::Failed;
use std::alloc::AllocError;
use thiserror::Error;

/// Why what was asked of the world outside was not done.
#[derive(Clone, Copy, Debug, PartialEq, Eq, Error)]
pub enum Fault {
    /// It failed, and the count of faults rose.
    #[error("a call failed")]
    Failed,
    /// Memory was refused.
    #[error("out of memory")]
    Memory,
}

impl From<Failed> for Fault {
    ghost from_gives = { λ _ fault. fault ≡ Fault.Failed };

    fn from(_error: Failed) -> Fault {
        Fault::Failed
    }
}

impl From<Memory> for Fault {
    ghost from_gives = { λ _ fault. fault ≡ Fault.Memory };

    fn from(_error: Memory) -> Fault {
        Fault::Memory
    }
}

impl From<AllocError> for Fault {
    ghost from_gives = { λ _ fault. fault ≡ Fault.Memory };

    fn from(_error: AllocError) -> Fault {
        Fault::Memory
    }
}
