use rv_record::Damage;
use thiserror::Error;

/// Why a desk was not opened.
#[derive(Debug, Drop, Error)]
pub enum OpenFault {
    /// The keeper failed.
    #[error("the keeper failed")]
    Keeper,
    /// The store is damaged, first at this place.
    #[error("the store is damaged on shelf {}", .0.shelf)]
    Damaged(Damage),
    /// Memory was refused.
    #[error("out of memory")]
    Memory,
}
