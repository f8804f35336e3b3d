use rv_base::Sequence;
use rv_rows::{Key, Row};

/// One operation of a patch.
#[derive(Debug, Drop)]
pub enum Op {
    /// Everything goes.
    Clear,
    /// The row of the key goes.
    Del(Key),
    /// The row is written at its key.
    Put(Row),
}

/// The operations of a patch, in the order in which they are applied.
pub type Ops = Sequence<Op>;
