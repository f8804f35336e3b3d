use rv_record::Damage;

/// What a check of a store found.
#[derive(Debug, Drop)]
pub enum CheckAnswer {
    /// The store holds just the cells of a lawful book of this length.
    Sound(u32),
    /// It is damaged, first at this place.
    Damaged(Damage),
    /// The keeper failed, and its count of faults rose.
    Keeper,
    /// Memory was refused.
    Memory,
}
