// The listeners of one kind that a net in memory has.
ghost use Rattle.std.specs.Prelude.{◌≡◌, ◌+◌, ◌≤◌, [], vec_len, vec_capacity, None, IfOk};

use rv_base::Memory;
use rv_net::Wanted;
use std::alloc::Global;

/// Gives the listeners of a list, and keeps those that come back.
#[derive(Drop)]
pub struct MemoryStock<L> {
    /// The listeners that it has to give, the next one first.
    pub to_give: Vec<L>,
    /// The listeners that came back, in order.
    pub came_back: Vec<L>,
    /// How many listeners were given and have not come back.
    pub out: usize,
    /// What was asked for last.
    pub wanted: Option<Wanted>,
    // Whatever was given or is to give has a slot to come back to.
    ghost capacity: { vec_len came_back + out + vec_len to_give ≤ vec_capacity came_back },
}

impl<L: Drop> MemoryStock<L> {
    /// A stock that has these listeners to give, the next one first. It makes the space for those that come back.
    pub fn new(alloc: Global, to_give: Vec<L>) -> Result<Self, Memory>
        ensures to_give { IfOk result (λ made. made.to_give ≡ to_give) }
        ensures came_back { IfOk result (λ made. made.came_back.items ≡ []) }
        ensures others { IfOk result (λ made. (made.out ≡ 0) × (made.wanted ≡ None)) }
    {
        let came_back = Vec::with_capacity(alloc, to_give.len())?;
        Ok(MemoryStock {
            to_give,
            came_back,
            out: 0,
            wanted: None,
        })
    }
}
