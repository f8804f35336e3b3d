ghost use Rattle.std.specs.Prelude.{◌≡◌, ◌+◌, ◌≤◌, [], ◌∷◌, ◌++◌, vec_len, vec_capacity, MatchOption};

use crate::seat::Seat;
use rv_keeper::Keeper;

/// Seats of a room, in order.
#[derive(Drop)]
pub struct Seats<K: Keeper> {
    pub(crate) list: Vec<Seat<K>>,
}

impl<K: Keeper> Seats<K> {
    /// The last seat, which leaves its place reserved. It takes no memory.
    pub fn take(&mut self) -> Option<Seat<K>>
        ensures last { MatchOption result ((self.old.list.items ≡ []) × (self.new.list.items ≡ [])) (λ s. self.old.list.items ≡ self.new.list.items ++ s ∷ []) }
        ensures capacity { vec_capacity self.new.list ≡ vec_capacity self.old.list }
    {
        self.list.pop()
    }

    /// Puts a seat at the end, in a place that is reserved. It can't fail, and takes no memory.
    pub fn give(&mut self, seat: Seat<K>)
        requires { vec_len self.old.list + 1 ≤ vec_capacity self.old.list }
        ensures list { self.new.list.items ≡ self.old.list.items ++ seat ∷ [] }
        ensures capacity { vec_capacity self.new.list ≡ vec_capacity self.old.list }
    {
        self.list.push_reserved(seat);
    }
}
