ghost use Rattle.std.specs.Prelude.{◌≡◌, ◌+◌, ◌-◌, ◌≤◌, ◌∷◌, ◌++◌, [], length, vec_len, vec_capacity};
ghost use Rattle.rv_net.specs.Listed.{TakesLast};

use std::marker::Model;

/// Listeners at one port, in order. A contract sees the list of them, and the number `spare` of slots that are reserved
/// beside it.
#[derive(Drop)]
pub struct Listeners<L> {
    items: Vec<L>,
}

impl<L> Model for Listeners<L> {
    ghost use Rattle.std.specs.Prelude.{◌-◌, vec_len, vec_capacity};
    ghost use Rattle.rv_net.specs.Listed.{Listed};

    ghost Value = { Listed L };

    ghost view = { λ a. record { listeners = a.items.items; spare = vec_capacity a.items - vec_len a.items } };
}

impl<L> Listeners<L> {
    /// The listeners of a vector, which are not moved.
    pub fn from_vec(items: Vec<L>) -> Self
        ensures listeners { result.listeners ≡ items.items }
        ensures spare { result.spare ≡ vec_capacity items - vec_len items }
    {
        Listeners { items }
    }

    /// The listeners as a vector, which are not moved.
    pub fn into_vec(self) -> Vec<L>
        ensures { result.items ≡ self.listeners }
    {
        let Listeners { items } = self;
        items
    }

    /// How many listeners there are.
    pub fn len(&self) -> usize
        ensures { result ≡ length self.now.listeners }
    {
        self.items.len()
    }

    /// The last listener, which leaves its slot reserved. It takes no memory.
    pub fn take(&mut self) -> Option<L>
        ensures { TakesLast self.old self.new result }
    {
        self.items.pop()
    }

    /// Puts a listener at the end, in a slot that is reserved. It can't fail, and takes no memory.
    pub fn give(&mut self, listener: L)
        requires { 1 ≤ self.old.spare }
        ensures listeners { self.new.listeners ≡ self.old.listeners ++ listener ∷ [] }
        ensures spare { self.old.spare ≡ self.new.spare + 1 }
    {
        self.items.push_reserved(listener);
    }
}
