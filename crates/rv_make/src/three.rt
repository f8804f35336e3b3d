// Something of each of the three users.
ghost use Rattle.std.specs.Prelude.{◌≡◌};
ghost use Rattle.rv_make.specs.Threes.{held_by, with_held};

// What the users have, in order.
#[derive(Debug, Drop)]
pub(crate) struct Three<T> {
    pub(crate) first: T,
    pub(crate) second: T,
    pub(crate) third: T,
}

impl<T> Three<T> {
    // What the user of this number has, from 0.
    pub(crate) fn of(&self, user: u32) -> &T
        ensures { result.now ≡ held_by user self.now }
    {
        if user == 0 {
            &self.first
        } else if user == 1 {
            &self.second
        } else {
            &self.third
        }
    }
}

impl<T: Drop> Three<T> {
    // Gives this to the user of this number, in the place of what it had.
    pub(crate) fn set(&mut self, user: u32, new: T)
        ensures { self.new ≡ with_held user new self.old }
    {
        if user == 0 {
            self.first = new;
        } else if user == 1 {
            self.second = new;
        } else {
            self.third = new;
        }
    }
}
