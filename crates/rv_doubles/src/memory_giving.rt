// A stock of listeners in memory gives some, and takes them back.
ghost use Rattle.std.specs.Prelude.{◌≡◌, ◌≤◌, ◌||◌, length, nat_lt, vec_len, IfOk};
ghost use Rattle.rv_net.specs.Giving.{Gives, TakesBack, has_failed};
ghost use Rattle.rv_doubles.specs.Stocks.{giving_of};

use crate::memory_stock::MemoryStock;
use rv_base::Fault;
use rv_net::{Listeners, Wanted};
use std::mem;

impl<L: Drop> MemoryStock<L> {
    /// Gives the listeners that are wanted. It fails where it is to, and where fewer are left.
    pub(crate) fn give(&mut self, wanted: Wanted, fails: bool) -> Result<Listeners<L>, Fault>
        ensures count { IfOk result (λ given. length given.listeners ≡ wanted.count) }
        ensures gives { Gives wanted (giving_of self.old) (giving_of self.new) result }
        ensures fails { has_failed result ≡ (fails || nat_lt (vec_len self.old.to_give) wanted.count) }
    {
        self.wanted = Some(wanted);
        let count = wanted.count as usize;
        if fails || self.to_give.len() < count {
            return Err(Fault::Failed);
        }
        let left = self.to_give.split_off(count)?;
        let given = mem::replace(&mut self.to_give, left);
        self.out += count;
        Ok(Listeners::from_vec(given))
    }

    /// Takes listeners back. It can't fail, and takes no memory.
    pub(crate) fn take_back(&mut self, returned: Listeners<L>)
        requires { length returned.listeners ≤ self.old.out }
        ensures { TakesBack (giving_of self.old) (giving_of self.new) returned.listeners }
    {
        let mut returned = returned.into_vec();
        self.out -= returned.len();
        match self.came_back.append(&mut returned) {
            Ok(()) => {}
            Err(_) => unreachable!(),
        }
    }
}
