ghost use Rattle.std.specs.Prelude.{◌≡◌, ◌≤◌, ℕ, length, IfOk, IsErrOf};
ghost use Rattle.std.specs.List.{AllByRecursion};
ghost use Rattle.rv_base.specs.Causes.{Counts, Rose};
ghost use Rattle.rv_base.specs.declared.fault.Fault.TheVariants as Fault;
ghost use Rattle.rv_net.specs.Giving.{Gives, Giving, TakesBack};

use crate::listen::Listen;
use crate::listeners::Listeners;
use crate::poke_listen::PokeListen;
use rv_base::Fault;

/// Where listeners come from, and go back to when their connections or links are served.
pub trait Net {
    /// What gives the connections.
    type Listen: Listen + Send;

    /// What gives the links of clients that want pokes.
    type Pokes: PokeListen + Send;

    /// The net tells which listeners it gives and which came back. One that has once stopped to tell does not tell again.
    ghost tells: { Self → Type 0 };

    /// The listeners for connections that it has to give, and those that came back. It is said where the net tells.
    ghost listeners: { Self → Giving Self.Listen };

    /// The same of the listeners for links.
    ghost pokes: { Self → Giving Self.Pokes };

    /// How often a call has failed. It stands still at 2^64 - 1.
    ghost faults: { Self → ℕ };

    /// No call fails any more that asks for no more listeners than there are to give.
    ghost fails_no_more: { Self → Type 0 };

    /// So many listeners for connections at one port, each of which takes at most `most`. In memory, what a listener takes was settled
    /// before, and neither the port nor `most` is looked at.
    fn listen(&mut self, port: u16, count: u32, most: u32) -> Result<Listeners<Self::Listen>, Fault>
        ensures count { IfOk result (λ given. length given.listeners ≡ count) }
        ensures tells { tells self.new → tells self.old }
        ensures gives { tells self.new → Gives (record { port = port; count = count; most = most }) (listeners self.old) (listeners self.new) result }
        ensures others { tells self.new → pokes self.new ≡ pokes self.old }
        ensures faults { Counts (faults self.old) (faults self.new) result }
        ensures failed { IsErrOf result Fault.Failed → Rose (faults self.old) (faults self.new) }
        ensures steady { fails_no_more self.old → fails_no_more self.new × (count ≤ length (listeners self.old).to_give → ¬ IsErrOf result Fault.Failed) };

    /// So many listeners for links at one port, in the same way.
    fn listen_pokes(
        &mut self,
        port: u16,
        count: u32,
        most: u32,
    ) -> Result<Listeners<Self::Pokes>, Fault>
        ensures count { IfOk result (λ given. length given.listeners ≡ count) }
        ensures tells { tells self.new → tells self.old }
        ensures gives { tells self.new → Gives (record { port = port; count = count; most = most }) (pokes self.old) (pokes self.new) result }
        ensures others { tells self.new → listeners self.new ≡ listeners self.old }
        ensures faults { Counts (faults self.old) (faults self.new) result }
        ensures failed { IsErrOf result Fault.Failed → Rose (faults self.old) (faults self.new) }
        ensures steady { fails_no_more self.old → fails_no_more self.new × (count ≤ length (pokes self.old).to_give → ¬ IsErrOf result Fault.Failed) };

    /// Takes listeners for connections back. It can't fail, and takes no memory. Where the net tells after that, so do they.
    fn done(&mut self, returned: Listeners<Self::Listen>)
        requires { tells self.old → length returned.listeners ≤ (listeners self.old).out }
        ensures tells { tells self.new → tells self.old × AllByRecursion Self.Listen.tells returned.listeners }
        ensures back { tells self.new → TakesBack (listeners self.old) (listeners self.new) returned.listeners }
        ensures others { tells self.new → pokes self.new ≡ pokes self.old }
        ensures faults { faults self.new ≡ faults self.old }
        ensures steady { fails_no_more self.old → fails_no_more self.new };

    /// Takes listeners for links back, in the same way.
    fn done_pokes(&mut self, returned: Listeners<Self::Pokes>)
        requires { tells self.old → length returned.listeners ≤ (pokes self.old).out }
        ensures tells { tells self.new → tells self.old × AllByRecursion Self.Pokes.tells returned.listeners }
        ensures back { tells self.new → TakesBack (pokes self.old) (pokes self.new) returned.listeners }
        ensures others { tells self.new → listeners self.new ≡ listeners self.old }
        ensures faults { faults self.new ≡ faults self.old }
        ensures steady { fails_no_more self.old → fails_no_more self.new };

    /// What fails no more tells.
    ghost steady_tells: { (net : Self) → fails_no_more net → tells net };
}
