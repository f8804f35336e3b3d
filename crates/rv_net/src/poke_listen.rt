ghost use Rattle.std.specs.Prelude.{◌≡◌, ◌+◌, ◌<◌, ◌∷◌, ◌++◌, ℕ, List, [], true, false};
ghost use Rattle.rv_base.specs.Outside.{counted_if};
ghost use Rattle.rv_net.specs.Accepting.{Awaits, is_last, is_nobody};

use crate::awaited::Awaited;
use rv_poke::PokeLink;
use std::sync::Wait;

/// Where links to clients that want pokes come from, and go back to when their sessions have ended.
pub trait PokeListen {
    /// A link to a client.
    type Link: PokeLink;

    /// The listener tells which links it gives and which came back. One that has once stopped to tell does not tell again.
    ghost tells: { Self → Type 0 };

    /// The links that are still to come, the next one first. It is said where the listener tells.
    ghost to_come: { Self → List Self.Link };

    /// The links that came back, in order. It is said where the listener tells.
    ghost came_back: { Self → List Self.Link };

    /// How many links were given and have not come back. It is said where the listener tells.
    ghost out: { Self → ℕ };

    /// How often it has answered that no link is to come. It stands still at 2^64 - 1.
    ghost ends: { Self → ℕ };

    /// The next link, or that none is to come. It may wait, and may answer that none came for a while; but not where all is over.
    fn accept<R: Wait>(&mut self, rt: &R, is_over: bool) -> Awaited<Self::Link>
        ensures tells { tells self.new → tells self.old }
        ensures given { tells self.new → Awaits (to_come self.old) (out self.old) (to_come self.new) (out self.new) result }
        ensures back { tells self.new → came_back self.new ≡ came_back self.old }
        ensures ends { ends self.new ≡ counted_if (is_last result) (ends self.old) }
        ensures over { is_over ≡ true → is_nobody result ≡ false };

    /// Takes back a link whose session has ended. It can't fail, and takes no memory.
    fn done(&mut self, link: Self::Link)
        requires { tells self.old → 0 < out self.old }
        ensures tells { tells self.new → tells self.old }
        ensures back { tells self.new → came_back self.new ≡ came_back self.old ++ link ∷ [] }
        ensures out { tells self.new → out self.old ≡ out self.new + 1 }
        ensures to_come { tells self.new → to_come self.new ≡ to_come self.old }
        ensures ends { ends self.new ≡ ends self.old };
}
