ghost use Rattle.std.specs.Prelude.{◌≡◌, ◌+◌, ◌<◌, ◌∷◌, ◌++◌, ℕ, List, []};
ghost use Rattle.rv_base.specs.Outside.{counted_if};
ghost use Rattle.rv_net.specs.declared.conn.Conn.{Conn};
ghost use Rattle.rv_net.specs.Accepting.{Accepts, GivesFewer, is_end};

use crate::accepted::Accepted;
use crate::conn::Conn;
use rv_base::{Sink, Source};

/// Where connections come from, and go back to when they are served.
pub trait Listen {
    /// Where the bytes of a connection come from.
    type In: Source;

    /// Where the answers to a connection go.
    type Out: Sink;

    /// The listener tells which connections it gives and which came back. One that has once stopped to tell does not tell
    /// again.
    ghost tells: { Self → Type 0 };

    /// The connections that are still to come, the next one first. It is said where the listener tells.
    ghost to_come: { Self → List (Conn Self.In Self.Out) };

    /// The connections that came back, in order. It is said where the listener tells.
    ghost came_back: { Self → List (Conn Self.In Self.Out) };

    /// How many connections were given and have not come back. It is said where the listener tells.
    ghost out: { Self → ℕ };

    /// How often it has answered that no connection is to come. It stands still at 2^64 - 1.
    ghost ends: { Self → ℕ };

    /// How many more connections it gives, at most.
    ghost accepts: { Self → ℕ };

    /// How often it has answered that no connection is to come.
    fn end_count(&self) -> u64
        ensures { result ≡ ends self.now };

    /// The next connection, or that none is to come.
    fn accept(&mut self) -> Accepted<Conn<Self::In, Self::Out>>
        ensures tells { tells self.new → tells self.old }
        ensures given { tells self.new → Accepts (to_come self.old) (out self.old) (to_come self.new) (out self.new) result }
        ensures back { tells self.new → came_back self.new ≡ came_back self.old }
        ensures ends { ends self.new ≡ counted_if (is_end result) (ends self.old) }
        ensures fewer { GivesFewer (accepts self.old) (accepts self.new) result };

    /// Takes back a connection that is served. It can't fail, and takes no memory.
    fn done(&mut self, conn: Conn<Self::In, Self::Out>)
        requires { tells self.old → 0 < out self.old }
        ensures tells { tells self.new → tells self.old }
        ensures back { tells self.new → came_back self.new ≡ came_back self.old ++ conn ∷ [] }
        ensures out { tells self.new → out self.old ≡ out self.new + 1 }
        ensures to_come { tells self.new → to_come self.new ≡ to_come self.old }
        ensures ends { ends self.new ≡ ends self.old }
        ensures fewer { accepts self.new ≡ accepts self.old };
}
