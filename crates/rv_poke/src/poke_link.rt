ghost use Rattle.rv_poke.specs.declared.sent.Sent.TheVariants.{Close, Ping, Poke};
ghost use Rattle.rv_poke.specs.Links.{Finds, LinkState, Says, Takes};

use crate::first::First;
use rv_base::{Failed, Fault};
use std::alloc::Global;

/// A link to one client.
pub trait PokeLink {
    /// The first message, until it is taken, where the link tells; what was sent, in order, where the link tells; how often its client was
    /// looked for and was there; how often a call has failed. The counts stand still at 2^64 - 1.
    ghost state: { Self → LinkState };

    /// Takes the first message. It may wait for it. At `Failed` the count of faults rose, and at both errors the message is still to
    /// come; at a second call it is not told what comes.
    fn first(&mut self, alloc: Global) -> Result<First, Fault>
        ensures { Takes (state self.old) (state self.new) result };

    /// Sends a poke. It fails only where the count of faults rises, and then nothing was sent.
    fn send_poke(&mut self) -> Result<(), Failed>
        ensures { Says Poke (state self.old) (state self.new) result };

    /// Looks for the client, without waiting for it. It fails only where the count of faults rises, and then the client has left.
    fn find(&mut self) -> Result<(), Failed>
        ensures { Finds (state self.old) (state self.new) result };

    /// Sends a ping. It fails only where the count of faults rises, and then nothing was sent.
    fn ping(&mut self) -> Result<(), Failed>
        ensures { Says Ping (state self.old) (state self.new) result };

    /// Closes the link with a status code. It fails only where the count of faults rises, and then nothing was sent.
    fn close(&mut self, code: u16) -> Result<(), Failed>
        ensures { Says (Close code) (state self.old) (state self.new) result };
}
