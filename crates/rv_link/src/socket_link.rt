// A link that speaks WebSocket.
ghost use Rattle.std.specs.Prelude.{◌≡◌, false};
ghost use Rattle.rv_base.specs.Causes.{HasCause};
ghost use Rattle.rv_link.specs.declared.line.Line.TheVariants.{Fresh};

use crate::line::Line;
use rv_base::{Failed, Fault};
use rv_poke::{First, PokeLink};
use std::alloc::Global;
use std::io::{Read, Write};

/// One client over WebSocket. It tells nothing of what comes and of what was sent.
///
/// [`first`](PokeLink::first) does the handshake, in which the stream is to give a request head of at most 65,536 bytes and nothing
/// after it, and reads one message. A text of at most 4,096 bytes is [`First::Text`]; a longer message, a text that is no UTF-8, a
/// binary message, a ping, a pong and a close are [`First::Other`], so a client that pings before it sends its key is denied. Any
/// other breach of the protocol is [`Fault::Failed`], and so are a handshake that fails, the end of the stream, a read that
/// fails or would block, and a second call. A head that asks for no upgrade is not answered. From then on what the client sends is read
/// where it is looked for, by [`find`](PokeLink::find), up to 64 messages at once, and let go of: so a ping is answered as the next is
/// looked for. It has left where it sent a close, where its stream ended, or where it broke the protocol, a message that is too long
/// included. So that a look doesn't wait, the stream is not to block then.
///
/// A poke or a close that can't be sent for want of memory is a fault, and so is one that was written and could not be flushed. A close
/// goes out after the pong that a first ping asks for; where the client has closed the link first, the answer to its close goes
/// out in its place. After a close no poke can be sent, and another close sends nothing. A client that still sends a message that is too
/// long may lose the close, since what it sends is not read.
#[derive(Drop)]
pub struct SocketLink<S> {
    line: Line<S>,
    /// Whether all that the client had sent was read as it was last looked for.
    pub read_all: bool,
    /// How often its client was looked for and was there. It stands still at 2^64 - 1.
    pub found: u64,
    /// How often a call has failed. It stands still at 2^64 - 1.
    pub faults: u64,
}

impl<S> SocketLink<S> {
    /// A link over a stream whose handshake is still to come.
    pub fn new(stream: S) -> SocketLink<S>
        ensures { result ≡ record { line = Fresh stream; read_all = false; found = 0; faults = 0 } }
    {
        SocketLink {
            line: Line::Fresh(stream),
            read_all: false,
            found: 0,
            faults: 0,
        }
    }

    // Counts a fault where a call has failed.
    fn told(&mut self, told: Result<(), Failed>) -> Result<(), Failed>
        ensures cause { HasCause self.old.faults self.new.faults result }
        ensures same { result ≡ told }
        ensures others { self.new ≡ record self.old { faults = self.new.faults } }
    {
        if told.is_err() {
            self.faults = self.faults.saturating_add(1);
        }
        told
    }
}

impl<S: Read + Write + Drop> PokeLink for SocketLink<S> {
    ghost use Rattle.std.specs.Prelude.{[], Some, codes, IfOk, IsErrOf, OnOk};
    ghost use Rattle.rv_poke.specs.declared.sent.Sent.TheVariants.{Close, Ping, Poke};
    ghost use Rattle.rv_poke.specs.Links.{Finds, Says, Takes};
    ghost use Rattle.tungstenite.specs.Connection.{close_step, write_step};
    ghost use Rattle.tungstenite.specs.Content.{ping, text};
    ghost use Rattle.websocket.specs.CloseCode.{close_code_of};
    ghost use Rattle.rv_base.specs.declared.fault.Fault.TheVariants as fault;
    ghost use Rattle.rv_link.specs.Sockets.{FailsToOpen, IsOpen, OpensWith, WritesStep, link_state};

    ghost state = { link_state };

    fn first(&mut self, alloc: Global) -> Result<First, Fault>
        ensures takes { Takes (link_state self.old) (link_state self.new) result }

        // The handshake of the stream was done, and what was read is this message.
        ensures opens { IfOk result (OpensWith S.remaining self.old.line self.new.line) }

        // It fails only where the handshake or reading failed, or it was called before: a message of another kind is no fault.
        ensures fails { IsErrOf result fault.Failed → FailsToOpen S.remaining self.old.line self.new.line }
    {
        let taken = self.line.first(alloc);
        match taken {
            Ok(first) => Ok(first),
            Err(Fault::Memory) => Err(Fault::Memory),
            Err(Fault::Failed) => {
                self.faults = self.faults.saturating_add(1);
                Err(Fault::Failed)
            }
        }
    }

    fn send_poke(&mut self) -> Result<(), Failed>
        ensures says { Says Poke (link_state self.old) (link_state self.new) result }

        // The protocol's step of a text `poke` was made and written.
        ensures writes { OnOk result (WritesStep S.contents (λ conn. write_step conn (text (codes "poke"))) self.old.line self.new.line) }
    {
        let sent = self.line.send_poke();
        self.told(sent)
    }

    fn find(&mut self) -> Result<(), Failed>
        ensures finds { Finds (link_state self.old) (link_state self.new) result }

        // A client is there only on a link whose handshake was done.
        ensures open { OnOk result (IsOpen self.new.line) }
    {
        match self.line.find() {
            Ok(read_all) => {
                self.read_all = read_all;
                self.found = self.found.saturating_add(1);
                Ok(())
            }
            Err(Failed) => self.told(Err(Failed)),
        }
    }

    fn ping(&mut self) -> Result<(), Failed>
        ensures says { Says Ping (link_state self.old) (link_state self.new) result }

        // The protocol's step of a ping without a payload was made and written.
        ensures writes { OnOk result (WritesStep S.contents (λ conn. write_step conn (ping [])) self.old.line self.new.line) }
    {
        let sent = self.line.ping();
        self.told(sent)
    }

    fn close(&mut self, code: u16) -> Result<(), Failed>
        ensures says { Says (Close code) (link_state self.old) (link_state self.new) result }

        // The protocol's step of a close with this code was made and written.
        ensures writes { OnOk result (WritesStep S.contents (λ conn. close_step conn (Some (close_code_of code, []))) self.old.line self.new.line) }
    {
        let closed = self.line.close(code);
        self.told(closed)
    }
}
