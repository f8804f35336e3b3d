// A link over TCP.
ghost use Rattle.std.specs.Prelude.{◌≡◌};
ghost use Rattle.rv_base.specs.Causes.{HasCause};

use rv_base::{Failed, Fault};
use rv_link::SocketLink;
use rv_poke::{First, PokeLink};
use std::alloc::Global;
use std::io;
use std::net::TcpStream;
use std::time::Duration;

/// How long one read of a client's handshake and of its first message waits, in seconds.
pub const KEY_SECONDS: u64 = 60;

/// How long one write of a poke or a close waits, in seconds.
const WRITE_SECONDS: u64 = 30;

/// A link over TCP, which speaks WebSocket as [`SocketLink`] says. Neither what comes nor what is sent is told.
///
/// Before it sends a poke or a ping, and where it is asked to, it looks, without waiting, whether the client has left, by what that has
/// sent ([`SocketLink`] says how). Then the call fails.
#[derive(Drop)]
pub struct TcpLink {
    // The same stream as that of the link.
    stream: TcpStream,
    link: SocketLink<TcpStream>,
    /// How often its client was looked for and was there. It stands still at 2^64 - 1.
    pub found: u64,
    /// How often a call has failed. It stands still at 2^64 - 1.
    pub faults: u64,
}

impl TcpLink {
    /// A link over a stream whose handshake is still to come, and another handle of it.
    pub fn new(stream: TcpStream, handle: TcpStream) -> io::Result<TcpLink> {
        stream.set_read_timeout(Some(Duration::from_secs(KEY_SECONDS)))?;
        stream.set_write_timeout(Some(Duration::from_secs(WRITE_SECONDS)))?;
        stream.set_nodelay(true)?;
        let link = SocketLink::new(handle);
        Ok(TcpLink {
            stream,
            link,
            found: 0,
            faults: 0,
        })
    }

    // Whether nothing has come since all was read that the client had sent. Where the stream doesn't block.
    fn is_quiet(&self) -> bool {
        if !self.link.read_all {
            return false;
        }
        let mut byte = [0];
        match self.stream.peek(&mut byte) {
            Ok(_) => false,
            Err(error) => error.kind() == io::ErrorKind::WouldBlock,
        }
    }

    // Looks for the client without waiting. It is there where nothing has come.
    fn seek(&mut self) -> Result<(), Failed>
        ensures others { (self.new.found ≡ self.old.found) × (self.new.faults ≡ self.old.faults) }
    {
        if self.stream.set_nonblocking(true).is_err() {
            return Err(Failed);
        }
        let found = if self.is_quiet() {
            Ok(())
        } else {
            self.link.find()
        };
        if self.stream.set_nonblocking(false).is_err() {
            return Err(Failed);
        }
        found
    }

    // Counts a fault where a call has failed.
    fn told(&mut self, told: Result<(), Failed>) -> Result<(), Failed>
        ensures cause { HasCause self.old.faults self.new.faults result }
        ensures same { result ≡ told }
        ensures found { self.new.found ≡ self.old.found }
    {
        if told.is_err() {
            self.faults = self.faults.saturating_add(1);
        }
        told
    }
}

impl PokeLink for TcpLink {
    ghost use Rattle.std.specs.Prelude.{None};
    ghost use Rattle.rv_poke.specs.Links.{Finds, Says, Takes};
    ghost use Rattle.rv_poke.specs.declared.sent.Sent.TheVariants.{Close, Ping, Poke};

    // Nothing is told of a real client.
    ghost state = { λ s. record { coming = None; sent = None; found = s.found; faults = s.faults } };

    fn first(&mut self, alloc: Global) -> Result<First, Fault> {
        match self.link.first(alloc) {
            Ok(first) => Ok(first),
            Err(Fault::Memory) => Err(Fault::Memory),
            Err(Fault::Failed) => {
                self.faults = self.faults.saturating_add(1);
                Err(Fault::Failed)
            }
        }
    }

    fn send_poke(&mut self) -> Result<(), Failed> {
        let sent = match self.seek() {
            Ok(()) => self.link.send_poke(),
            Err(Failed) => Err(Failed),
        };
        self.told(sent)
    }

    fn find(&mut self) -> Result<(), Failed> {
        match self.seek() {
            Ok(()) => {
                self.found = self.found.saturating_add(1);
                Ok(())
            }
            Err(Failed) => self.told(Err(Failed)),
        }
    }

    fn ping(&mut self) -> Result<(), Failed> {
        let sent = match self.seek() {
            Ok(()) => self.link.ping(),
            Err(Failed) => Err(Failed),
        };
        self.told(sent)
    }

    fn close(&mut self, code: u16) -> Result<(), Failed> {
        let closed = self.link.close(code);
        self.told(closed)
    }
}
