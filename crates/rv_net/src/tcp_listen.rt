// A listener over TCP.
ghost use Rattle.std.specs.Prelude.{◌≡◌, []};
ghost use Rattle.rv_base.specs.Outside.{counted, counted_if};
ghost use Rattle.rv_net.specs.Accepting.{GivesFewer, TakesOne, TakesOneLink, is_end, is_last, is_nobody};

use crate::accepted::Accepted;
use crate::awaited::Awaited;
use crate::conn::Conn;
use crate::lingering::linger;
use crate::listen::Listen;
use crate::patience::Patience;
use crate::poke_listen::PokeListen;
use crate::tcp_link::TcpLink;
use rv_base::{Reading, Writing};
use std::io;
use std::net::{TcpListener, TcpStream};
use std::sync::Wait;
use std::sync::atomic::AtomicU64;
use std::time::Duration;

/// How long one read or one write of a connection waits, in seconds. A client that sends or takes nothing for so long is
/// told as a read or a write that failed, so it can't hold a worker for good.
pub const IDLE_SECONDS: u64 = 30;

// How long a listener for links waits for one, in milliseconds, before it answers that none came.
const PAUSE_MILLISECONDS: u64 = 20;

/// A connection over TCP.
pub type TcpConn = Conn<Reading<TcpStream>, Writing<TcpStream>>;

/// Accepts connections at a socket of this machine, or links, until it has accepted so many, or one can't be had. What they are is not
/// told. For links, its socket is to be one that doesn't block.
///
/// Where it fails to get a connection it tries again, as far as that may pass: a client that has gone, files or memory that are short.
/// After a hundred failures for one connection, or five seconds in which files are short, it can't be had.
///
/// A connection that comes back is closed, but its sending is ended first, and what the client still sends is read and dropped, for at
/// most [`LINGER_SECONDS`](crate::LINGER_SECONDS); so the client can read all that was written. One of which a read has failed is closed
/// at once.
#[derive(Drop)]
pub struct TcpListen {
    clock: HostRuntime,
    listener: TcpListener,
    /// How many connections it still accepts, at most.
    pub left: u32,
    /// How often it has answered that no connection is to come. It stands still at 2^64 - 1.
    pub ends: u64,
}

impl TcpListen {
    /// A listener that accepts at most so many connections, by the clock of this runtime.
    pub fn new(clock: HostRuntime, listener: TcpListener, most: u32) -> TcpListen
        ensures left { result.left ≡ most }
        ensures ends { result.ends ≡ 0 }
    {
        TcpListen {
            clock,
            listener,
            left: most,
            ends: 0,
        }
    }

    // Waits for the next client, whose stream it gives by two handles; or, at a socket that doesn't block, tells that none waits.
    fn next(&self) -> io::Result<(TcpStream, TcpStream)> {
        let mut patience = Patience::new();
        let stream = patience.accept(&self.clock, &self.listener)?;
        let handle = patience.clone_of(&self.clock, &stream)?;
        Ok((stream, handle))
    }

    // Waits for the next connection.
    fn next_conn(&self) -> io::Result<TcpConn> {
        let (stream, handle) = self.next()?;
        connect(stream, handle)
    }

    // The next link, if one waits.
    fn next_link(&self) -> io::Result<TcpLink> {
        let (stream, handle) = self.next()?;
        TcpLink::new(stream, handle)
    }

    // Counts that no more are to come.
    fn end(&mut self)
        ensures left { self.new.left ≡ 0 }
        ensures ends { self.new.ends ≡ counted self.old.ends }
    {
        self.left = 0;
        self.ends = self.ends.saturating_add(1);
    }
}

// Sleeps for so long: nobody wakes the word.
fn pause<R: Wait>(rt: &R) {
    AtomicU64::new(0).park_timeout(rt, 0, Duration::from_millis(PAUSE_MILLISECONDS));
}

// The two halves of a stream of two handles. What is written is sent at once, and no read or write waits for good.
fn connect(stream: TcpStream, handle: TcpStream) -> io::Result<TcpConn> {
    let idle = Some(Duration::from_secs(IDLE_SECONDS));
    stream.set_read_timeout(idle)?;
    stream.set_write_timeout(idle)?;
    stream.set_nodelay(true)?;
    let source = Reading::new(stream);
    let sink = Writing::new(handle);
    Ok(Conn { source, sink })
}

impl Listen for TcpListen {
    type In = Reading<TcpStream>;

    type Out = Writing<TcpStream>;

    // Of real connections nothing is told.
    ghost tells = { λ s. ⊥ };

    ghost to_come = { λ s. [] };

    ghost came_back = { λ s. [] };

    ghost out = { λ s. 0 };

    ghost ends = { λ s. s.ends };

    ghost accepts = { λ s. s.left };

    fn end_count(&self) -> u64
        ensures { result ≡ self.now.ends }
    {
        self.ends
    }

    fn accept(&mut self) -> Accepted<TcpConn>
        ensures ends { self.new.ends ≡ counted_if (is_end result) self.old.ends }
        ensures left { TakesOne self.old.left self.new.left result }
        ensures fewer { GivesFewer self.old.left self.new.left result }
    {
        if self.left > 0 {
            if let Ok(conn) = self.next_conn() {
                self.left -= 1;
                return Accepted::Conn(conn);
            }
        }
        self.end();
        Accepted::End
    }

    fn done(&mut self, mut conn: TcpConn)
        ensures { self.new ≡ self.old }
    {
        if conn.source.faults == 0 {
            // where this fails the connection is closed all the same
            let _lingered = linger(&self.clock, &mut conn.source.inner);
        }
    }
}

impl PokeListen for TcpListen {
    ghost use Rattle.std.specs.Prelude.{true, false};

    type Link = TcpLink;

    // Of real links nothing is told.
    ghost tells = { λ s. ⊥ };

    ghost to_come = { λ s. [] };

    ghost came_back = { λ s. [] };

    ghost out = { λ s. 0 };

    ghost ends = { λ s. s.ends };

    fn accept<R: Wait>(&mut self, rt: &R, is_over: bool) -> Awaited<TcpLink>
        ensures ends { self.new.ends ≡ counted_if (is_last result) self.old.ends }
        ensures left { TakesOneLink self.old.left self.new.left result }
        ensures over { is_over ≡ true → is_nobody result ≡ false }
    {
        if is_over || self.left == 0 {
            self.end();
            return Awaited::End;
        }
        match self.next_link() {
            Ok(link) => {
                self.left -= 1;
                Awaited::Link(link)
            }
            Err(error) if error.kind() == io::ErrorKind::WouldBlock => {
                pause(rt);
                Awaited::Nobody
            }
            Err(_) => {
                self.end();
                Awaited::End
            }
        }
    }

    fn done(&mut self, _link: TcpLink)
        ensures { self.new ≡ self.old }
    {}
}
