// Which failures a listener over TCP bears.
ghost use Rattle.std.specs.Prelude.{◌≡◌, ◌+◌, IfOk};

use std::io::ErrorKind;
use std::net::{TcpListener, TcpStream};
use std::time::{Clock, Duration};
use std::{io, thread};

// How many failures are borne for one connection.
const MOST_FAILURES: u32 = 100;

// How long is waited after one that says that files or memory are short, in milliseconds. So files may be short for five seconds.
const SHORT_MILLISECONDS: u64 = 50;

// What Linux says where the system has too many files, where this program has, and where sockets have no room: the kinds of std have
// no names for these.
const SHORT_CODES: [i32; 3] = [23, 24, 105];

/// How many more failures are borne before a connection counts as one that can't be had.
#[derive(Drop)]
pub struct Patience {
    left: u32,
}

// Whether files or memory are short, which may pass.
fn is_short(error: &io::Error) -> bool {
    match error.raw_os_error() {
        Some(code) => SHORT_CODES.contains(&code) || error.kind() == ErrorKind::OutOfMemory,
        None => false,
    }
}

// Whether it is the failure of one client's connection, or of no more than this call.
fn is_of_one_client(error: &io::Error) -> bool {
    matches!(
        error.kind(),
        ErrorKind::ConnectionAborted
            | ErrorKind::ConnectionReset
            | ErrorKind::Interrupted
            | ErrorKind::NetworkDown
            | ErrorKind::NetworkUnreachable
            | ErrorKind::HostUnreachable
    )
}

impl Patience {
    /// All of the patience that there is for one connection.
    pub fn new() -> Patience {
        Patience {
            left: MOST_FAILURES,
        }
    }

    // Bears a failure that may pass, after a pause where files or memory are short. Any other, or one too many, is given back.
    fn bear(&mut self, clock: &impl Clock, error: io::Error) -> io::Result<()>
        ensures { IfOk result (λ _. self.old.left ≡ self.new.left + 1) }
    {
        if self.left == 0 {
            return Err(error);
        }
        self.left -= 1;
        if is_short(&error) {
            thread::sleep(clock, Duration::from_millis(SHORT_MILLISECONDS));
            return Ok(());
        }
        if is_of_one_client(&error) {
            return Ok(());
        }
        Err(error)
    }

    /// The stream of the next client at a socket. One that doesn't block tells that none waits as its socket does.
    pub fn accept(&mut self, clock: &impl Clock, socket: &TcpListener) -> io::Result<TcpStream> {
        loop {
            match socket.accept() {
                Ok((stream, _address)) => return Ok(stream),
                Err(error) => self.bear(clock, error)?,
            }
        }
    }

    /// Another handle of a stream.
    pub fn clone_of(&mut self, clock: &impl Clock, stream: &TcpStream) -> io::Result<TcpStream> {
        loop {
            match stream.try_clone() {
                Ok(handle) => return Ok(handle),
                Err(error) => self.bear(clock, error)?,
            }
        }
    }
}
