// How a connection over TCP is closed.
use std::io;
use std::io::Read;
use std::net::{Shutdown, TcpStream};
use std::time::{Clock, Duration, Instant};

/// How long a connection that is to be closed is still read, at most, in seconds.
pub const LINGER_SECONDS: u64 = 2;

// How many bytes of it are read then, at most: bodies of four times the limit, as a client may have sent them before it looks for an
// answer.
const LINGER_BYTES: usize = 16_777_216;

/// Ends the sending of a stream that is to be closed, and then reads and drops what its client still sends: up to the client's end, for at
/// most [`LINGER_SECONDS`], and at most 16 MiB. A stream that is closed with bytes unread is reset, and its client may lose what was
/// written to it.
pub fn linger(clock: &impl Clock, stream: &mut TcpStream) -> io::Result<()> {
    stream.shutdown(Shutdown::Write)?;
    let start = Instant::now(clock)?;
    let mut piece = [0; 4096];
    let mut left = LINGER_BYTES;
    while left > 0 {
        let passed = start.elapsed(clock)?;
        let wait = Duration::from_secs(LINGER_SECONDS).saturating_sub(passed);
        if wait.is_zero() {
            return Ok(());
        }
        stream.set_read_timeout(Some(wait))?;
        let count = stream.read(&mut piece)?;
        if count == 0 {
            return Ok(());
        }
        left = left.saturating_sub(count);
    }
    Ok(())
}
