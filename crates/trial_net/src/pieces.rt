// A stream in memory.
use std::io;
use std::io::{ErrorKind, Read, Write};

/// The answer to a request's head that takes its upgrade.
const UPGRADE: &[u8] =
    b"HTTP/1.1 101 Switching Protocols\r\nconnection: Upgrade\r\nupgrade: websocket\r\nsec-websocket-accept: s3pPLMBiTxaQ9kYGzzhZRbK+xOo=\r\n\r\n";

/// Gives pieces, one at each read, and then its end; prints what is written. It fails at one of its calls.
#[derive(Drop)]
pub struct Pieces<'a> {
    /// Where it prints.
    pub rt: &'a HostRuntime,
    /// The pieces.
    pub pieces: &'a [&'a [u8]],
    /// How many of them were given.
    pub given: usize,
    /// The number of the call that fails, from 1; 0 where none does.
    pub failing: u64,
    /// How many calls there were.
    pub calls: u64,
}

impl Pieces<'_> {
    // Counts a call, which may be the one that fails.
    fn called(&mut self) -> io::Result<()> {
        self.calls = self.calls.saturating_add(1);
        if self.calls == self.failing {
            return Err(ErrorKind::ConnectionReset.into());
        }
        Ok(())
    }
}

impl Read for Pieces<'_> {
    fn read(&mut self, room: &mut [u8]) -> io::Result<usize> {
        self.called()?;
        let Some(piece) = self.pieces.get(self.given) else {
            return Ok(0);
        };
        self.given = self.given.saturating_add(1);
        let count = piece.len().min(room.len());
        room[..count].copy_from_slice(&piece[..count]);
        Ok(count)
    }
}

impl Write for Pieces<'_> {
    fn write(&mut self, piece: &[u8]) -> io::Result<usize> {
        self.called()?;
        if piece == UPGRADE {
            println!(self.rt; "takes the upgrade")?;
        } else {
            println!(self.rt; "writes \"{}\"", piece.escape_ascii())?;
        }
        Ok(piece.len())
    }

    fn flush(&mut self) -> io::Result<()> {
        self.called()
    }
}
