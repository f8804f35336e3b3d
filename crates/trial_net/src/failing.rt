// A reader and a writer of std that fail, behind the adapters.
ghost use Rattle.std.specs.Prelude.{◌≤◌, IfOk};

use rv_base::{Reading, Sink, Source, Writing};
use std::io;
use std::io::{ErrorKind, Read, Write};

// Fails at its first two calls, and then gives or takes all that there is.
#[derive(Drop)]
struct FailsTwice {
    calls: u64,
}

impl FailsTwice {
    // The answer to one more call, over so many bytes.
    fn called(&mut self, count: usize) -> io::Result<usize>
        ensures { IfOk result (λ n. n ≤ count) }
    {
        self.calls = self.calls.saturating_add(1);
        match self.calls {
            1 => Err(ErrorKind::Interrupted.into()),
            2 => Err(ErrorKind::TimedOut.into()),
            _ => Ok(count),
        }
    }
}

impl Read for FailsTwice {
    fn read(&mut self, piece: &mut [u8]) -> io::Result<usize> {
        self.called(piece.len())
    }
}

impl Write for FailsTwice {
    fn write(&mut self, piece: &[u8]) -> io::Result<usize> {
        self.called(piece.len())
    }

    fn flush(&mut self) -> io::Result<()> {
        Ok(())
    }
}

// What came of a call of an adapter, and how many calls it has made in all.
fn print_call(rt: &HostRuntime, failed: bool, faults: u64, calls: u64) -> anyhow::Result<()> {
    println!(rt; "failed: {failed}, faults: {faults}, calls: {calls}")?;
    Ok(())
}

/// Reads three times by an adapter, and then writes so. Each call is one of the reader or the writer, which is not called again where
/// it has failed.
pub fn call(rt: &HostRuntime) -> anyhow::Result<()> {
    println!(rt; "== a reader and a writer that fail twice")?;
    let mut reading = Reading::new(FailsTwice { calls: 0 });
    for _ in 0..3 {
        let failed = reading.read(&mut [0; 8]).is_err();
        print_call(rt, failed, reading.faults, reading.inner.calls)?;
    }
    let mut writing = Writing::new(FailsTwice { calls: 0 });
    for _ in 0..3 {
        let failed = writing.write(b"a piece").is_err();
        print_call(rt, failed, writing.faults, writing.inner.calls)?;
    }
    Ok(())
}
