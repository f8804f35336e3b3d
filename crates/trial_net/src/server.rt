// The server's side of a connection.
use rv_base::{Source, write_all};
use rv_net::{Accepted, Listen, TcpConn, TcpListen};
use std::time::Duration;

/// Serves the next connection, where one is to come.
pub fn serve(rt: &HostRuntime, listener: &mut TcpListen) -> anyhow::Result<()> {
    match listener.accept() {
        Accepted::Conn(mut conn) => {
            print_settings(rt, &conn)?;
            answer(rt, &mut conn)?;
            listener.done(conn);
        }
        Accepted::End => println!(rt; "no connection is to come: {}", listener.end_count())?,
    }
    Ok(())
}

// The seconds of a time-out, or 0.
fn seconds(idle: Option<Duration>) -> u64 {
    match idle {
        Some(idle) => idle.as_secs(),
        None => 0,
    }
}

// How long the two halves wait, and whether what is written is sent at once.
fn print_settings(rt: &HostRuntime, conn: &TcpConn) -> anyhow::Result<()> {
    let read = seconds(conn.source.inner.read_timeout()?);
    let write = seconds(conn.sink.inner.write_timeout()?);
    let at_once = conn.sink.inner.nodelay()?;
    println!(rt; "waits {read} and {write} seconds, sends at once: {at_once}")?;
    Ok(())
}

// Answers one question.
fn answer(rt: &HostRuntime, conn: &mut TcpConn) -> anyhow::Result<()> {
    let mut piece = [0; 64];
    match conn.source.read(&mut piece) {
        Ok(0) => println!(rt; "asked nothing")?,
        Ok(count) => {
            let question = std::str::from_utf8(&piece[..count]).unwrap_or("no text");
            println!(rt; "asked: {question}")?;
            let written = write_all(&mut conn.sink, b"a server").is_ok();
            println!(rt; "written: {written}")?;
        }
        Err(_) => println!(rt; "the read failed")?,
    }
    Ok(())
}
