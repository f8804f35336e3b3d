// The client's side of a connection.
use std::io;
use std::io::{Read, Write};
use std::net::{Ipv4Addr, Shutdown, TcpStream};

/// A connection to a port of this machine.
pub fn connect(rt: &HostRuntime, port: u16) -> io::Result<TcpStream> {
    TcpStream::connect(rt, (Ipv4Addr::LOCALHOST, port))
}

/// Writes a question.
pub fn ask(stream: &mut TcpStream) -> io::Result<()> {
    stream.write_all(b"who is there")
}

/// Writes 150 questions, and ends its sending.
pub fn ask_ahead(stream: &mut TcpStream) -> io::Result<()> {
    for _ in 0..150 {
        ask(stream)?;
    }
    stream.shutdown(Shutdown::Write)
}

/// Prints what was answered, up to the end.
pub fn print_answer(rt: &HostRuntime, stream: TcpStream) -> anyhow::Result<()> {
    let answer = io::read_to_string(rt.alloc(), stream)?;
    println!(rt; "answered: {answer}")?;
    Ok(())
}
