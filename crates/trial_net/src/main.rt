//! Connections over TCP, of this program to itself: each is accepted after a client has connected. What happens is printed, and
//! no port. Then a reader and a writer of std fail behind the adapters, and poke sessions are played, over links in memory and over
//! WebSocket on streams in memory.
#![tactic(auto)]

mod client;
mod failing;
mod linking;
mod pieces;
mod poking;
mod script;
mod server;

use rv_net::{Listeners, Net, TcpListen, TcpNet};
use std::net::{Ipv4Addr, TcpStream};

// The ports that are tried, one after another, and the one after the last.
const FIRST_PORT: u16 = 42080;

const PORTS_END: u16 = 42180;

// Three listeners, each of which takes one connection, at the first port that is free.
fn open(net: &mut TcpNet<'_>) -> anyhow::Result<(u16, Listeners<TcpListen>)> {
    for port in FIRST_PORT..PORTS_END {
        if let Ok(listeners) = net.listen(port, 3, 1) {
            return Ok((port, listeners));
        }
    }
    anyhow::bail!("no port is free")
}

// A client that asks, and is answered; then no connection is to come.
fn ask(rt: &HostRuntime, port: u16, listener: &mut TcpListen) -> anyhow::Result<()> {
    println!(rt; "== a client that asks")?;
    let mut stream = client::connect(rt, port)?;
    client::ask(&mut stream)?;
    server::serve(rt, listener)?;
    client::print_answer(rt, stream)?;
    server::serve(rt, listener)
}

// A client that asks more than is read, and reads its answer to the end; then no connection is to come.
fn ask_ahead(rt: &HostRuntime, port: u16, listener: &mut TcpListen) -> anyhow::Result<()> {
    println!(rt; "== a client that asks ahead")?;
    let mut stream = client::connect(rt, port)?;
    client::ask_ahead(&mut stream)?;
    server::serve(rt, listener)?;
    client::print_answer(rt, stream)?;
    server::serve(rt, listener)
}

// A client that closes at once; then no connection is to come, however often one is waited for.
fn close(rt: &HostRuntime, port: u16, listener: &mut TcpListen) -> anyhow::Result<()> {
    println!(rt; "== a client that closes")?;
    drop(client::connect(rt, port)?);
    server::serve(rt, listener)?;
    server::serve(rt, listener)?;
    server::serve(rt, listener)
}

// A port at which others listen can't be had.
fn listen_again(rt: &HostRuntime, net: &mut TcpNet<'_>, port: u16) -> anyhow::Result<()> {
    println!(rt; "== a port that is taken")?;
    let before = net.faults;
    let failed = net.listen(port, 1, 1).is_err();
    let faults = net.faults.wrapping_sub(before);
    println!(rt; "failed: {failed}, faults: {faults}")?;
    Ok(())
}

// Nobody listens at another address of this machine.
fn knock_elsewhere(rt: &HostRuntime, port: u16) -> anyhow::Result<()> {
    println!(rt; "== another address")?;
    let refused = TcpStream::connect(rt, (Ipv4Addr::new(127, 0, 0, 2), port)).is_err();
    println!(rt; "refused: {refused}")?;
    Ok(())
}

// One client asks, one asks ahead, and another closes, each at a listener of its own.
fn visit(rt: &HostRuntime, port: u16, listeners: &mut [TcpListen]) -> anyhow::Result<()> {
    if let [third, second, first] = listeners {
        ask(rt, port, first)?;
        ask_ahead(rt, port, second)?;
        close(rt, port, third)?;
    }
    Ok(())
}

// What happens while the listeners are there.
fn play(
    rt: &HostRuntime,
    net: &mut TcpNet<'_>,
    port: u16,
    listeners: &mut [TcpListen],
) -> anyhow::Result<()> {
    println!(rt; "listeners: {}", listeners.len())?;
    visit(rt, port, listeners)?;
    listen_again(rt, net, port)?;
    knock_elsewhere(rt, port)
}

fn main(rt: HostRuntime) -> anyhow::Result<()> {
    let mut net = TcpNet::new(&rt);
    let (port, listeners) = open(&mut net)?;
    let mut listeners = listeners.into_vec();
    let played = play(&rt, &mut net, port, &mut listeners);
    net.done(Listeners::from_vec(listeners));
    played?;
    failing::call(&rt)?;
    poking::play_all(&rt, &rt)?;
    linking::play_all(&rt, &rt)
}
