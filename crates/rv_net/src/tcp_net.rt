// A net over TCP.
ghost use Rattle.std.specs.Prelude.{◌≡◌, [], None, Err, IfOk, All, IsErrOf, MatchResult, length, vec_len};
ghost use Rattle.rv_base.specs.Causes.{Counts, Rose};
ghost use Rattle.rv_base.specs.declared.fault.Fault.TheVariants as Fault;

use crate::listeners::Listeners;
use crate::net::Net;
use crate::tcp_listen::TcpListen;
use rv_base::Fault;
use std::io;
use std::net::{Ipv4Addr, TcpListener};

/// Gives listeners at the ports of this machine's loopback address, 127.0.0.1. Listeners of one call share one socket.
/// Nothing is told of their connections, and listeners that come back are closed. The count of faults stands still at
/// 2^64 - 1.
#[derive(Drop)]
pub struct TcpNet<'a> {
    rt: &'a HostRuntime,
    /// How often a call has failed, but for want of memory.
    pub faults: u64,
}

impl<'a> TcpNet<'a> {
    /// The net that the machine of this runtime has. Nothing is bound yet.
    pub fn new(rt: &'a HostRuntime) -> TcpNet<'a>
        ensures { result.faults ≡ 0 }
    {
        TcpNet { rt, faults: 0 }
    }

    // Listeners that were opened; a fault is counted.
    fn told(&mut self, opened: Result<Vec<TcpListen>, Fault>) -> Result<Listeners<TcpListen>, Fault>
        ensures given { MatchResult opened (λ opened. IfOk result (λ given. given.listeners ≡ opened.items)) (λ fault. result ≡ Err fault) }
        ensures faults { Counts self.old.faults self.new.faults result }
        ensures failed { IsErrOf result Fault.Failed → Rose self.old.faults self.new.faults }
    {
        match opened {
            Ok(given) => Ok(Listeners::from_vec(given)),
            Err(Fault::Memory) => Err(Fault::Memory),
            Err(Fault::Failed) => {
                self.faults = self.faults.saturating_add(1);
                Err(Fault::Failed)
            }
        }
    }
}

// So many listeners at one socket.
fn share(
    rt: &HostRuntime,
    socket: &TcpListener,
    count: u32,
    most: u32,
) -> Result<Vec<TcpListen>, Fault>
    ensures count { IfOk result (λ given. vec_len given ≡ count) }
    ensures left { IfOk result (λ given. All (λ listener. listener.left ≡ most) given.items) }
{
    let mut given = Vec::with_capacity(rt.alloc(), count as usize)?;
    for _ in 0..count {
        match socket.try_clone() {
            Ok(listener) => given.push_reserved(TcpListen::new(*rt, listener, most)),
            Err(_) => return Err(Fault::Failed),
        }
    }
    Ok(given)
}

// So many listeners at a port, for links.
fn open_pokes(rt: &HostRuntime, port: u16, count: u32, most: u32) -> Result<Vec<TcpListen>, Fault>
    ensures count { IfOk result (λ given. vec_len given ≡ count) }
    ensures left { IfOk result (λ given. All (λ listener. listener.left ≡ most) given.items) }
{
    match bind(rt, port) {
        Ok(socket) => match socket.set_nonblocking(true) {
            Ok(()) => share(rt, &socket, count, most),
            Err(_) => Err(Fault::Failed),
        },
        Err(_) => Err(Fault::Failed),
    }
}

// So many listeners at a port, for connections.
fn open(rt: &HostRuntime, port: u16, count: u32, most: u32) -> Result<Vec<TcpListen>, Fault>
    ensures count { IfOk result (λ given. vec_len given ≡ count) }
    ensures left { IfOk result (λ given. All (λ listener. listener.left ≡ most) given.items) }
{
    match bind(rt, port) {
        Ok(socket) => share(rt, &socket, count, most),
        Err(_) => Err(Fault::Failed),
    }
}

// A socket that listens at a port.
fn bind(rt: &HostRuntime, port: u16) -> io::Result<TcpListener> {
    TcpListener::bind(rt, (Ipv4Addr::LOCALHOST, port))
}

impl Net for TcpNet<'_> {
    type Listen = TcpListen;

    type Pokes = TcpListen;

    // Of a real net nothing is told.
    ghost tells = { λ s. ⊥ };

    ghost listeners = { λ s. record { to_give = []; came_back = []; out = 0; wanted = None } };

    ghost pokes = { λ s. record { to_give = []; came_back = []; out = 0; wanted = None } };

    ghost faults = { λ s. s.faults };

    ghost fails_no_more = { λ s. ⊥ };

    fn listen(&mut self, port: u16, count: u32, most: u32) -> Result<Listeners<TcpListen>, Fault>
        ensures count { IfOk result (λ given. length given.listeners ≡ count) }
        ensures left { IfOk result (λ given. All (λ listener. listener.left ≡ most) given.listeners) }
        ensures faults { Counts self.old.faults self.new.faults result }
        ensures failed { IsErrOf result Fault.Failed → Rose self.old.faults self.new.faults }
    {
        let opened = open(self.rt, port, count, most);
        self.told(opened)
    }

    fn listen_pokes(
        &mut self,
        port: u16,
        count: u32,
        most: u32,
    ) -> Result<Listeners<TcpListen>, Fault>
        ensures count { IfOk result (λ given. length given.listeners ≡ count) }
        ensures left { IfOk result (λ given. All (λ listener. listener.left ≡ most) given.listeners) }
        ensures faults { Counts self.old.faults self.new.faults result }
        ensures failed { IsErrOf result Fault.Failed → Rose self.old.faults self.new.faults }
    {
        let opened = open_pokes(self.rt, port, count, most);
        self.told(opened)
    }

    fn done(&mut self, _returned: Listeners<TcpListen>)
        ensures { self.new ≡ self.old }
    {}

    fn done_pokes(&mut self, _returned: Listeners<TcpListen>)
        ensures { self.new ≡ self.old }
    {}

    ghost steady_tells = { λ net steady. absurd steady };
}
