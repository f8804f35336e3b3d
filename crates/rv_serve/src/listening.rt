// The connections of a listener are served.
ghost use Rattle.std.specs.Prelude.{◌≡◌};
ghost use Rattle.rv_base.specs.Outside.{counted};
ghost use Rattle.rv_serve.specs.Listening.{ServesPast};

use crate::gate::Gate;
use crate::serving::serve_with;
use rv_accounts::Accounts;
use rv_net::{Accepted, Listen};
use rv_turns::{CountsSettled, Turns};
use std::alloc::Global;

/// Serves the connections of a listener, one after the other, until none is to come. Each goes back to it, whatever its end. The gate
/// hears of each request that is answered.
pub fn serve_listener<T: Turns + CountsSettled, G: Gate, L: Listen>(
    alloc: Global,
    turns: &mut T,
    accounts: &Accounts,
    gate: &mut G,
    listener: &mut L,
)
    ensures serves { ServesPast T.takes T.settled L.Listen L.In.Source L.Out.Sink accounts.now G.Gate turns.old listener.old gate.old turns.new listener.new gate.new }
    ensures tells { L.tells listener.new → L.tells listener.old }
    ensures ends { L.ends listener.new ≡ counted (L.ends listener.old) }
{
    let mut tools = None;
    loop {
        match listener.accept() {
            Accepted::Conn(conn) => {
                let mut conn = conn;
                let (_end, left) = serve_with(alloc, turns, accounts, gate, tools, &mut conn);
                tools = left;
                listener.done(conn);
            }
            Accepted::End => return,
        }
    }
}
