// The links of a listener are served.
ghost use Rattle.std.specs.Prelude.{◌≡◌};
ghost use Rattle.rv_base.specs.Outside.{counted};
ghost use Rattle.rv_serve.specs.Poking.{ServesLinks};

use rv_accounts::Accounts;
use rv_net::{Awaited, PokeListen};
use rv_poke::{Bell, poke_session};
use rv_turns::Marks;
use std::alloc::Global;
use std::sync::Wait;

/// Serves the links of a listener, each by a poke session, one after the other, until none is to come. Each goes back to it, whatever its
/// session's end. Once the bell says that all is over, the listener is told so.
pub fn serve_links<M: Marks, B: Bell, P: PokeListen, R: Wait>(
    rt: &R,
    alloc: Global,
    marks: &mut M,
    accounts: &Accounts,
    bell: &mut B,
    listener: &mut P,
)
    ensures serves { ServesLinks M.marks P.PokeListen P.Link.PokeLink accounts.now.accounts marks.old (B.state bell.old) listener.old marks.new (B.state bell.new) listener.new }
    ensures tells { P.tells listener.new → P.tells listener.old }
    ensures ends { P.ends listener.new ≡ counted (P.ends listener.old) }
{
    for _link in rt.forever() {
        match listener.accept(rt, bell.is_over()) {
            Awaited::Link(link) => {
                let mut link = link;
                poke_session(rt, alloc, marks, accounts, &mut link, bell);
                listener.done(link);
            }
            Awaited::Nobody => {}
            Awaited::End => return,
        }
    }
    unreachable!()
}
