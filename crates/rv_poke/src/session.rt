// A poke session.
ghost use Rattle.std.specs.Prelude.{◌≡◌, option_map};
ghost use Rattle.rv_poke.specs.Looking.{Heeded, Looked, rise_of};
ghost use Rattle.rv_poke.specs.Sessions.{EndCause, Session, Watches, session_state, user_named};

use crate::bell::Bell;
use crate::first::First;
use crate::poke_end::PokeEnd;
use crate::poke_link::PokeLink;
use crate::waited::Waited;
use rv_accounts::Accounts;
use rv_base::{Failed, Fault, User};
use rv_turns::Marks;
use std::alloc::Global;
use std::sync::Wait;

/// How many pokes a session sends at most.
pub const MOST_POKES: u32 = 10_000;

/// How often a session waits at most.
pub const MOST_WAITS: u32 = 1_000_000;

// The status code "policy violation" (RFC 6455, section 7.4.1).
const POLICY_VIOLATION: u16 = 1008;

// The user whose key the first message is.
fn user_of<'a>(accounts: &'a Accounts, first: &First) -> Option<&'a User>
    ensures { option_map (λ user. user.now) result ≡ user_named accounts.now.accounts first.now }
{
    match first {
        First::Text(key) => accounts.user_of(key.as_slice()),
        First::Other => None,
    }
}

// Looks at a user's mark, and sends a poke where it is above what was told; else it looks for the client. Answers what is told now.
fn look<M: Marks, L: PokeLink>(
    marks: &mut M,
    user: &User,
    link: &mut L,
    told: u32,
) -> Result<u32, Failed>
    ensures { Looked M.marks user.now told marks.old marks.new (L.state link.old) (L.state link.new) result }
{
    let mark = marks.mark(user);
    if mark <= told {
        link.find()?;
        return Ok(told);
    }
    link.send_poke()?;
    Ok(mark)
}

// How many pokes a look has sent, by what was told before it and after.
fn poked(told: u32, now: u32) -> u32
    ensures { result ≡ rise_of told now }
{
    if told < now { 1 } else { 0 }
}

// Waits for the bell: where it rings the session looks, and where it is silent it pings the client. Answers what is told now, or nothing
// where all is over.
fn heed<M: Marks, L: PokeLink, B: Bell, R: Wait>(
    rt: &R,
    marks: &mut M,
    user: &User,
    link: &mut L,
    bell: &mut B,
    told: u32,
) -> Result<Option<u32>, Failed>
    ensures { Heeded M.marks user.now told marks.old marks.new (L.state link.old) (L.state link.new) (B.state bell.old) (B.state bell.new) result }
{
    match bell.wait(rt) {
        Waited::Rung => {
            let now = look(marks, user, link, told)?;
            Ok(Some(now))
        }
        Waited::Quiet => {
            link.ping()?;
            Ok(Some(told))
        }
        Waited::Over => Ok(None),
    }
}

// Looks at a user's mark at once, and then does what the bell says, until the session ends.
fn watch<M: Marks, L: PokeLink, B: Bell, R: Wait>(
    rt: &R,
    marks: &mut M,
    user: &User,
    link: &mut L,
    bell: &mut B,
) -> PokeEnd
    ensures watches { Watches M.marks user.now (session_state marks.old (L.state link.old) (B.state bell.old)) (session_state marks.new (L.state link.new) (B.state bell.new)) result }
    ensures cause { EndCause (L.state link.old) (L.state link.new) result }
    ensures taken { (L.state link.new).coming ≡ (L.state link.old).coming }
{
    let Ok(mut told) = look(marks, user, link, 0) else {
        return PokeEnd::LinkFault;
    };
    let mut pokes = poked(0, told);
    for _wait in 0..MOST_WAITS {
        if pokes == MOST_POKES {
            return PokeEnd::Done(pokes);
        }
        match heed(rt, marks, user, link, bell, told) {
            Ok(Some(now)) => {
                pokes += poked(told, now);
                told = now;
            }
            Ok(None) => return PokeEnd::Done(pokes),
            Err(Failed) => return PokeEnd::LinkFault,
        }
    }
    PokeEnd::Done(pokes)
}

/// Pokes the client of a link for as long as its session lasts.
///
/// The first message is to be a text that is an account's key; else the link is closed with 1008, and the session is denied, even
/// where the close fails. From then on the session looks at its user's mark, at once and after each ring of the bell. A look sends
/// the text `poke` exactly where the mark is above what was told, 0 at first, and then the mark is what was told; where it sends none, it
/// looks whether the client is there. Where the bell was silent it sends a ping. The session ends as all is over, after 10,000 pokes or
/// after 1,000,000 waits, where a poke or a ping can't be sent, or where the client has left. A poke is sent before the bell is asked
/// again.
pub fn poke_session<M: Marks, L: PokeLink, B: Bell, R: Wait>(
    rt: &R,
    alloc: Global,
    marks: &mut M,
    accounts: &Accounts,
    link: &mut L,
    bell: &mut B,
) -> PokeEnd
    ensures session { Session M.marks accounts.now.accounts (session_state marks.old (L.state link.old) (B.state bell.old)) (session_state marks.new (L.state link.new) (B.state bell.new)) result }
    ensures cause { EndCause (L.state link.old) (L.state link.new) result }
{
    let first = match link.first(alloc) {
        Ok(first) => first,
        Err(Fault::Failed) => return PokeEnd::LinkFault,
        Err(Fault::Memory) => return PokeEnd::Memory,
    };
    let Some(user) = user_of(accounts, &first) else {
        let _ = link.close(POLICY_VIOLATION);
        return PokeEnd::Denied;
    };
    watch(rt, marks, user, link, bell)
}
