// Replies to pulls, with their texts.
ghost use Rattle.std.specs.Prelude.{◌≡◌, decimal, true, false, [], IfOk};
ghost use Rattle.rv_base.specs.Sorted.{InOrder};
ghost use Rattle.rv_views.specs.declared.cookie.Cookie.TheVariants.{Bare, Named};
ghost use Rattle.rv_wire.specs.Answers.{reply_of};

use crate::answer::pull_text;
use itoa::Buffer;
use rv_base::{Memory, Num, Sequence, Text, TextRefusal};
use rv_rows::Clients;
use rv_turns::{Ops, PullReply, PullRequest};
use rv_views::Cookie;
use std::alloc::Global;

fn place_text(alloc: Global, place: u32) -> Result<Text, Memory>
    ensures { IfOk result (λ text. text ≡ decimal place) }
{
    let mut buffer = Buffer::new();
    match Text::new(alloc, buffer.format(place)) {
        Ok(text) => Ok(text),
        Err(TextRefusal::Memory) => Err(Memory),
        Err(TextRefusal::TooShort) => unreachable!(),
        Err(TextRefusal::TooLong(_)) => unreachable!(),
    }
}

// The reply that tells this, with a cookie of its own.
fn told_reply(alloc: Global, cookie: Cookie, ids: Clients, ops: Ops) -> Result<PullReply, Memory>
    requires { InOrder (λ pair. pair.0) ids }
    ensures { IfOk result (λ reply. reply ≡ reply_of false cookie ids ops) }
{
    let text = pull_text(alloc, &cookie, &ids, &ops)?;
    Ok(PullReply {
        cookie,
        same: false,
        ids,
        ops,
        text,
    })
}

/// The reply of a look that is entered at this place, with this order. The ids are in the order of the clients' bytes and each
/// client's once.
pub fn look_reply(
    alloc: Global,
    place: u32,
    order: Num,
    ids: Clients,
    ops: Ops,
) -> Result<PullReply, Memory>
    requires { InOrder (λ pair. pair.0) ids }
    ensures { IfOk result (λ reply. reply ≡ reply_of false (Named (decimal place) order) ids ops) }
{
    let cookie = Cookie::Named {
        place_text: place_text(alloc, place)?,
        order,
    };
    told_reply(alloc, cookie, ids, ops)
}

/// The reply of a pull that enters nothing, with this order: its cookie is the bare order, which names no base. The ids are in the
/// order of the clients' bytes and each client's once.
pub fn bare_reply(alloc: Global, order: Num, ids: Clients, ops: Ops) -> Result<PullReply, Memory>
    requires { InOrder (λ pair. pair.0) ids }
    ensures { IfOk result (λ reply. reply ≡ reply_of false (Bare order) ids ops) }
{
    told_reply(alloc, Cookie::Bare(order), ids, ops)
}

/// The reply of the request's own cookie, which tells nothing.
pub fn same_reply(alloc: Global, request: &PullRequest) -> Result<PullReply, Memory>
    ensures { IfOk result (λ reply. reply ≡ reply_of true request.now.cookie [] []) }
{
    let cookie = request.cookie.copy(alloc)?;
    let ids = Sequence::new(alloc);
    let ops = Sequence::new(alloc);
    let text = pull_text(alloc, &cookie, &ids, &ops)?;
    Ok(PullReply {
        cookie,
        same: true,
        ids,
        ops,
        text,
    })
}
