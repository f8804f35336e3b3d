// The turn of a request that was made.
ghost use Rattle.std.specs.Prelude.{◌≡◌, IfOk};
ghost use Rattle.rv_desk.specs.DeskStates.{DeskTakes};
ghost use Rattle.rv_make.specs.Asking.{maker, asks_by, ask_for};
ghost use Rattle.rv_make.specs.Devices.{user_number};
ghost use Rattle.rv_make.specs.declared.made.MadeRequest.TheVariants as requests;
ghost use Rattle.rv_turns.specs.Asks.{Ask};

use crate::devices::{Device, user_number};
use crate::made::MadeRequest;
use crate::three::Three;
use rv_base::{Id, Memory, Num, User};
use rv_desk::Desk;
use rv_keeper::Keeper;
use rv_rows::Call;
use rv_turns::{Asked, Outcome, PullRequest, Turns};
use rv_views::Cookie;
use std::alloc::Global;

impl MadeRequest {
    // The number of the user who makes it.
    pub(crate) fn user_number(&self) -> u32
        ensures { result ≡ user_number (maker self.now) }
    {
        match self {
            MadeRequest::Push { user, .. } => user_number(user),
            MadeRequest::PullLast(user) => user_number(user),
            MadeRequest::PullNull(user) => user_number(user),
        }
    }
}

// A push of a device's client.
fn push<K: Keeper>(desk: &mut Desk<K>, device: &Device, user: User, id: Num, call: Call) -> Outcome
    ensures { DeskTakes K.Keeper desk.old (asks_by (requests.Push user id call) device.now) result desk.new }
{
    desk.mutate(&user, &device.group, &device.client, id, call)
}

// A pull for a group, with this cookie.
fn pull<K: Keeper>(
    alloc: Global,
    desk: &mut Desk<K>,
    group: &Id,
    user: User,
    cookie: Cookie,
) -> Result<Outcome, Memory>
    ensures { IfOk result (λ outcome. DeskTakes K.Keeper desk.old (Ask.pull user (record { group = group.now; cookie = cookie })) outcome desk.new) }
{
    let group = group.copy(alloc)?;
    let request = PullRequest { group, cookie };
    Ok(desk.take(Asked::Pull {
        user: &user,
        request: &request,
    }))
}

// Takes the turn of a request, by the device of its user.
fn take_by<K: Keeper>(
    alloc: Global,
    desk: &mut Desk<K>,
    device: &Device,
    request: MadeRequest,
) -> Result<Outcome, Memory>
    ensures { IfOk result (λ outcome. DeskTakes K.Keeper desk.old (asks_by request device.now) outcome desk.new) }
{
    match request {
        MadeRequest::Push { user, id, call } => Ok(push(desk, device, user, id, call)),
        MadeRequest::PullLast(user) => {
            let cookie = device.cookie.copy(alloc)?;
            pull(alloc, desk, &device.group, user, cookie)
        }
        MadeRequest::PullNull(user) => pull(alloc, desk, &device.group, user, Cookie::Null),
    }
}

// Takes the turn of a request.
pub(crate) fn take<K: Keeper>(
    alloc: Global,
    desk: &mut Desk<K>,
    devices: &Three<Device>,
    request: MadeRequest,
) -> Result<Outcome, Memory>
    ensures { IfOk result (λ outcome. DeskTakes K.Keeper desk.old (ask_for request devices.now) outcome desk.new) }
{
    let user = request.user_number();
    take_by(alloc, desk, devices.of(user), request)
}
