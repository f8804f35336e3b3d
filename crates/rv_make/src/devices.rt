// The devices of the users.
ghost use Rattle.std.specs.Prelude.{◌≡◌, IfOk};
ghost use Rattle.rv_make.specs.Devices.{device_of, first_devices, user_number};
ghost use Rattle.rv_make.specs.Threes.{held_by, with_held};

use crate::names::name;
use crate::three::Three;
use rv_base::{Id, Memory, User};
use rv_views::Cookie;
use std::alloc::Global;

// A user's client group, its one client, and the cookie that was answered to its pulls last.
#[derive(Debug, Drop)]
pub(crate) struct Device {
    pub(crate) group: Id,
    pub(crate) client: Id,
    pub(crate) cookie: Cookie,
}

impl Device {
    // The device of the user of this number, which has not pulled yet.
    fn new(alloc: Global, user: u32) -> Result<Device, Memory>
        ensures { IfOk result (λ device. device ≡ device_of user) }
    {
        Ok(Device {
            group: name(alloc, "g", user)?,
            client: name(alloc, "c", user)?,
            cookie: Cookie::Null,
        })
    }
}

// The devices before the first request.
pub(crate) fn first_devices(alloc: Global) -> Result<Three<Device>, Memory>
    ensures { IfOk result (λ devices. devices ≡ first_devices) }
{
    Ok(Three {
        first: Device::new(alloc, 0)?,
        second: Device::new(alloc, 1)?,
        third: Device::new(alloc, 2)?,
    })
}

// The number of a user.
pub(crate) fn user_number(user: &User) -> u32
    ensures { result ≡ user_number user.now }
{
    if user.as_str() == "u0" {
        0
    } else if user.as_str() == "u1" {
        1
    } else {
        2
    }
}

// Keeps the cookie that was answered to the user of this number.
pub(crate) fn keep_cookie(devices: &mut Three<Device>, user: u32, cookie: Cookie)
    ensures { devices.new ≡ with_held user (record (held_by user devices.old) { cookie = cookie }) devices.old }
{
    if user == 0 {
        devices.first.cookie = cookie;
    } else if user == 1 {
        devices.second.cookie = cookie;
    } else {
        devices.third.cookie = cookie;
    }
}
