// The orders of cookies.
ghost use Rattle.std.specs.Prelude.{◌≡◌, ◌+◌, ◌<◌, ◌^◌, max};
ghost use Rattle.rv_history.specs.Machine.{cookie_order};

use rv_base::Num;
use rv_views::Cookie;

fn cookie_order(cookie: &Cookie) -> u64
    ensures value { result ≡ cookie_order cookie.now }
    ensures bound { result < 2 ^ 53 }
{
    match cookie {
        Cookie::Null => 0,
        Cookie::Bare(order) => order.get(),
        Cookie::Named { order, .. } => order.get(),
    }
}

/// The order above the cookie's and above the group's last.
pub fn next_order(cookie: &Cookie, last: Num) -> u64
    ensures { result ≡ max (cookie_order cookie.now) last + 1 }
{
    cookie_order(cookie).max(last.get()) + 1
}
