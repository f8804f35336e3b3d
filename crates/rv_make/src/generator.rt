// The generator of requests.
ghost use Rattle.std.specs.Prelude.{◌≡◌, ◌<◌, ◌-◌, ◌^◌, IfOk, OnOk, OnErr};
ghost use Rattle.rv_make.specs.Making.{nothing_pushed};
ghost use Rattle.rv_make.specs.Requests.{started, next_made, makes, pushes, pushes_anew, pushes_again, pulls_last, pulls_null, made_one, push_of, requests};

use crate::calls::{call_of, user_of};
use crate::draws::{draw_of, drawn};
use crate::made::{MadeRequest, Requests};
use crate::three::Three;
use rv_base::{Memory, Num, Sequence};
use std::alloc::Global;
use std::marker::Model;

// What was drawn for a push: the kind of its call, and the row that it is of; and the number of its request.
#[derive(Clone, Copy, Debug)]
pub(crate) struct DrawnPush {
    pub(crate) kind: u32,
    pub(crate) row: u32,
    pub(crate) request: u32,
}

// What a user pushed: how many pushes were made anew, and the last of these.
#[derive(Clone, Copy, Debug)]
pub(crate) struct Pushed {
    pub(crate) count: u32,
    pub(crate) last: Option<DrawnPush>,
}

impl Pushed {
    // No push.
    fn none() -> Pushed
        ensures { result ≡ nothing_pushed }
    {
        Pushed {
            count: 0,
            last: None,
        }
    }
}

/// Makes requests of three users, one after another, from a seed.
///
/// A contract sees its number, how many requests it has made, and what each user has pushed.
#[derive(Debug, Drop)]
pub struct Generator {
    number: u32,
    made: u32,
    pushed: Three<Pushed>,
}

impl Model for Generator {
    ghost use Rattle.rv_make.specs.Making.{Making, AreCounted};

    ghost Value = { Making };

    ghost view = { λ g. record { number = g.number; made = g.made; pushed = g.pushed } };

    ghost invariant = { λ g. AreCounted g.made g.pushed };
}

impl Generator {
    /// One that has made no request yet.
    pub fn new(seed: u32) -> Generator
        ensures { result ≡ started seed }
    {
        Generator {
            number: seed,
            made: 0,
            pushed: Three {
                first: Pushed::none(),
                second: Pushed::none(),
                third: Pushed::none(),
            },
        }
    }

    /// The next request. Where memory is refused, the generator is as it was.
    #[tactic(auto, unfolding(crate::specs::Requests::next_made))]
    pub fn next(&mut self, alloc: Global) -> Result<MadeRequest, Memory>
        requires { self.old.made < 2 ^ 32 - 1 }
        ensures request { IfOk result (λ request. request ≡ (next_made self.old).0) }
        ensures ok { OnOk result (self.new ≡ (next_made self.old).1) }
        ensures err { OnErr result (self.new ≡ self.old) }
    {
        let user = drawn(self.number);
        let what = drawn(user);
        self.make(alloc, draw_of(user) % 3, draw_of(what) % 10, what)
    }

    // Makes what was drawn for a user, after the draw that left this number.
    fn make(
        &mut self,
        alloc: Global,
        user: u32,
        what: u32,
        number: u32,
    ) -> Result<MadeRequest, Memory>
        requires user { user < 3 }
        requires room { self.old.made < 2 ^ 32 - 1 }
        ensures request { IfOk result (λ request. request ≡ (makes self.old user what number).0) }
        ensures ok { OnOk result (self.new ≡ (makes self.old user what number).1) }
        ensures err { OnErr result (self.new ≡ self.old) }
    {
        if what <= 5 {
            self.push_anew(alloc, user, number)
        } else if what <= 7 {
            self.pull_last(alloc, user, number)
        } else if what == 8 {
            self.pull_null(alloc, user, number)
        } else {
            self.push_again(alloc, user, number)
        }
    }

    // A push of a call that is drawn.
    fn push_anew(&mut self, alloc: Global, user: u32, number: u32) -> Result<MadeRequest, Memory>
        requires user { user < 3 }
        requires room { self.old.made < 2 ^ 32 - 1 }
        ensures request { IfOk result (λ request. request ≡ (pushes_anew self.old user number).0) }
        ensures ok { OnOk result (self.new ≡ (pushes_anew self.old user number).1) }
        ensures err { OnErr result (self.new ≡ self.old) }
    {
        let kind = drawn(number);
        let row = drawn(kind);
        let push = DrawnPush {
            kind: draw_of(kind) % 7,
            row: draw_of(row) % 20,
            request: self.made + 1,
        };
        self.push(alloc, user, push, row)
    }

    // This push.
    fn push(
        &mut self,
        alloc: Global,
        user: u32,
        push: DrawnPush,
        number: u32,
    ) -> Result<MadeRequest, Memory>
        requires user { user < 3 }
        requires room { self.old.made < 2 ^ 32 - 1 }
        ensures request { IfOk result (λ request. request ≡ (pushes self.old user push number).0) }
        ensures ok { OnOk result (self.new ≡ (pushes self.old user push number).1) }
        ensures err { OnErr result (self.new ≡ self.old) }
    {
        let count = self.pushed.of(user).count + 1;
        let request = push_of(alloc, user, count, push)?;
        self.pushed.set(
            user,
            Pushed {
                count,
                last: Some(push),
            },
        );
        self.number = number;
        self.made += 1;
        Ok(request)
    }

    // A pull with the user's last cookie.
    fn pull_last(&mut self, alloc: Global, user: u32, number: u32) -> Result<MadeRequest, Memory>
        requires { self.old.made < 2 ^ 32 - 1 }
        ensures request { IfOk result (λ request. request ≡ (pulls_last self.old user number).0) }
        ensures ok { OnOk result (self.new ≡ (pulls_last self.old user number).1) }
        ensures err { OnErr result (self.new ≡ self.old) }
    {
        let maker = user_of(alloc, user)?;
        self.count(number);
        Ok(MadeRequest::PullLast(maker))
    }

    // A pull with no cookie.
    fn pull_null(&mut self, alloc: Global, user: u32, number: u32) -> Result<MadeRequest, Memory>
        requires { self.old.made < 2 ^ 32 - 1 }
        ensures request { IfOk result (λ request. request ≡ (pulls_null self.old user number).0) }
        ensures ok { OnOk result (self.new ≡ (pulls_null self.old user number).1) }
        ensures err { OnErr result (self.new ≡ self.old) }
    {
        let maker = user_of(alloc, user)?;
        self.count(number);
        Ok(MadeRequest::PullNull(maker))
    }

    // The user's last push again, if it has one.
    fn push_again(&mut self, alloc: Global, user: u32, number: u32) -> Result<MadeRequest, Memory>
        requires user { user < 3 }
        requires room { self.old.made < 2 ^ 32 - 1 }
        ensures request { IfOk result (λ request. request ≡ (pushes_again self.old user number).0) }
        ensures ok { OnOk result (self.new ≡ (pushes_again self.old user number).1) }
        ensures err { OnErr result (self.new ≡ self.old) }
    {
        let Pushed { count, last } = *self.pushed.of(user);
        match last {
            Some(push) => {
                let request = push_of(alloc, user, count, push)?;
                self.count(number);
                Ok(request)
            }
            None => self.pull_last(alloc, user, number),
        }
    }

    // One more request, after the draw that left this number.
    fn count(&mut self, number: u32)
        requires { self.old.made < 2 ^ 32 - 1 }
        ensures { self.new ≡ made_one self.old number }
    {
        self.number = number;
        self.made += 1;
    }
}

// The push of this number that was drawn for a user.
fn push_of(alloc: Global, user: u32, id: u32, push: DrawnPush) -> Result<MadeRequest, Memory>
    requires { user < 3 }
    ensures { IfOk result (λ request. request ≡ push_of user id push) }
{
    Ok(MadeRequest::Push {
        user: user_of(alloc, user)?,
        id: Num::from_u64(u64::from(id)),
        call: call_of(alloc, push.kind, user, push.row, push.request)?,
    })
}

/// The first `n` requests that a seed makes.
///
/// Nothing in the program calls it, which plays them one by one: it is for who wants them as a list.
pub fn make_requests(alloc: Global, seed: u32, n: u32) -> Result<Requests, Memory>
    ensures { IfOk result (λ made. made ≡ requests seed n) }
{
    let mut generator = Generator::new(seed);
    let mut made = Sequence::new(alloc);
    for _index in 0..n {
        let request = generator.next(alloc)?;
        made.push(request)?;
    }
    Ok(made)
}
