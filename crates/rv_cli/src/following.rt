// The lines of a book that is followed, taken by a follower.
ghost use Rattle.std.specs.Prelude.{◌≡◌};
ghost use Rattle.rv_cli.specs.Following.{follower_taker};
ghost use Rattle.rv_cli.specs.LineTaking.{TakesLine};
ghost use Rattle.rv_cli.specs.Steadiness.{LineIsSteady, LineKeepsSteady};

use crate::ending::Ending;
use crate::line_taker::LineTaker;
use crate::texts::write_answer;
use json::Scratch;
use rv_answering::Answer;
use rv_base::{Failed, Memory, Sink};
use rv_following::{Follower, follow_line_of};
use rv_standby::TakeFault;
use std::alloc::Global;

// Takes a line: a cell, that a page is whole, or a pull, whose answer is written. Where the lines end with it, it gives the ending.
fn take_line<O: Sink>(
    alloc: Global,
    follower: &mut Follower,
    line: &[u8],
    number: u64,
    scratch: &mut Scratch,
    out: &mut O,
) -> Result<(), Ending>
    ensures takes { TakesLine follower_taker follower.old line.now number result follower.new (O.state out.old) (O.state out.new) }
    ensures steady { O.fails_no_more out.old → LineIsSteady (O.fails_no_more out.new) (O.state out.old).refusals (O.state out.new).refusals result }
    ensures steady_follower { LineKeepsSteady (Unit {0}) 0 0 result }
{
    let read = match follow_line_of(alloc, line, scratch) {
        Ok(Some(read)) => read,
        Ok(None) => return Err(Ending::Malformed(number)),
        Err(Memory) => return Err(Ending::Memory),
    };
    match follower.take(read, scratch) {
        Ok(Some(answer)) => match write_answer(alloc, out, &answer) {
            Ok(()) => Ok(()),
            Err(Failed) => Err(Ending::Write),
        },
        Ok(None) => Ok(()),
        Err(TakeFault::Refused) => Err(Ending::Malformed(number)),
        Err(TakeFault::Memory) => Err(Ending::Memory),
    }
}

impl LineTaker for Follower {
    ghost use Rattle.rv_cli.specs.FollowingLaws.{follower_stands, follower_takes_later};

    ghost taker = { follower_taker };

    fn take<O: Sink>(
        &mut self,
        alloc: Global,
        line: &[u8],
        number: u64,
        scratch: &mut Scratch,
        out: &mut O,
    ) -> Result<(), Ending> {
        take_line(alloc, self, line, number, scratch, out)
    }

    ghost takes_later = { follower_takes_later };

    ghost stands_now = { follower_stands };
}
