// One line: what it asks, its turns, and the answer's text; or a stop, at which the desk is closed and opened again.
ghost use Rattle.std.specs.Prelude.{◌≡◌, ◌<◌, ◌^◌};
ghost use Rattle.rv_answering.specs.Reads.{IsReading};
ghost use Rattle.rv_answering.specs.Requests.{Parsed};
ghost use Rattle.rv_cli.specs.Feeding.{RestartsOrNot, ServesOrNot, desk_taker};
ghost use Rattle.rv_cli.specs.LineTaking.{TakesLine};
ghost use Rattle.rv_cli.specs.Steadiness.{DeskKeepsSteady, LineIsSteady, LineKeepsSteady};

use crate::ending::Ending;
use crate::line_taker::LineTaker;
use crate::texts::write_answer;
use json::Scratch;
use rv_answering::{Line, Parsed, line_of, serve_asked};
use rv_base::{Failed, Memory, Sink};
use rv_desk::Desk;
use rv_keeper::Keeper;
use std::alloc::Global;

// Answers what was read of a line, and writes its answer.
fn serve<K: Keeper, O: Sink>(
    alloc: Global,
    desk: &mut Desk<K>,
    read: Parsed,
    out: &mut O,
) -> Result<(), Ending>
    ensures serves { (asked : Parsed) → IsReading asked read → ServesOrNot K.Keeper desk.old asked result desk.new (O.state out.old) (O.state out.new) }
    ensures steady { O.fails_no_more out.old → LineIsSteady (O.fails_no_more out.new) (O.state out.old).refusals (O.state out.new).refusals result }
    ensures steady_keeper { (asked : Parsed) → IsReading asked read → K.fails_no_more desk.old.keeper → DeskKeepsSteady K.fails_no_more K.faults desk.old.keeper desk.new.keeper }
{
    let answer = serve_asked(desk, read);
    match write_answer(alloc, out, &answer) {
        Ok(()) => Ok(()),
        Err(Failed) => Err(Ending::Write),
    }
}

// Closes the desk, and opens it again from its keeper.
fn restart<K: Keeper>(desk: &mut Desk<K>) -> Result<(), Ending>
    ensures restarts { RestartsOrNot K.Keeper desk.old result desk.new }
    ensures steady_keeper { K.fails_no_more desk.old.keeper → LineKeepsSteady (K.fails_no_more desk.new.keeper) (K.faults desk.old.keeper) (K.faults desk.new.keeper) result }
{
    match desk.reopen() {
        Ok(()) => Ok(()),
        Err(fault) => Err(Ending::of_fault(fault)),
    }
}

// Takes a line: answers it and writes its answer, or closes and opens the desk. Where the lines end with it, it gives the ending.
fn take_line<K: Keeper, O: Sink>(
    alloc: Global,
    desk: &mut Desk<K>,
    line: &[u8],
    number: u64,
    scratch: &mut Scratch,
    out: &mut O,
) -> Result<(), Ending>
    ensures takes { TakesLine (desk_taker K.Keeper) desk.old line.now number result desk.new (O.state out.old) (O.state out.new) }
    ensures steady { O.fails_no_more out.old → LineIsSteady (O.fails_no_more out.new) (O.state out.old).refusals (O.state out.new).refusals result }
    ensures steady_keeper { K.fails_no_more desk.old.keeper → LineKeepsSteady (K.fails_no_more desk.new.keeper) (K.faults desk.old.keeper) (K.faults desk.new.keeper) result }
{
    match line_of(alloc, line, scratch) {
        Ok(Some(Line::Asks(read))) => serve(alloc, desk, read, out),
        Ok(Some(Line::Stop)) => restart(desk),
        Ok(None) => Err(Ending::Malformed(number)),
        Err(Memory) => Err(Ending::Memory),
    }
}

impl<K: Keeper> LineTaker for Desk<K> {
    ghost use Rattle.rv_cli.specs.RunLaws.{desk_stands, desk_takes_later};

    ghost taker = { desk_taker K.Keeper };

    fn take<O: Sink>(
        &mut self,
        alloc: Global,
        line: &[u8],
        number: u64,
        scratch: &mut Scratch,
        out: &mut O,
    ) -> Result<(), Ending> {
        take_line(alloc, self, line, number, scratch, out)
    }

    ghost takes_later = { desk_takes_later K.tells };

    ghost stands_now = { desk_stands K.faults };
}
