// Lines are taken until something ends it; the desk that a feed takes them by is then closed.
ghost use Rattle.std.specs.Prelude.{◌≡◌};
ghost use Rattle.rv_cli.specs.LineTaking.{TakesLines, found_line};
ghost use Rattle.rv_cli.specs.Feeding.{FeedsWith};
ghost use Rattle.rv_cli.specs.Steadiness.{InputIsSteady, KeeperIsSteady, OutputIsSteady};

use crate::ending::Ending;
use crate::line_taker::LineTaker;
use json::Scratch;
use rv_base::{Fault, Sink, Source};
use rv_desk::Desk;
use rv_keeper::Keeper;
use rv_lines::{LineReader, Next};
use std::alloc::Global;

/// The number of the first line that is none by its number alone.
pub(crate) const LINES_END: u64 = 4_294_967_296;

// Whether the line that was read ends with the input; or how the lines end without one.
fn found(next: Result<Next, Fault>, number: u64) -> Result<bool, Ending>
    ensures { result ≡ found_line next number }
{
    match next {
        Ok(Next::Line) => Ok(false),
        Ok(Next::Last) => Ok(true),
        Ok(Next::End) => Err(Ending::Done),
        Ok(Next::TooLong) => Err(Ending::Malformed(number)),
        Err(Fault::Failed) => Err(Ending::Read),
        Err(Fault::Memory) => Err(Ending::Memory),
    }
}

/// Has the lines of the input taken, each as it was read, and tells how they end.
pub(crate) fn take_lines<T: LineTaker, S: Source, O: Sink>(
    alloc: Global,
    taker: &mut T,
    input: &mut S,
    out: &mut O,
) -> Ending
    ensures takes { TakesLines T.taker taker.old (S.state input.old) (S.state input.new) (O.state out.old) (O.state out.new) result taker.new }
    ensures steady_input { S.fails_no_more input.old → InputIsSteady (S.fails_no_more input.new) result }
    ensures steady_output { O.fails_no_more out.old → OutputIsSteady (O.fails_no_more out.new) (O.state out.old).refusals (O.state out.new).refusals result }
    ensures steady_taker { T.taker.fails_no_more taker.old → KeeperIsSteady T.taker.fails_no_more T.taker.faults taker.old (result, taker.new) }
{
    let mut reader = LineReader::new(alloc);
    let mut scratch = Scratch::new(alloc);
    for number in 1..LINES_END {
        match found(reader.next(input), number) {
            Ok(is_last) => match taker.take(alloc, reader.line(), number, &mut scratch, out) {
                Ok(()) if is_last => return Ending::Done,
                Ok(()) => {}
                Err(ending) => return ending,
            },
            Err(ending) => return ending,
        }
    }
    match found(reader.next(input), LINES_END) {
        Ok(_) => Ending::Malformed(LINES_END),
        Err(ending) => ending,
    }
}

/// Takes the lines of the input, each as it was read, and gives the ending and the keeper.
pub(crate) fn feed<K: Keeper, S: Source, O: Sink>(
    alloc: Global,
    desk: Desk<K>,
    input: &mut S,
    out: &mut O,
) -> (Ending, K)
    ensures feeds { FeedsWith K.Keeper desk (S.state input.old) (S.state input.new) (O.state out.old) (O.state out.new) result }
    ensures steady_input { S.fails_no_more input.old → InputIsSteady (S.fails_no_more input.new) result.0 }
    ensures steady_output { O.fails_no_more out.old → OutputIsSteady (O.fails_no_more out.new) (O.state out.old).refusals (O.state out.new).refusals result.0 }
    ensures steady_keeper { K.fails_no_more desk.keeper → KeeperIsSteady K.fails_no_more K.faults desk.keeper result }
{
    let mut desk = desk;
    let ending = take_lines(alloc, &mut desk, input, out);
    (ending, desk.close())
}
