// The command `follow`: the lines of one connection are taken by a follower, which answers its pulls.
ghost use Rattle.std.specs.Prelude.{◌≡◌, ◌≢◌, ◌≤◌, ◌⊎◌, Contains, IsErrOf, length};
ghost use Rattle.rv_base.specs.Causes.{Rose};
ghost use Rattle.rv_base.specs.declared.fault.Fault.TheVariants as Fault;
ghost use Rattle.rv_cli.specs.FollowPromise.{ListenIsSteady, TellsEnd, WasFollowed, follow_statuses};
ghost use Rattle.rv_cli.specs.FollowRun.{ConnEnds, ListenerEnds, NetEnds};
ghost use Rattle.rv_cli.specs.ServingSteps.{count_text};
ghost use Rattle.rv_cli.specs.Steadiness.{OutputIsSteady};

use crate::ending::Ending;
use crate::lines::take_lines;
use crate::serve::tell;
use crate::serve_ending::ServeEnding;
use crate::texts::{write_count, write_ending};
use rv_base::{Failed, Fault, Sink, Source};
use rv_book::BOOK_LIMIT;
use rv_following::Follower;
use rv_net::{Accepted, Conn, Listen, Net};
use std::alloc::Global;

// Takes the lines of a connection by a follower of no line yet, and gives how they ended and the length of the book.
fn follow_conn<S: Source, O: Sink>(alloc: Global, conn: &mut Conn<S, O>) -> (Ending, u32)
    ensures { ConnEnds S.Source O.Sink conn.old conn.new result }
{
    let mut follower = Follower::new(alloc, BOOK_LIMIT);
    let ending = take_lines(alloc, &mut follower, &mut conn.source, &mut conn.sink);
    (ending, follower.length())
}

// Follows the next connection of a listener, and gives it back. Where none is to come, there are no lines.
fn follow_listener<L: Listen>(alloc: Global, listener: &mut L) -> (Ending, u32)
    ensures { ListenerEnds L.Listen L.In.Source L.Out.Sink listener.old listener.new result }
{
    match listener.accept() {
        Accepted::Conn(conn) => {
            let mut conn = conn;
            let ended = follow_conn(alloc, &mut conn);
            listener.done(conn);
            ended
        }
        Accepted::End => (Ending::Done, 0),
    }
}

// Follows the first connection of a listener at this port, and gives the listener back.
fn follow_net<N: Net>(alloc: Global, port: u16, net: &mut N) -> Result<(Ending, u32), Fault>
    ensures follows { NetEnds N.Net N.Listen.Listen N.Listen.In.Source N.Listen.Out.Sink port net.old net.new result }
    ensures steady { N.fails_no_more net.old → 1 ≤ length (N.listeners net.old).to_give → ¬ IsErrOf result Fault.Failed }
{
    let mut listeners = net.listen(port, 1, 1)?;
    let Some(listener) = listeners.take() else {
        unreachable!()
    };
    let mut listener = listener;
    let ended = follow_listener(alloc, &mut listener);
    listeners.give(listener);
    net.done(listeners);
    Ok(ended)
}

// Writes the length of the book, where the lines ended with the connection's; or how else they ended.
fn write_end<O: Sink>(out: &mut O, lines: Ending, entries: u32) -> Ending
    ensures tells { TellsEnd (count_text entries) (O.state out.old) (O.state out.new) lines result }
    ensures steady { O.fails_no_more out.old → O.fails_no_more out.new }
    ensures only_memory { O.fails_no_more out.old → lines ≡ Ending.Done → OutputIsSteady (O.fails_no_more out.new) (O.state out.old).refusals (O.state out.new).refusals result }
{
    match lines {
        Ending::Done => match write_count(out, b"entries ", u64::from(entries)) {
            Ok(()) => Ending::Done,
            Err(Failed) => Ending::Write,
        },
        lines => {
            let _ = write_ending(out, &lines);
            lines
        }
    }
}

/// Follows the book whose lines one connection tells, as [`run_ship`](crate::run_ship) writes them, and answers there each pull line
/// from as much of it as was told so far: the command `follow --port PORT`. One listener is asked for, which takes one connection; where
/// none is to come, there are no lines. Nothing is kept. At the end the book's length is written. The status is 0, 6, 7, 8, 9 or 10: 6
/// tells that a read of the connection failed, 7 that a write to it or to the output did, 9 that nothing could be listened to, and 10
/// the line that is not of the form, or may not come next.
pub fn run_follow<N: Net, O: Sink>(alloc: Global, port: u16, out: &mut O, net: &mut N) -> u8
    // What is written to the connection are the answers to the pulls among its lines, by a follower of those before each.
    ensures followed { WasFollowed N.Net N.Listen.Listen N.Listen.In.Source N.Listen.Out.Sink O.Sink port net.old net.new out.old out.new result }
    ensures complete { Contains follow_statuses result }
    ensures net { result ≡ 9 → Rose (N.faults net.old) (N.faults net.new) }

    // A failed write of the length is told; one of a status's own text is not.
    ensures write_told { result ≡ 7 ⊎ (O.state out.new).faults ≡ (O.state out.old).faults ⊎ ((result ≢ 0) × Rose (O.state out.old).faults (O.state out.new).faults) }

    // Over a net and an output that fail no more.
    ensures steady { O.fails_no_more out.old → O.fails_no_more out.new }
    ensures steady_net { ListenIsSteady N.Net net.old result }
{
    match follow_net(alloc, port, net) {
        Ok((lines, entries)) => write_end(out, lines, entries).status(),
        Err(Fault::Failed) => tell(out, ServeEnding::Net).status(),
        Err(Fault::Memory) => tell(out, ServeEnding::Memory).status(),
    }
}
