// A connection is served.
ghost use Rattle.std.specs.Prelude.{◌≡◌, ◌+◌, ◌<◌, ◌^◌, []};
ghost use Rattle.rv_base.specs.Outside.{IsSteady};
ghost use Rattle.rv_http.specs.declared.http_end.HttpEnd.TheVariants as reading;
ghost use Rattle.rv_serve.specs.Texts.{rejection_text};
ghost use Rattle.rv_serve.specs.Talk.{closes_at, TalksPast};
ghost use Rattle.rv_serve.specs.Causes.{ConnCause, ConnInputIsSteady, ConnOutputIsSteady};
ghost use Rattle.rv_serve.specs.Steps.{AnswersOne, EndsConn, WritesLast};

use crate::conn_end::ConnEnd;
use crate::gate::Gate;
use crate::http_answer::HttpAnswered;
use crate::replying::reply;
use crate::tools::Tools;
use crate::writing::{write_answer, write_no_memory, write_rejection};
use json::Scratch;
use rv_accounts::Accounts;
use rv_base::{Sink, Source};
use rv_http::{Buffer, HttpEnd, Rejection, Request, Routes, WriteFault, read_request};
use rv_net::Conn;
use rv_turns::{CountsSettled, Turns};
use std::alloc::Global;

// The most requests of a connection.
const LAST: u32 = 100;

// Whether the answer to a connection's so many-th request closes.
fn closes_at(number: u32, request: &Request) -> bool
    ensures { result ≡ closes_at number request.now }
{
    request.closes || number == LAST
}

// Answers a connection's so many-th request, writes the answer, and tells whether it closes. The gate may hold the request first, and
// hears of the answer, whether or not it could be written.
fn answer_request<T: Turns + CountsSettled, G: Gate, O: Sink>(
    alloc: Global,
    turns: &mut T,
    accounts: &Accounts,
    routes: &Routes,
    gate: &mut G,
    request: &Request,
    number: u32,
    scratch: &mut Scratch,
    sink: &mut O,
) -> Result<bool, WriteFault>
    ensures answers { AnswersOne T.takes T.settled accounts.now number turns.old request.now (O.state sink.old) (O.state sink.new) (G.heard gate.old) (G.heard gate.new) turns.new result }
    ensures steady { O.fails_no_more sink.old → IsSteady (O.fails_no_more sink.new) (O.state sink.old) (O.state sink.new) result }
{
    gate.before(number);
    let HttpAnswered { answer, entered } = reply(alloc, turns, accounts, routes, request, scratch);
    let closes = closes_at(number, request);
    let written = write_answer(sink, &answer, closes, request.head_only);
    gate.after(answer.status(), entered);
    match written {
        Ok(()) => Ok(closes),
        Err(WriteFault) => Err(WriteFault),
    }
}

// Writes a rejection that ends a connection after so many answers.
fn close_with<O: Sink>(sink: &mut O, rejection: Rejection, head_only: bool, count: u32) -> ConnEnd
    requires { count < 2 ^ 31 }
    ensures writes { WritesLast (count + 1) (rejection_text rejection head_only) (O.state sink.old) (O.state sink.new) result }
    ensures steady { O.fails_no_more sink.old → ConnOutputIsSteady (O.fails_no_more sink.new) (O.state sink.old) (O.state sink.new) result }
{
    match write_rejection(sink, rejection, true, head_only) {
        Ok(()) => ConnEnd::Done(count + 1),
        Err(WriteFault) => ConnEnd::WriteFault,
    }
}

// Tries to answer that memory was refused.
fn refuse_memory<O: Sink>(sink: &mut O, head_only: bool) -> ConnEnd
    ensures ends { EndsConn 0 (reading.Memory head_only) (O.state sink.old) (O.state sink.new) result }
    ensures steady { O.fails_no_more sink.old → ConnOutputIsSteady (O.fails_no_more sink.new) (O.state sink.old) (O.state sink.new) result }
{
    match write_no_memory(sink, head_only) {
        Ok(()) => ConnEnd::Memory,
        Err(WriteFault) => ConnEnd::Memory,
    }
}

// Ends a connection after so many answers, where no request was read.
fn refuse<O: Sink>(sink: &mut O, cause: HttpEnd, count: u32) -> ConnEnd
    requires { count < 2 ^ 31 }
    ensures ends { EndsConn count cause (O.state sink.old) (O.state sink.new) result }
    ensures steady { O.fails_no_more sink.old → ConnOutputIsSteady (O.fails_no_more sink.new) (O.state sink.old) (O.state sink.new) result }
{
    match cause {
        HttpEnd::End => ConnEnd::Done(count),
        HttpEnd::Cut => ConnEnd::Done(count),
        HttpEnd::ReadFault => ConnEnd::ReadFault,
        HttpEnd::Memory(flag) => refuse_memory(sink, flag),
        HttpEnd::BadHead(flag) => close_with(sink, Rejection::BadHead, flag, count),
        HttpEnd::HeadTooLarge(flag) => close_with(sink, Rejection::HeadTooLarge, flag, count),
        HttpEnd::LengthRequired => close_with(sink, Rejection::LengthRequired, false, count),
        HttpEnd::BodyTooLarge(flag) => close_with(sink, Rejection::BodyTooLarge, flag, count),
        HttpEnd::CodingNotServed(flag) => close_with(sink, Rejection::CodingNotServed, flag, count),
    }
}

// Answers requests until something ends the connection.
fn serve_requests<T: Turns + CountsSettled, G: Gate, S: Source, O: Sink>(
    alloc: Global,
    turns: &mut T,
    accounts: &Accounts,
    routes: &Routes,
    gate: &mut G,
    buffer: &mut Buffer,
    source: &mut S,
    sink: &mut O,
) -> ConnEnd
    requires { buffer.old ≡ [] }
    ensures talks { TalksPast T.takes T.settled accounts.now turns.old turns.new (S.state source.old) (S.state source.new) (O.state sink.old) (O.state sink.new) (G.heard gate.old) (G.heard gate.new) result }
    ensures cause { ConnCause (S.state source.old) (S.state source.new) (O.state sink.old) (O.state sink.new) result }
    ensures steady_input { S.fails_no_more source.old → ConnInputIsSteady (S.fails_no_more source.new) result }
    ensures steady_output { O.fails_no_more sink.old → ConnOutputIsSteady (O.fails_no_more sink.new) (O.state sink.old) (O.state sink.new) result }
{
    let mut scratch = Scratch::new(alloc);
    for count in 0..LAST {
        let request = match read_request(alloc, source, buffer) {
            Ok(request) => request,
            Err(cause) => return refuse(sink, cause, count),
        };
        match answer_request(
            alloc,
            turns,
            accounts,
            routes,
            gate,
            &request,
            count + 1,
            &mut scratch,
            sink,
        ) {
            Ok(true) => return ConnEnd::Done(count + 1),
            Ok(false) => {}
            Err(WriteFault) => return ConnEnd::WriteFault,
        }
    }
    unreachable!()
}

/// Answers the requests of a connection as [`serve_connection`] does, with the tools of the connection before it, if there are any, and
/// gives the tools for the next one.
pub(crate) fn serve_with<T: Turns + CountsSettled, G: Gate, S: Source, O: Sink>(
    alloc: Global,
    turns: &mut T,
    accounts: &Accounts,
    gate: &mut G,
    tools: Option<Tools>,
    conn: &mut Conn<S, O>,
) -> (ConnEnd, Option<Tools>)
    ensures talks { TalksPast T.takes T.settled accounts.now turns.old turns.new (S.state conn.old.source) (S.state conn.new.source) (O.state conn.old.sink) (O.state conn.new.sink) (G.heard gate.old) (G.heard gate.new) result.0 }
    ensures cause { ConnCause (S.state conn.old.source) (S.state conn.new.source) (O.state conn.old.sink) (O.state conn.new.sink) result.0 }
    ensures steady_input { S.fails_no_more conn.old.source → ConnInputIsSteady (S.fails_no_more conn.new.source) result.0 }
    ensures steady_output { O.fails_no_more conn.old.sink → ConnOutputIsSteady (O.fails_no_more conn.new.sink) (O.state conn.old.sink) (O.state conn.new.sink) result.0 }
{
    let Ok(mut tools) = Tools::ready(alloc, tools) else {
        return (refuse_memory(&mut conn.sink, false), None);
    };
    let end = serve_requests(
        alloc,
        turns,
        accounts,
        &tools.routes,
        gate,
        &mut tools.buffer,
        &mut conn.source,
        &mut conn.sink,
    );
    (end, Some(tools))
}

/// Answers the requests of a connection, each by its turns, until one is answered that closes, none can be read, or the
/// connection ends. Each request that was read passes the gate before its turns.
///
/// Nothing in the program calls it, whose workers keep the tools of one connection for the next: it is for who serves one alone.
pub fn serve_connection<T: Turns + CountsSettled, G: Gate, S: Source, O: Sink>(
    alloc: Global,
    turns: &mut T,
    accounts: &Accounts,
    gate: &mut G,
    conn: &mut Conn<S, O>,
) -> ConnEnd
    ensures talks { TalksPast T.takes T.settled accounts.now turns.old turns.new (S.state conn.old.source) (S.state conn.new.source) (O.state conn.old.sink) (O.state conn.new.sink) (G.heard gate.old) (G.heard gate.new) result }
    ensures cause { ConnCause (S.state conn.old.source) (S.state conn.new.source) (O.state conn.old.sink) (O.state conn.new.sink) result }
    ensures steady_input { S.fails_no_more conn.old.source → ConnInputIsSteady (S.fails_no_more conn.new.source) result }
    ensures steady_output { O.fails_no_more conn.old.sink → ConnOutputIsSteady (O.fails_no_more conn.new.sink) (O.state conn.old.sink) (O.state conn.new.sink) result }
{
    let (end, _tools) = serve_with(alloc, turns, accounts, gate, None, conn);
    end
}
