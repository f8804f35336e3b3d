// Answers are written.
ghost use Rattle.std.specs.Prelude.{true};
ghost use Rattle.rv_base.specs.Outside.{Writes, IsSteady};
ghost use Rattle.rv_http.specs.Responses.{reply_text};
ghost use Rattle.rv_answering.specs.declared.answer.Answer.TheVariants.{Closed, Refused, Retired};
ghost use Rattle.rv_serve.specs.declared.http_answer.HttpAnswer.TheVariants.{Answered, Rejected};
ghost use Rattle.rv_serve.specs.Texts.{answer_text, memory_text};

use crate::http_answer::HttpAnswer;
use rv_answering::Answer;
use rv_base::Sink;
use rv_http::{Rejection, Response, WriteFault, write_response};
use rv_turns::Refusal;
use rv_wire::{ErrorBody, closed_text, error_text, retired_text};

// Writes an answer of status 200.
fn write_body<O: Sink>(
    sink: &mut O,
    body: &[u8],
    closes: bool,
    head_only: bool,
) -> Result<(), WriteFault>
    ensures writes { Writes (O.state sink.old) (O.state sink.new) result (reply_text 200 body.now closes head_only) }
    ensures steady { O.fails_no_more sink.old → IsSteady (O.fails_no_more sink.new) (O.state sink.old) (O.state sink.new) result }
{
    let response = Response {
        status: 200,
        body,
        closes,
        head_only,
    };
    write_response(sink, &response)
}

// Writes a refusal.
#[tactic(auto, using(crate::proofs::Statuses::error_served))]
fn write_refusal<O: Sink>(
    sink: &mut O,
    refusal: &ErrorBody,
    closes: bool,
    head_only: bool,
) -> Result<(), WriteFault>
    ensures writes { Writes (O.state sink.old) (O.state sink.new) result (answer_text (Answered (Refused refusal.now)) closes head_only) }
    ensures steady { O.fails_no_more sink.old → IsSteady (O.fails_no_more sink.new) (O.state sink.old) (O.state sink.new) result }
{
    let mut buffer = [0; 128];
    let length = error_text(refusal, &mut buffer);
    let response = Response {
        status: refusal.status(),
        body: &buffer[..length],
        closes,
        head_only,
    };
    write_response(sink, &response)
}

// Writes the answer to a retirement, which no request over HTTP asks for.
fn write_retired<O: Sink>(
    sink: &mut O,
    place: u32,
    closes: bool,
    head_only: bool,
) -> Result<(), WriteFault>
    ensures writes { Writes (O.state sink.old) (O.state sink.new) result (answer_text (Answered (Retired place)) closes head_only) }
    ensures steady { O.fails_no_more sink.old → IsSteady (O.fails_no_more sink.new) (O.state sink.old) (O.state sink.new) result }
{
    let mut buffer = [0; 128];
    let length = retired_text(place, &mut buffer);
    write_body(sink, &buffer[..length], closes, head_only)
}

// Writes the answer to a closing of the book, which no request over HTTP asks for.
fn write_closed<O: Sink>(
    sink: &mut O,
    place: u32,
    closes: bool,
    head_only: bool,
) -> Result<(), WriteFault>
    ensures writes { Writes (O.state sink.old) (O.state sink.new) result (answer_text (Answered (Closed place)) closes head_only) }
    ensures steady { O.fails_no_more sink.old → IsSteady (O.fails_no_more sink.new) (O.state sink.old) (O.state sink.new) result }
{
    let mut buffer = [0; 128];
    let length = closed_text(place, &mut buffer);
    write_body(sink, &buffer[..length], closes, head_only)
}

// Writes an answer to what was asked.
fn write_answered<O: Sink>(
    sink: &mut O,
    answer: &Answer,
    closes: bool,
    head_only: bool,
) -> Result<(), WriteFault>
    ensures writes { Writes (O.state sink.old) (O.state sink.new) result (answer_text (Answered answer.now) closes head_only) }
    ensures steady { O.fails_no_more sink.old → IsSteady (O.fails_no_more sink.new) (O.state sink.old) (O.state sink.new) result }
{
    match answer {
        Answer::Pushed => write_body(sink, b"{}", closes, head_only),
        Answer::Pulled(reply) => write_body(sink, reply.text.as_slice(), closes, head_only),
        Answer::Retired(place) => write_retired(sink, *place, closes, head_only),
        Answer::Closed(place) => write_closed(sink, *place, closes, head_only),
        Answer::Refused(refusal) => write_refusal(sink, refusal, closes, head_only),
    }
}

/// Writes that memory was refused, in a response that closes. Takes no memory.
pub(crate) fn write_no_memory<O: Sink>(sink: &mut O, head_only: bool) -> Result<(), WriteFault>
    ensures writes { Writes (O.state sink.old) (O.state sink.new) result (memory_text head_only) }
    ensures steady { O.fails_no_more sink.old → IsSteady (O.fails_no_more sink.new) (O.state sink.old) (O.state sink.new) result }
{
    write_refusal(sink, &ErrorBody::Refused(Refusal::Memory), true, head_only)
}

/// Writes a rejection. Takes no memory.
pub(crate) fn write_rejection<O: Sink>(
    sink: &mut O,
    rejection: Rejection,
    closes: bool,
    head_only: bool,
) -> Result<(), WriteFault>
    ensures writes { Writes (O.state sink.old) (O.state sink.new) result (answer_text (Rejected rejection) closes head_only) }
    ensures steady { O.fails_no_more sink.old → IsSteady (O.fails_no_more sink.new) (O.state sink.old) (O.state sink.new) result }
{
    let response = Response {
        status: rejection.status(),
        body: rejection.body().as_bytes(),
        closes,
        head_only,
    };
    write_response(sink, &response)
}

/// Writes an answer. Takes no memory.
pub(crate) fn write_answer<O: Sink>(
    sink: &mut O,
    answer: &HttpAnswer,
    closes: bool,
    head_only: bool,
) -> Result<(), WriteFault>
    ensures writes { Writes (O.state sink.old) (O.state sink.new) result (answer_text answer.now closes head_only) }
    ensures steady { O.fails_no_more sink.old → IsSteady (O.fails_no_more sink.new) (O.state sink.old) (O.state sink.new) result }
{
    match answer {
        HttpAnswer::Answered(answer) => write_answered(sink, answer, closes, head_only),
        HttpAnswer::Rejected(rejection) => write_rejection(sink, *rejection, closes, head_only),
    }
}
