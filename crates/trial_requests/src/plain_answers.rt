// What the plain server answers to lines.
use crate::plain_server::PlainServer;
use json::Scratch;
use rv_answering::{Answer, Line, Parsed, line_of, serve_asked};
use rv_base::Memory;
use rv_turns::Turns;
use rv_wire::{ErrorBody, error_text};
use std::alloc::Global;
use trial_stage::Part::{Number, Text};
use trial_stage::{append_parts, text_of};

fn add_refusal(alloc: Global, text: &mut String, refusal: &ErrorBody) -> Result<(), Memory> {
    let mut buffer = [0; 128];
    let length = error_text(refusal, &mut buffer);
    let status = u64::from(refusal.status());
    append_parts(
        alloc,
        text,
        &[
            Number(status),
            Text(" "),
            Text(text_of(&buffer[..length])),
            Text("\n"),
        ],
    )
}

// Adds what an answer is told as, with LF at its end.
fn add_told(alloc: Global, text: &mut String, answer: &Answer) -> Result<(), Memory> {
    match answer {
        Answer::Pushed => append_parts(alloc, text, &[Text("200 {}\n")]),
        Answer::Pulled(reply) => {
            let reply = text_of(reply.text.as_slice());
            append_parts(alloc, text, &[Text("200 "), Text(reply), Text("\n")])
        }
        Answer::Retired(place) => {
            let place = u64::from(*place);
            let joined = [Text("200 {\"retired\":"), Number(place), Text("}\n")];
            append_parts(alloc, text, &joined)
        }
        Answer::Closed(place) => {
            let place = u64::from(*place);
            let joined = [Text("200 {\"closed\":"), Number(place), Text("}\n")];
            append_parts(alloc, text, &joined)
        }
        Answer::Refused(refusal) => add_refusal(alloc, text, refusal),
    }
}

/// Adds the answer to what was read of a line, with LF at its end.
pub fn add_asked<T: Turns>(
    alloc: Global,
    text: &mut String,
    turns: &mut T,
    read: Parsed,
) -> Result<(), Memory>
    requires { T.closes }
{
    let answer = serve_asked(turns, read);
    add_told(alloc, text, &answer)
}

/// Adds the answer to a line, with LF at its end. A stop has none.
pub fn add_answer(
    alloc: Global,
    text: &mut String,
    plain: &mut PlainServer,
    line: &str,
) -> Result<(), Memory> {
    match line_of(alloc, line.as_bytes(), &mut Scratch::new(alloc))? {
        Some(Line::Asks(read)) => add_asked(alloc, text, plain, read),
        Some(Line::Stop) => plain.stop(),
        None => append_parts(alloc, text, &[Text("no line\n")]),
    }
}

/// Adds the answers to lines, one after the other.
pub fn add_answers(
    alloc: Global,
    text: &mut String,
    plain: &mut PlainServer,
    lines: &str,
) -> Result<(), Memory> {
    for line in lines.lines() {
        add_answer(alloc, text, plain, line)?;
    }
    Ok(())
}
