// How the lines of cases are read and answered.
use crate::texts::Part::Text;
use crate::texts::joined;
use rv_base::Memory;
use std::alloc::Global;
use std::io;
use std::io::ErrorKind;

/// What a line of a trial's cases is.
#[derive(Clone, Copy)]
pub enum Line<'l> {
    /// `=== SUBJECT`: the cases of a subject begin.
    Subject(&'l str),
    /// `== NAME`: a case begins.
    Case,
    /// It begins with `#`, and is passed over.
    Note,
    /// It begins with `{`, and is one of the input.
    Input,
    /// A command.
    Command,
}

/// What a line is.
pub fn kind_of(line: &str) -> Line<'_> {
    if let Some(subject) = line.strip_prefix("=== ") {
        return Line::Subject(subject);
    }
    if line.starts_with("== ") {
        return Line::Case;
    }
    if line.starts_with('#') {
        return Line::Note;
    }
    if line.starts_with('{') {
        return Line::Input;
    }
    Line::Command
}

/// What a line prints that begins a case, unless memory was refused: itself.
pub fn echoed(
    alloc: Global,
    line: &str,
    begun: Result<(), Memory>,
) -> Result<Option<String>, Memory> {
    begun?;
    Ok(Some(joined(alloc, &[Text(line), Text("\n")])?))
}

/// What a line prints that tells nothing, unless memory was refused.
pub fn silent(alloc: Global, done: Result<(), Memory>) -> Result<Option<String>, Memory> {
    done?;
    Ok(Some(String::new(alloc)))
}

/// Prints what a line comes to: a text, each of its lines with LF at its end; or the line itself after `?? `, where it is none.
pub fn print_answer(
    rt: &HostRuntime,
    line: &str,
    answer: Result<Option<String>, Memory>,
) -> io::Result<()> {
    match answer {
        Ok(Some(text)) => print!(rt; "{text}"),
        Ok(None) => print!(rt; "?? {line}\n"),
        Err(Memory) => Err(io::Error::from(ErrorKind::OutOfMemory)),
    }
}
