// What a desk answers to lines, over any keeper.
use crate::plain_answers::add_asked;
use json::Scratch;
use rv_answering::{Line, line_of};
use rv_base::Memory;
use rv_desk::Desk;
use rv_keeper::Keeper;
use std::alloc::Global;
use trial_stage::Part::Text;
use trial_stage::{append_parts, store_text};

/// The most entries of a book.
pub const LIMIT: u32 = u32::MAX;

// Opens a desk again.
fn reopen<K: Keeper>(desk: &mut Desk<K>) -> Result<(), Memory> {
    match desk.reopen() {
        Ok(()) => Ok(()),
        Err(_) => Err(Memory),
    }
}

// Adds the answer to a line, with LF at its end. A stop has none: the desk is opened again.
fn add_answer<K: Keeper>(
    alloc: Global,
    text: &mut String,
    desk: &mut Desk<K>,
    line: &str,
) -> Result<(), Memory> {
    match line_of(alloc, line.as_bytes(), &mut Scratch::new(alloc))? {
        Some(Line::Asks(read)) => add_asked(alloc, text, desk, read),
        Some(Line::Stop) => reopen(desk),
        None => append_parts(alloc, text, &[Text("no line\n")]),
    }
}

// The answers to lines, one after the other.
fn answers<K: Keeper>(alloc: Global, desk: &mut Desk<K>, lines: &str) -> Result<String, Memory> {
    let mut text = String::new(alloc);
    for line in lines.lines() {
        add_answer(alloc, &mut text, desk, line)?;
    }
    Ok(text)
}

/// What a desk that is opened over a keeper answers to lines, and the keeper.
pub fn fed<K: Keeper>(alloc: Global, keeper: K, lines: &str) -> (Result<String, Memory>, K) {
    fed_within(alloc, keeper, LIMIT, lines)
}

/// The same with a book of so many entries at most.
pub fn fed_within<K: Keeper>(
    alloc: Global,
    keeper: K,
    limit: u32,
    lines: &str,
) -> (Result<String, Memory>, K) {
    match Desk::open(alloc, keeper, limit) {
        Ok(desk) => {
            let mut desk = desk;
            let told = answers(alloc, &mut desk, lines);
            (told, desk.close())
        }
        Err((_, keeper)) => (Err(Memory), keeper),
    }
}

/// What a keeper holds.
pub fn held_text<K: Keeper>(alloc: Global, keeper: &mut K) -> Result<String, Memory> {
    match keeper.load() {
        Ok(loaded) => store_text(alloc, loaded.cells.as_slice(), loaded.generation),
        Err(_) => Err(Memory),
    }
}

/// What a desk says that is opened over a keeper once more: how many entries its book has, or that it does not open; and the keeper.
pub fn checked<K: Keeper>(alloc: Global, keeper: K) -> (Option<u32>, K) {
    match Desk::open(alloc, keeper, LIMIT) {
        Ok(desk) => {
            let entries = desk.book().len();
            (Some(entries), desk.close())
        }
        Err((_, keeper)) => (None, keeper),
    }
}
