use rv_base::Memory;
use std::alloc::Global;

/// The first word of a text, and what stands after the blank that ends it.
pub fn first_word(text: &str) -> (&str, &str) {
    text.split_once(' ').unwrap_or((text, ""))
}

/// A part of a text that is told.
#[derive(Clone, Copy)]
pub enum Part<'a> {
    /// This text.
    Text(&'a str),
    /// A number, in decimal digits.
    Number(u64),
}

// Adds a part to a text.
fn add_part(alloc: Global, text: &mut String, part: Part<'_>) -> Result<(), Memory> {
    match part {
        Part::Text(part) => text.push_str(part)?,
        Part::Number(number) => text.push_str(digits_of(alloc, number)?.as_str())?,
    }
    Ok(())
}

/// Adds these parts to a text, one after the other.
pub fn append_parts(alloc: Global, text: &mut String, parts: &[Part<'_>]) -> Result<(), Memory> {
    for part in parts {
        add_part(alloc, text, *part)?;
    }
    Ok(())
}

/// These parts, one after the other.
pub fn joined(alloc: Global, parts: &[Part<'_>]) -> Result<String, Memory> {
    let mut text = String::new(alloc);
    append_parts(alloc, &mut text, parts)?;
    Ok(text)
}

/// The words of a text that single marks part; of an empty text none.
pub fn words_at(alloc: Global, mark: char, text: &str) -> Result<Vec<String>, Memory> {
    let mut words = Vec::new(alloc);
    if text.is_empty() {
        return Ok(words);
    }
    for word in text.split(mark) {
        words.push(String::from_str(alloc, word)?)?;
    }
    Ok(words)
}

/// The number that a text is, if it is one of 64 bits.
pub fn number_in(text: &str) -> Option<u64> {
    text.parse::<u64>().ok()
}

// A number in decimal digits.
fn digits_of(alloc: Global, number: u64) -> Result<String, Memory> {
    Ok(format!(in alloc; "{number}")?)
}

/// The text that bytes are, or that they are none.
pub fn text_of(bytes: &[u8]) -> &str {
    std::str::from_utf8(bytes).unwrap_or("no text\n")
}

/// What has a name in a table.
pub fn named<T: Copy>(table: &[(&str, T)], name: &str) -> Option<T> {
    for (other, item) in table {
        if *other == name {
            return Some(*item);
        }
    }
    None
}
