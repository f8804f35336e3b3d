// Numbers in commands, and of lines.
use crate::texts::{first_word, number_in};

/// The first four words, where they are numbers.
pub fn four_numbers(words: &str) -> Option<[u64; 4]> {
    let (first, words) = first_word(words);
    let (second, words) = first_word(words);
    let (third, words) = first_word(words);
    let (fourth, _) = first_word(words);
    Some([
        number_in(first)?,
        number_in(second)?,
        number_in(third)?,
        number_in(fourth)?,
    ])
}

/// The word after the first four, where it is a number, and else 0.
pub fn fifth_number(words: &str) -> u64 {
    let mut left = words;
    for _ in 0..4 {
        let (_, rest) = first_word(left);
        left = rest;
    }
    let (word, _) = first_word(left);
    number_in(word).unwrap_or(0)
}

/// How many lines of a text begin so.
pub fn count_lines(text: &str, front: &str) -> u64 {
    let mut many: u64 = 0;
    for line in text.lines() {
        if line.starts_with(front) {
            many = many.saturating_add(1);
        }
    }
    many
}
