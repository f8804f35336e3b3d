// What words ask for.
use rv_base::Memory;
use rv_words::{Command, command_of};
use std::alloc::Global;
use trial_stage::words_at;

// The command that words between bars ask for, where they ask for one. An empty text has no words.
fn command_in(alloc: Global, line: &str) -> Result<Option<Command>, Memory> {
    let words = words_at(alloc, '|', line)?;
    command_of(alloc, &words)
}

/// `words WORD|..`: what the words between the bars ask for.
pub fn asked(alloc: Global, line: &str) -> Result<Option<String>, Memory> {
    match line.strip_prefix("words") {
        Some(words) => {
            let command = command_in(alloc, words.strip_prefix(' ').unwrap_or(""))?;
            Ok(Some(format!(in alloc; "{command:?}\n")?))
        }
        None => Ok(None),
    }
}
