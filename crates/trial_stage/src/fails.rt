// Calls of a keeper that fail, as words name them.
use crate::texts::number_in;
use rv_keeper::Fails;

/// The number after a word, as in `after1`.
pub fn number_after(call: &str, word: &str) -> Option<u64> {
    number_in(call.strip_prefix(word)?)
}

/// The call of a word, as `before1`, `after1`, `memory1` or `generation1`, if it is one.
pub fn call_named(word: &str) -> Option<Fails> {
    if let Some(number) = number_after(word, "before") {
        return Some(Fails::Before(number));
    }
    if let Some(number) = number_after(word, "after") {
        return Some(Fails::After(number));
    }
    if let Some(number) = number_after(word, "memory") {
        return Some(Fails::Memory(number));
    }
    number_after(word, "generation").map(Fails::Generation)
}
