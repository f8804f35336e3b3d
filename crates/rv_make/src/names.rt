// Names of a letter and a number.
ghost use Rattle.std.specs.Prelude.{◌≡◌, ◌≤◌, ◌+◌, length, IfOk, OnOk, string_bytes};
ghost use Rattle.rv_make.specs.Names.{lettered};

use itoa::Buffer;
use rv_base::{Bounded, Memory, TextRefusal};
use std::alloc::Global;

// The letter, and the number in decimal.
fn name_text(alloc: Global, letter: &str, number: u32) -> Result<String, Memory>
    ensures text { IfOk result (λ text. string_bytes text ≡ lettered letter.now number) }
    ensures short { OnOk result (length (lettered letter.now number) ≤ length letter.now + 40) }
    ensures some { OnOk result (length letter.now ≤ length (lettered letter.now number)) }
{
    let mut digits = Buffer::new();
    let mut text = String::from_str(alloc, letter)?;
    text.push_str(digits.format(number))?;
    Ok(text)
}

// The same as an id, a user or a text.
pub(crate) fn name<const MIN: usize, const MAX: usize>(
    alloc: Global,
    letter: &str,
    number: u32,
) -> Result<Bounded<MIN, MAX>, Memory>
    requires letter { length letter.now ≡ 1 }
    requires bounds { (MIN ≤ 1) × (64 ≤ MAX) }
    ensures { IfOk result (λ name. name ≡ lettered letter.now number) }
{
    let text = name_text(alloc, letter, number)?;
    match Bounded::new(alloc, text.as_str()) {
        Ok(name) => Ok(name),
        Err(TextRefusal::Memory) => Err(Memory),
        Err(TextRefusal::TooShort) => unreachable!(),
        Err(TextRefusal::TooLong(_)) => unreachable!(),
    }
}
