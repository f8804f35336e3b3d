// Numbers in decimal.
ghost use Rattle.std.specs.Prelude.{◌≡◌, ◌↔◌, ◌<◌, ◌^◌, ℕ, decimal, IsTrue, Some};
ghost use Rattle.rv_sqlite.specs.Rows.{IsNumber};

use itoa::Buffer;

// The number's decimal text is this.
fn is_text_of(text: &[u8], number: u64) -> bool
    ensures { IsTrue result ↔ (text.now ≡ decimal number) }
{
    let mut digits = Buffer::new();
    digits.format(number).as_bytes() == text
}

// The number that the text is read as. More texts are read than those that are written.
fn parsed(text: &[u8]) -> Option<u64>
    ensures { (number : ℕ) → number < 2 ^ 64 → text.now ≡ decimal number → result ≡ Some number }
{
    match std::str::from_utf8(text) {
        Ok(digits) => digits.parse::<u64>().ok(),
        Err(_) => None,
    }
}

/// The number below 2^64 whose decimal text this is, without leading zeros.
pub(crate) fn number_in(text: &[u8]) -> Option<u64>
    ensures { IsNumber text.now result }
{
    let number = parsed(text)?;
    if is_text_of(text, number) {
        Some(number)
    } else {
        None
    }
}
