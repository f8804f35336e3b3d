// Numbers among the words.
ghost use Rattle.std.specs.Int.{IsInRange};
ghost use Rattle.std.specs.Prelude.{◌≡◌, ◌<◌, ◌^◌, IfSome, ℕ, decimal, Some};
ghost use Rattle.std.specs.Str.{bytes_eq};
ghost use Rattle.rv_words.specs.Numbers.{number_in};

use itoa::Buffer;

// The number's decimal text is this.
fn is_text_of(text: &str, number: u32) -> bool
    ensures { result ≡ bytes_eq (decimal number) text.now }
{
    let mut digits = Buffer::new();
    digits.format(number) == text
}

// The number that the text is read as. More texts are read than those that are written.
fn parsed(text: &str) -> Option<u32>
    ensures { (number : ℕ) → number < 2 ^ 32 → text.now ≡ decimal number → result ≡ Some number }
{
    text.parse::<u32>().ok()
}

/// The number that the text is in decimal digits, without sign and leading zeros, where it is from `least` to `most`.
pub(crate) fn number_of(text: &str, least: u32, most: u32) -> Option<u32>
    ensures number { result ≡ number_in least most text.now }
    ensures bounds { IfSome result (λ number. IsInRange least most number) }
{
    let number = parsed(text)?;
    if is_text_of(text, number) && least <= number && number <= most {
        Some(number)
    } else {
        None
    }
}
