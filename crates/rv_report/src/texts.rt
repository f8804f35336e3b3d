// Texts and numbers, added to a buffer.
ghost use Rattle.std.specs.Prelude.{◌≡◌, ◌++◌, ◌<◌, ◌^◌, IfOk, OnOk, decimal};
ghost use Rattle.rv_report.specs.Texts.{quoted, in_ten};

use itoa::Buffer;
use json::Writer;
use rv_base::Memory;

/// Adds a text as it stands.
pub(crate) fn add(out: &mut Vec<u8>, text: &str) -> Result<(), Memory>
    ensures { OnOk result (out.new.items ≡ out.old.items ++ text.now) }
{
    out.extend_from_slice(text.as_bytes())?;
    Ok(())
}

/// Adds a number in decimal.
pub(crate) fn add_number(out: &mut Vec<u8>, number: u64) -> Result<(), Memory>
    ensures { OnOk result (out.new.items ≡ out.old.items ++ decimal number) }
{
    let mut digits = Buffer::new();
    add(out, digits.format(number))
}

/// The buffer with a text as a JSON string behind what it held.
pub(crate) fn with_quoted(out: Vec<u8>, text: &str) -> Result<Vec<u8>, Memory>
    ensures { IfOk result (λ added. added.items ≡ out.items ++ quoted text.now) }
{
    let mut writer = Writer::new(out);
    writer.string(text)?;
    Ok(writer.into_inner())
}

/// Adds a number below 10^10, right in ten places.
pub(crate) fn add_in_ten(out: &mut Vec<u8>, number: u32) -> Result<(), Memory>
    ensures { OnOk result (out.new.items ≡ out.old.items ++ in_ten number) }
{
    let mut digits = Buffer::new();
    let text = digits.format(number);
    for _ in text.len()..10 {
        out.push(b' ')?;
    }
    add(out, text)
}
