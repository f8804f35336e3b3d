// What a run is told as.
ghost use Rattle.std.specs.Prelude.{◌≡◌, ◌++◌, IfOk, OnOk, decimal};
ghost use Rattle.rv_make.specs.SummaryTexts.{summary_text};

use itoa::Buffer;
use rv_base::{Bytes, Memory, Sequence};
use std::alloc::Global;

/// How many requests a run took, how they were answered, and what it left.
#[derive(Clone, Copy, Debug, PartialEq, Eq)]
pub struct Summary {
    /// The requests.
    pub requests: u32,
    /// The mutations that were run.
    pub acted: u32,
    /// The mutations that were skipped.
    pub skipped: u32,
    /// The pulls that entered a look.
    pub looks: u32,
    /// The pulls that were answered with their own cookie.
    pub same: u32,
    /// The entries of the last book.
    pub entries: u32,
    /// The rows that the last book leaves.
    pub rows: u64,
}

// Adds a word as it stands, and a number in decimal.
fn add(out: &mut Vec<u8>, word: &str, number: u64) -> Result<(), Memory>
    ensures { OnOk result (out.new.items ≡ out.old.items ++ (word.now ++ decimal number)) }
{
    let mut digits = Buffer::new();
    out.extend_from_slice(word.as_bytes())?;
    out.extend_from_slice(digits.format(number).as_bytes())?;
    Ok(())
}

impl Summary {
    /// The summary as one line: `requests N acted A skipped S looks L same M entries E rows R`, and LF.
    pub fn text(&self, alloc: Global) -> Result<Bytes, Memory>
        ensures { IfOk result (λ text. text ≡ summary_text self.now) }
    {
        let mut out = Vec::new(alloc);
        add(&mut out, "requests ", u64::from(self.requests))?;
        add(&mut out, " acted ", u64::from(self.acted))?;
        add(&mut out, " skipped ", u64::from(self.skipped))?;
        add(&mut out, " looks ", u64::from(self.looks))?;
        add(&mut out, " same ", u64::from(self.same))?;
        add(&mut out, " entries ", u64::from(self.entries))?;
        add(&mut out, " rows ", self.rows)?;
        out.push(b'\n')?;
        Ok(Sequence::from_vec(out))
    }
}
