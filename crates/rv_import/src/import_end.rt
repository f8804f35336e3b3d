// How an import ends.
ghost use Rattle.std.specs.Prelude.{◌≡◌, ◌++◌, IfOk, OnOk, decimal};
ghost use Rattle.rv_import.specs.Importing.{import_text};

use itoa::Buffer;
use rv_base::{Bytes, Memory, Sequence};
use rv_turns::Refusal;
use std::alloc::Global;

/// How many records an import had, and what came of their mutations.
#[derive(Clone, Copy, Debug, PartialEq, Eq)]
pub struct ImportCounts {
    /// The records after the header, each a mutation.
    pub records: u32,
    /// The mutations that were run.
    pub acted: u32,
    /// The mutations that were skipped.
    pub skipped: u32,
}

/// How an import ended. Every mutation before its end was run or skipped, and the same file may be imported again.
#[derive(Clone, Copy, Debug, PartialEq, Eq)]
pub enum ImportEnd {
    /// The mutation of each record was run or skipped.
    Done(ImportCounts),
    /// The file has more than 16,777,216 bytes. Nothing was done.
    TooLarge,
    /// The record of this number is the first that is not of the form. The header has number 0, and is missing where there is no
    /// record. The mutations of the records before it were run or skipped.
    BadRecord(u32),
    /// The first mutation that was neither run nor skipped was refused for this, which is not want of memory.
    Refused(Refusal),
    /// Memory was refused, to a turn or outside of them.
    Memory,
}

// Adds a word as it stands, and a number in decimal.
fn add(out: &mut Vec<u8>, word: &str, number: u32) -> Result<(), Memory>
    ensures { OnOk result (out.new.items ≡ out.old.items ++ (word.now ++ decimal number)) }
{
    let mut digits = Buffer::new();
    out.extend_from_slice(word.as_bytes())?;
    out.extend_from_slice(digits.format(number).as_bytes())?;
    Ok(())
}

impl ImportCounts {
    /// The counts as one line: `records N acted A skipped S`, and LF.
    pub fn text(&self, alloc: Global) -> Result<Bytes, Memory>
        ensures { IfOk result (λ text. text ≡ import_text self.now) }
    {
        let mut out = Vec::new(alloc);
        add(&mut out, "records ", self.records)?;
        add(&mut out, " acted ", self.acted)?;
        add(&mut out, " skipped ", self.skipped)?;
        out.push(b'\n')?;
        Ok(Sequence::from_vec(out))
    }
}
