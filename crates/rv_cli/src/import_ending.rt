use rv_turns::Refusal;

/// How a run of `import` ends whose store was opened.
#[derive(Debug, Drop)]
pub enum ImportEnding {
    /// Each record was taken, and how many there were was written.
    Done,
    /// A read failed. No turn was taken.
    Read,
    /// The input has more than 16,777,216 bytes. No turn was taken.
    TooLarge,
    /// The record with this number, from 0 with the header, is the first that is not of the form. The turns of those before it were
    /// taken.
    BadRecord(u32),
    /// The turn of a record was refused so, and no later one was taken.
    Refused(Refusal),
    /// Memory was refused. No later turn was taken.
    Memory,
    /// Each record was taken, and the write of how many there were failed.
    Write,
}

impl ImportEnding {
    ghost use Rattle.std.specs.Prelude.{◌≡◌};
    ghost use Rattle.rv_cli.specs.Texts.{import_status};

    /// The status of the process.
    pub fn status(&self) -> u8
        ensures { result ≡ import_status self.now }
    {
        match self {
            ImportEnding::Done => 0,
            ImportEnding::Read => 6,
            ImportEnding::TooLarge => 11,
            ImportEnding::BadRecord(_) => 11,
            ImportEnding::Refused(_) => 12,
            ImportEnding::Memory => 8,
            ImportEnding::Write => 7,
        }
    }
}
