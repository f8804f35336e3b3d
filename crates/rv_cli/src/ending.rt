use rv_base::Fault;
use rv_desk::OpenFault;
use rv_record::Damage;

/// How a run ends.
#[derive(Debug, Drop)]
pub enum Ending {
    /// The input was read to its end, and all its lines are answered.
    Done,
    /// The place or the keeper failed in opening.
    Keeper,
    /// The store is damaged, first at this place.
    Damaged(Damage),
    /// A read failed.
    Read,
    /// A write of an answer failed.
    Write,
    /// Memory was refused outside a request.
    Memory,
    /// The line with this number, from 1, is not of the form.
    Malformed(u64),
}

impl Ending {
    ghost use Rattle.std.specs.Prelude.{◌≡◌};
    ghost use Rattle.rv_cli.specs.Texts.{status_of, fault_ending};

    // How a run ends whose desk is not opened.
    pub(crate) fn of_fault(fault: OpenFault) -> Ending
        ensures { result ≡ fault_ending fault }
    {
        match fault {
            OpenFault::Keeper => Ending::Keeper,
            OpenFault::Damaged(damage) => Ending::Damaged(damage),
            OpenFault::Memory => Ending::Memory,
        }
    }

    /// The status of the process.
    pub fn status(&self) -> u8
        ensures { result ≡ status_of self.now }
    {
        match self {
            Ending::Done => 0,
            Ending::Keeper => 4,
            Ending::Damaged(_) => 5,
            Ending::Read => 6,
            Ending::Write => 7,
            Ending::Memory => 8,
            Ending::Malformed(_) => 10,
        }
    }
}

// How a run ends whose keeper the place does not give.
impl From<Fault> for Ending {
    ghost use Rattle.std.specs.Prelude.{◌≡◌};
    ghost use Rattle.rv_cli.specs.Texts.{keep_ending};

    ghost from_gives = { λ fault ending. ending ≡ keep_ending fault };

    fn from(fault: Fault) -> Ending {
        match fault {
            Fault::Failed => Ending::Keeper,
            Fault::Memory => Ending::Memory,
        }
    }
}
