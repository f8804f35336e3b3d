use rv_base::Fault;

/// Why the input was not read whole.
#[derive(Clone, Copy, Debug, PartialEq, Eq)]
pub(crate) enum InputFault {
    /// A read failed.
    Read,
    /// It has more bytes than an import may have.
    TooLarge,
    /// Memory was refused.
    Memory,
}

impl From<Fault> for InputFault {
    ghost use Rattle.std.specs.Prelude.{◌≡◌};
    ghost use Rattle.rv_cli.specs.Input.{fault_of};

    ghost from_gives = { λ fault made. made ≡ fault_of fault };

    fn from(fault: Fault) -> InputFault {
        match fault {
            Fault::Failed => InputFault::Read,
            Fault::Memory => InputFault::Memory,
        }
    }
}
