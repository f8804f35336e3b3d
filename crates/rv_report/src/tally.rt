// How much a user did.
ghost use Rattle.std.specs.Prelude.{◌≡◌};
ghost use Rattle.rv_report.specs.Tallies.{is_void, no_entries, with_one, MayRise};

use rv_book::Entry;
use rv_rows::Call;

/// How many acts and looks a user has, and how many of the acts are no call.
#[derive(Clone, Copy, Debug)]
pub(crate) struct Tally {
    pub(crate) acts: u32,
    pub(crate) voids: u32,
    pub(crate) looks: u32,
}

// Whether nothing is called.
fn is_void(call: &Call) -> bool
    ensures { result ≡ is_void call.now }
{
    matches!(call, Call::Void(_))
}

impl Tally {
    /// No act and no look.
    pub(crate) fn new() -> Tally
        ensures { result ≡ no_entries }
    {
        Tally {
            acts: 0,
            voids: 0,
            looks: 0,
        }
    }

    /// The tally with one more entry of the user.
    pub(crate) fn with(self, entry: &Entry) -> Tally
        requires { MayRise self }
        ensures { result ≡ with_one entry.now self }
    {
        match entry {
            Entry::Act { call, .. } => Tally {
                acts: self.acts + 1,
                voids: self.voids + u32::from(is_void(call)),
                looks: self.looks,
            },
            Entry::Look { .. } => Tally {
                acts: self.acts,
                voids: self.voids,
                looks: self.looks + 1,
            },
            Entry::Retire { .. } => self,
        }
    }
}
