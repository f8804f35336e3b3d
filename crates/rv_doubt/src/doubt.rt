// What is in doubt.
ghost use Rattle.std.specs.Prelude.{◌≡◌, Some};

use rv_state::Prepared;

// Leaves this in doubt, in the place of what was.
pub(crate) fn leave_in_doubt(doubt: &mut Option<Prepared>, prepared: Prepared)
    ensures { doubt.new ≡ Some prepared }
{
    *doubt = Some(prepared);
}
