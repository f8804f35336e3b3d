ghost use Rattle.std.specs.Prelude.{◌≡◌, ◌≤◌, take};
ghost use Rattle.serde_json.specs.Written.{compact_text};
ghost use Rattle.rv_wire.specs.Answers.{retired_data};

use crate::refusal::put_last;

/// Writes the JSON text of the answer to a retirement, `{"retired":PLACE}`, to the buffer's front, and answers how many
/// bytes it has. Takes no memory.
pub fn retired_text(place: u32, out: &mut [u8; 128]) -> usize
    ensures length { result ≤ 128 }
    ensures text { take result out.new ≡ compact_text (retired_data place) }
{
    put_last(out, b"{\"retired\":", u64::from(place))
}
