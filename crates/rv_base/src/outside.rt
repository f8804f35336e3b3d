ghost use Rattle.std.specs.Prelude.{◌≡◌, ◌<◌, ℕ, length, IfOk, IsOk};
ghost use Rattle.std.specs.Io.{ReadsAtMost, WritesAtMost};
ghost use Rattle.rv_base.specs.Outside.{InputState, OutputState, Reads, WritesSome, IsSteady, counted_if, is_end};

use thiserror::Error;

/// A read or a write failed, and the count of faults rose.
#[derive(Clone, Copy, Debug, PartialEq, Eq, Error)]
#[error("a read or a write failed")]
pub struct Failed;

/// Where bytes come from.
pub trait Source {
    /// The bytes that are left, where the source tells; how often a read has failed, and how often one has told the end.
    /// The counts stand still at 2^64 - 1.
    ghost state: { Self → InputState };

    /// No read fails any more.
    ghost fails_no_more: { Self → Type 0 };

    /// Reads some bytes into the front of the piece, and answers how many: none only at the end, or into no space. A read
    /// that fails takes no byte.
    fn read(&mut self, piece: &mut [u8]) -> Result<usize, Failed>
        ensures bound { ReadsAtMost result piece.new }
        ensures reads { Reads (state self.old) (state self.new) result piece.new }
        ensures steady { fails_no_more self.old → IsOk result × fails_no_more self.new };
}

/// The count of the ends that were told, after a read that gave so many bytes into this piece.
pub fn ends_after(ends: u64, count: usize, piece: &[u8]) -> u64
    ensures { result ≡ counted_if (is_end count piece.now) ends }
{
    if count == 0 && !piece.is_empty() {
        ends.saturating_add(1)
    } else {
        ends
    }
}

/// Where bytes go.
pub trait Sink {
    /// The bytes that were written, where the sink tells; how often a write has failed, and how often because memory was
    /// refused to it. The counts stand still at 2^64 - 1.
    ghost state: { Self → OutputState };

    /// No write fails any more but for want of memory.
    ghost fails_no_more: { Self → Type 0 };

    /// Writes some bytes of the piece's front, and answers how many: at least one where there is one. A write that fails
    /// writes no byte.
    fn write(&mut self, piece: &[u8]) -> Result<usize, Failed>
        ensures bound { WritesAtMost result piece.now }
        ensures some { 0 < length piece.now → IfOk result (λ n. 0 < n) }
        ensures writes { WritesSome (state self.old) (state self.new) result piece.now }
        ensures steady { fails_no_more self.old → IsSteady (fails_no_more self.new) (state self.old) (state self.new) result };
}
