//! A place that bytes are put into, standard output for one.
ghost use Rattle.std.specs.Prelude.{◌≡◌, ◌≤◌, ◌<◌, ℕ, List, Option, IfOk, OnErr, length, take};
ghost use Rattle.ld_base.specs.Outside.{Rose, then_piece};

use thiserror::Error;

/// The outside failed to take bytes.
#[derive(Clone, Copy, Debug, PartialEq, Eq, Error)]
#[error("the output cannot be written")]
pub struct SinkFailed;

/// A place that bytes are put into. Contracts see those that were written, where they are told,
/// and a count of faults that never falls.
pub trait Sink {
    ghost written: { Self → Option (List ℕ) };

    ghost faults: { Self → ℕ };

    /// Writes the first `n` bytes of the piece and gives `n`, which may be less than all of them.
    ///
    /// # Errors
    /// `SinkFailed` only where the count of faults rose. It writes nothing.
    fn put(&mut self, piece: &[u8]) -> Result<usize, SinkFailed>
        ensures within { IfOk result (λ n. n ≤ length piece.now) }
        ensures bytes { IfOk result
            (λ n. written self.new ≡ then_piece (written self.old) (take n piece.now)) }
        ensures zero { IfOk result
            (λ n. n ≡ 0 → 0 < length piece.now → Rose (faults self.old) (faults self.new)) }
        ensures err { OnErr result (written self.new ≡ written self.old) }
        ensures cause { OnErr result (Rose (faults self.old) (faults self.new)) }
        ensures counts { faults self.old ≤ faults self.new };
}
