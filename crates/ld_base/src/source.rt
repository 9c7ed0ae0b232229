//! Bytes that are taken one after the other, standard input for one.
ghost use Rattle.std.specs.Prelude.{◌≡◌, ◌≤◌, ◌<◌, ℕ, List, [], Option, IfOk, OnErr, IfSome, length, take};
ghost use Rattle.ld_base.specs.Outside.{Rose, piece_then};

use thiserror::Error;

/// The outside failed to give bytes.
#[derive(Clone, Copy, Debug, PartialEq, Eq, Error)]
#[error("the input cannot be read")]
pub struct SourceFailed;

/// Bytes that are taken from the front. Contracts see those that are left, where they are told,
/// and a count of faults that never falls.
pub trait Source {
    ghost left: { Self → Option (List ℕ) };

    ghost faults: { Self → ℕ };

    /// Takes the next `n` bytes into the first `n` places of `into`, and gives `n`. 0 means that no
    /// byte is left.
    ///
    /// # Errors
    /// `SourceFailed` only where the count of faults rose. It takes no byte.
    fn take(&mut self, into: &mut [u8]) -> Result<usize, SourceFailed>
        requires { 0 < length into.old }
        ensures within { IfOk result (λ n. n ≤ length into.old) }
        ensures bytes { IfOk result
            (λ n. left self.old ≡ piece_then (take n into.new) (left self.new)) }
        ensures end { IfOk result (λ n. n ≡ 0 → IfSome (left self.new) (λ rest. rest ≡ [])) }
        ensures err { OnErr result (left self.new ≡ left self.old) }
        ensures cause { OnErr result (Rose (faults self.old) (faults self.new)) }
        ensures counts { faults self.old ≤ faults self.new };
}
