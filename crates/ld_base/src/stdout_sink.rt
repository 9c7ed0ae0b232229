//! Standard output as a sink.
ghost use Rattle.std.specs.Prelude.{◌≡◌, ℕ, None};

use crate::sink::{Sink, SinkFailed};
use std::io::Print;
use std::marker::Model;

/// The output of the program. It tells nothing of what was written; contracts see the
/// count of faults.
#[derive(Drop)]
pub struct StdoutSink<'a, P: Print> {
    rt: &'a P,
    faults: u64,
}

impl<'a, P: Print> Model for StdoutSink<'a, P> {
    ghost Value = { ℕ };

    ghost view = { λ s. s.faults };
}

impl<'a, P: Print> StdoutSink<'a, P> {
    /// A sink over the output of `rt`.
    pub fn new(rt: &'a P) -> StdoutSink<'a, P>
        ensures { result ≡ 0 }
    {
        StdoutSink { rt, faults: 0 }
    }
}

impl<P: Print> Sink for StdoutSink<'_, P> {
    ghost written = { λ _. None };

    ghost faults = { λ count. count };

    /// Writes once. Every error of the system is a failure and raises the count of faults, and so
    /// does a write that takes nothing of a piece that is not empty.
    fn put(&mut self, piece: &[u8]) -> Result<usize, SinkFailed> {
        match self.rt.write_some(piece) {
            Ok(count) if count > 0 || piece.is_empty() => Ok(count),
            _ => {
                self.faults = self.faults.saturating_add(1);
                Err(SinkFailed)
            }
        }
    }
}
