//! Standard input as a source.
ghost use Rattle.std.specs.Prelude.{◌≡◌, ℕ, None};

use crate::source::{Source, SourceFailed};
use std::io::{Input, Read};
use std::marker::Model;

/// The input of the program. It tells nothing of what is left; contracts see the count of
/// faults.
#[derive(Drop)]
pub struct StdinSource<R: Input> {
    reader: R::Reader,
    faults: u64,
}

impl<R: Input> Model for StdinSource<R> {
    ghost Value = { ℕ };

    ghost view = { λ s. s.faults };
}

impl<R: Input> StdinSource<R> {
    /// A source over the input of `rt`.
    pub fn new(rt: &R) -> StdinSource<R>
        ensures { result ≡ 0 }
    {
        StdinSource {
            reader: rt.reader(),
            faults: 0,
        }
    }
}

impl<R: Input> Source for StdinSource<R> {
    ghost left = { λ _. None };

    ghost faults = { λ count. count };

    /// Reads once. Every error of the system is a failure and raises the count of faults.
    fn take(&mut self, into: &mut [u8]) -> Result<usize, SourceFailed> {
        match self.reader.read(into) {
            Ok(count) => Ok(count),
            Err(_) => {
                self.faults = self.faults.saturating_add(1);
                Err(SourceFailed)
            }
        }
    }
}
