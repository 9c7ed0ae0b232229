//! Bytes in memory as a source.
ghost use Rattle.std.specs.Prelude.{◌≡◌, ◌≤◌, ◌<◌, List, [], Option, Some, IfOk, OnErr, IfSome, length, take, drop, min, is_err, vec_len};
ghost use Rattle.ld_base.specs.Calls.{CallState, next_is_listed, after_call};
ghost use Rattle.ld_base.specs.Memory.{SourceState};
ghost use Rattle.ld_base.specs.Outside.{Rose, piece_then};

use crate::bytes::{Bytes, CallList};
use crate::calls::Calls;
use crate::source::{Source, SourceFailed};
use std::marker::Model;

/// A source over bytes in memory, which gives them in pieces of a chosen length.
#[derive(Drop)]
pub struct MemorySource {
    bytes: Bytes,
    start: usize,
    piece: usize,
    calls: Calls,
}

impl Model for MemorySource {
    ghost Value = { SourceState };

    ghost view = { λ s. record { left = drop s.start s.bytes; piece = s.piece; calls = s.calls } };

    ghost invariant = { λ s. (s.start ≤ length s.bytes) × (0 < s.piece) };
}

impl MemorySource {
    /// A source of these bytes that gives at most `piece` of them in one call. The calls of these
    /// numbers, counted from 1, fail.
    pub fn new(bytes: Bytes, piece: usize, failing: CallList) -> MemorySource
        requires { 0 < piece }
        ensures { result ≡ record {
          left = bytes;
          piece = piece;
          calls = record { failing = failing; made = 0; faults = 0 };
        } }
    {
        MemorySource {
            bytes,
            start: 0,
            piece,
            calls: Calls::new(failing),
        }
    }
}

impl Source for MemorySource {
    ghost left = { λ s. Some s.left };

    ghost faults = { λ s. s.calls.faults };

    /// Takes as many bytes as are left, have room in `into`, and come in one piece.
    ///
    /// # Errors
    /// `SourceFailed` exactly where the number of this call is listed.
    fn take(&mut self, into: &mut [u8]) -> Result<usize, SourceFailed>
        requires { 0 < length into.old }
        ensures within { IfOk result (λ n. n ≤ length into.old) }
        ensures bytes { IfOk result
            (λ n. Some self.old.left ≡ piece_then (take n into.new) (Some self.new.left)) }
        ensures end { IfOk result (λ n. n ≡ 0 → self.new.left ≡ []) }
        ensures err { OnErr result (self.new.left ≡ self.old.left) }
        ensures cause { OnErr result (Rose self.old.calls.faults self.new.calls.faults) }
        ensures counts { self.old.calls.faults ≤ self.new.calls.faults }

        ensures fails { is_err result ≡ next_is_listed self.old.calls }
        ensures counted { self.new.calls
            ≡ after_call (next_is_listed self.old.calls) self.old.calls }
        ensures some { IfOk result (λ n. 0 < length self.old.left → 0 < n) }
        ensures count { IfOk result
            (λ n. n ≡ min self.old.piece (min (length into.old) (length self.old.left))) }
        ensures piece { self.new.piece ≡ self.old.piece }
    {
        if self.calls.fails(false) {
            return Err(SourceFailed);
        }
        let count = copy_piece(&self.bytes.as_slice()[self.start..], self.piece, into);
        self.start += count;
        Ok(count)
    }
}

/// Copies the first bytes, as many as there are, as one piece has, and as have room in `into`, and
/// gives their number.
fn copy_piece(bytes: &[u8], piece: usize, into: &mut [u8]) -> usize
    ensures count { result ≡ min piece (min (length into.old) (length bytes.now)) }
    ensures copied { take result into.new ≡ take result bytes.now }
{
    let count = piece.min(into.len().min(bytes.len()));
    into[..count].copy_from_slice(&bytes[..count]);
    count
}
