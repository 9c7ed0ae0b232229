//! Bytes in memory as a sink.
ghost use Rattle.std.specs.Prelude.{◌≡◌, ◌≤◌, ◌<◌, ◌+◌, ◌||◌, List, [], ◌++◌, Option, Some, IfOk, OnErr, length, take, is_err, vec_len, vec_capacity, nat_lt};
ghost use Rattle.ld_base.specs.Calls.{CallState, next_is_listed, after_call};
ghost use Rattle.ld_base.specs.Memory.{SinkState};
ghost use Rattle.ld_base.specs.Outside.{Rose, then_piece};

use crate::bytes::CallList;
use crate::calls::Calls;
use crate::memory::NoMemory;
use crate::sink::{Sink, SinkFailed};
use std::alloc::Global;
use std::marker::Model;

/// A sink that keeps what is put into it, up to a number of bytes that is chosen at first.
#[derive(Drop)]
pub struct MemorySink {
    written: Vec<u8>,
    room: usize,
    calls: Calls,
}

impl Model for MemorySink {
    ghost Value = { SinkState };

    ghost view = { λ s. record { written = s.written.items; room = s.room; calls = s.calls } };

    ghost invariant = { λ s. vec_len s.written + s.room ≤ vec_capacity s.written };
}

impl MemorySink {
    /// An empty sink with room for `room` bytes, all taken at once. The calls of these numbers,
    /// counted from 1, fail.
    ///
    /// # Errors
    /// `NoMemory` where there is no memory for so much room.
    pub fn new(alloc: Global, room: usize, failing: CallList) -> Result<MemorySink, NoMemory>
        ensures { IfOk result
            (λ sink. sink ≡ record {
              written = [];
              room = room;
              calls = record { failing = failing; made = 0; faults = 0 };
            }) }
    {
        let written = Vec::with_capacity(alloc, room)?;
        Ok(MemorySink {
            written,
            room,
            calls: Calls::new(failing),
        })
    }

    /// All that was written.
    pub fn bytes(&self) -> &[u8]
        ensures { result.now ≡ self.now.written }
    {
        self.written.as_slice()
    }
}

impl Sink for MemorySink {
    ghost written = { λ s. Some s.written };

    ghost faults = { λ s. s.calls.faults };

    /// Writes the whole piece. It takes no memory.
    ///
    /// # Errors
    /// `SinkFailed` exactly where the number of this call is listed or the piece is longer than
    /// what is left of the room.
    fn put(&mut self, piece: &[u8]) -> Result<usize, SinkFailed>
        ensures within { IfOk result (λ n. n ≤ length piece.now) }
        ensures bytes { IfOk result
            (λ n. Some self.new.written ≡ then_piece (Some self.old.written) (take n piece.now)) }
        ensures zero { IfOk result
            (λ n. n ≡ 0 → 0 < length piece.now → Rose self.old.calls.faults self.new.calls.faults) }
        ensures err { OnErr result (self.new.written ≡ self.old.written) }
        ensures cause { OnErr result (Rose self.old.calls.faults self.new.calls.faults) }
        ensures counts { self.old.calls.faults ≤ self.new.calls.faults }

        ensures fails { is_err result
            ≡ (next_is_listed self.old.calls || nat_lt self.old.room (length piece.now)) }
        ensures counted { self.new.calls ≡ after_call (is_err result) self.old.calls }
        ensures whole { IfOk result (λ n. n ≡ length piece.now) }
        ensures room { self.new.room + length self.new.written
            ≡ self.old.room + length self.old.written }
    {
        if self.calls.fails(self.room < piece.len()) {
            return Err(SinkFailed);
        }
        let Ok(()) = self.written.extend_from_slice(piece) else {
            unreachable!()
        };
        self.room -= piece.len();
        Ok(piece.len())
    }
}
