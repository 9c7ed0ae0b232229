//! Bytes in memory as a disk.
ghost use Rattle.std.specs.Prelude.{◌≡◌, ◌≤◌, ◌<◌, ◌+◌, ◌-◌, ◌||◌, [], ◌∷◌, ◌++◌, Some, IfOk, OnOk, OnErr, length, take, drop, reverse, is_err, vec_len, vec_capacity, nat_lt, nat_le, option_map, true, false, Ok, IsTrue, ◌^◌};
ghost use Rattle.ld_base.specs.Calls.{next_is_listed};
ghost use Rattle.ld_base.specs.Outside.{Rose};
ghost use Rattle.ld_keep.specs.Disk.{overwritten, Torn, TornTold, TearsImages, AddsNoImage, Only, Elapses, IsQuiet};
ghost use Rattle.ld_keep.specs.Past.{MayBeLeft, bytes_after, image_of_first, replayed};
ghost use Rattle.ld_keep.specs.MemoryState.{MemoryState, memory_model, after_read, after_write, after_sync};
ghost use Rattle.ld_keep.specs.MemoryLaws.{memory_is_lawful};

use crate::buffers::{add_all, add_step, copy_part, overwrite, replace, replay, roomy_copy};
use crate::disk::{Disk, DiskFailed};
use crate::step::Step;
use ld_base::Calls;
use ld_base::bytes::{Bytes, CallList};
use ld_base::memory::NoMemory;
use std::alloc::Global;
use std::marker::Model;

/// A disk that keeps its bytes in memory, with all writes and syncs that it has seen, so that it
/// can be made what a crash would have left. It takes all its memory at first.
#[derive(Drop)]
pub struct MemoryDisk {
    /// What it began with.
    first: Vec<u8>,
    bytes: Vec<u8>,
    steps: Vec<Step>,
    /// The bytes of all writes.
    written: Vec<u8>,
    /// How many of them were written before the last sync.
    synced: usize,
    room: usize,
    spent: usize,
    calls: Calls,
}

impl Model for MemoryDisk {
    ghost use Rattle.ld_keep.specs.MemoryState.{MemoryState};

    ghost Value = { MemoryState };

    ghost use Rattle.ld_keep.specs.Steps.{memory_state, IsWhole};

    ghost view = { memory_state };

    ghost invariant = { IsWhole };
}

impl MemoryDisk {
    /// A disk of these bytes, which are its only image, with room for more writes and syncs. The
    /// calls of these numbers, counted from 1, fail.
    ///
    /// # Errors
    /// `NoMemory` where there is no memory for so much.
    pub fn new(
        alloc: Global,
        bytes: Bytes,
        room: usize,
        failing: CallList,
    ) -> Result<MemoryDisk, NoMemory>
        ensures { IfOk result (λ disk. disk ≡ record {
          first = bytes;
          past = [];
          room = room;
          spent = 0;
          calls = record { failing = failing; made = 0; faults = 0 };
        }) }
    {
        let start = bytes.into_vec();
        let Some(most) = start.len().checked_add(room) else {
            return Err(NoMemory);
        };
        let first = roomy_copy(alloc, start.as_slice(), most)?;
        let bytes = roomy_copy(alloc, start.as_slice(), most)?;
        let steps = Vec::with_capacity(alloc, room)?;
        let written = Vec::with_capacity(alloc, room)?;
        Ok(MemoryDisk {
            first,
            bytes,
            steps,
            written,
            synced: 0,
            room,
            spent: 0,
            calls: Calls::new(failing),
        })
    }

    /// The bytes.
    pub fn bytes(&self) -> &[u8]
        ensures { result.now ≡ bytes_after self.now.first self.now.past }
    {
        self.bytes.as_slice()
    }

    /// A crash that leaves the first `kept` of the bytes that were written since the last sync, and
    /// the rest as before. What it leaves is the only image then.
    pub fn crash(&mut self, kept: usize)
        ensures left { self.new ≡ record self.old {
          first = image_of_first self.old.first self.old.past kept;
          past = [];
        } }
        ensures image { MayBeLeft self.old.first self.old.past self.new.first }
    {
        let limit = self.synced.saturating_add(kept);
        replay(
            &mut self.first,
            self.steps.as_slice(),
            self.written.as_slice(),
            limit,
        );
        replace(&mut self.bytes, self.first.as_slice());
        self.steps.clear();
        self.written.clear();
        self.synced = 0;
    }

    /// Writes, and notes the write.
    fn note_write(&mut self, at: usize, piece: &[u8]) -> Result<(), DiskFailed>
        requires { at ≤ length (bytes_after self.old.first self.old.past) }
        ensures after { self.new ≡ after_write at piece.now (is_err result) self.old }
        ensures fails { is_err result ≡ (next_is_listed self.old.calls
            || nat_lt self.old.room (self.old.spent + (length piece.now + 1))) }
        ensures cause { OnErr result (Rose self.old.calls.faults self.new.calls.faults) }
        ensures counts { self.old.calls.faults ≤ self.new.calls.faults }
    {
        if self.calls.fails(self.room - self.spent <= piece.len()) {
            return Err(DiskFailed);
        }
        overwrite(&mut self.bytes, at, piece);
        add_all(&mut self.written, piece);
        add_step(
            &mut self.steps,
            Step::Write {
                at,
                count: piece.len(),
            },
        );
        self.spent += piece.len() + 1;
        Ok(())
    }

    /// Syncs, and notes the sync.
    fn note_sync(&mut self) -> Result<(), DiskFailed>
        ensures after { self.new ≡ after_sync (is_err result) self.old }
        ensures stands { MayBeLeft self.old.first self.old.past
            (bytes_after self.old.first self.old.past) }
        ensures fails { is_err result ≡ (next_is_listed self.old.calls
            || nat_lt self.old.room (self.old.spent + 1)) }
        ensures cause { OnErr result (Rose self.old.calls.faults self.new.calls.faults) }
        ensures counts { self.old.calls.faults ≤ self.new.calls.faults }
    {
        if self.calls.fails(self.room == self.spent) {
            return Err(DiskFailed);
        }
        add_step(&mut self.steps, Step::Sync);
        self.synced = self.written.len();
        self.spent += 1;
        Ok(())
    }
}

/// It is honest, and needs no more memory. A call fails exactly where its number is listed, or where
/// it is a write or a sync and the room is too small: a write takes its length and one, a sync one.
impl Disk for MemoryDisk {
    ghost model = { memory_model };

    ghost faults = { λ s. s.calls.faults };

    ghost lawful = { memory_is_lawful };

    fn size(&mut self) -> Result<u64, DiskFailed>
        ensures size { IfOk result (λ n. n ≡ length (bytes_after self.old.first self.old.past)) }
        ensures quiet { IsQuiet memory_model self.old self.new }
        ensures tells { true ≡ true }
        ensures cause { OnErr result (Rose self.old.calls.faults self.new.calls.faults) }
        ensures counts { self.old.calls.faults ≤ self.new.calls.faults }
        ensures after { self.new ≡ after_read (is_err result) self.old }
        ensures fails { is_err result ≡ next_is_listed self.old.calls }
    {
        if self.calls.fails(false) {
            return Err(DiskFailed);
        }
        Ok(self.bytes.len() as u64)
    }

    fn read(&mut self, at: u64, into: &mut [u8]) -> Result<(), DiskFailed>
        requires { at + length into.old ≤ length (bytes_after self.old.first self.old.past) }
        ensures bytes { OnOk result (into.new
            ≡ take (length into.old) (drop at (bytes_after self.old.first self.old.past))) }
        ensures quiet { IsQuiet memory_model self.old self.new }
        ensures tells { true ≡ true }
        ensures cause { OnErr result (Rose self.old.calls.faults self.new.calls.faults) }
        ensures counts { self.old.calls.faults ≤ self.new.calls.faults }
        ensures after { self.new ≡ after_read (is_err result) self.old }
        ensures fails { is_err result ≡ next_is_listed self.old.calls }
    {
        if self.calls.fails(false) {
            return Err(DiskFailed);
        }
        copy_part(self.bytes.as_slice(), at as usize, into);
        Ok(())
    }

    fn write(&mut self, at: u64, piece: &[u8]) -> Result<(), DiskFailed>
        requires place { at ≤ length (bytes_after self.old.first self.old.past) }
        requires limit { at + length piece.now ≤ 2 ^ 40 }
        ensures written { OnOk result (Some (bytes_after self.new.first self.new.past)
            ≡ Some (overwritten at piece.now (bytes_after self.old.first self.old.past))) }
        ensures refused { OnErr result (TornTold at (length piece.now)
            (Some (bytes_after self.old.first self.old.past))
            (Some (bytes_after self.new.first self.new.past))) }
        ensures images { TearsImages at (length piece.now)
            (MayBeLeft self.old.first self.old.past) (MayBeLeft self.new.first self.new.past) }
        ensures time { Elapses memory_model self.old self.new }
        ensures tells { true ≡ true }
        ensures cause { OnErr result (Rose self.old.calls.faults self.new.calls.faults) }
        ensures counts { self.old.calls.faults ≤ self.new.calls.faults }
        ensures after { self.new ≡ after_write at piece.now (is_err result) self.old }
        ensures fails { is_err result ≡ (next_is_listed self.old.calls
            || nat_lt self.old.room (self.old.spent + (length piece.now + 1))) }
    {
        self.note_write(at as usize, piece)
    }

    fn sync(&mut self) -> Result<(), DiskFailed>
        ensures bytes { Some (bytes_after self.new.first self.new.past)
            ≡ Some (bytes_after self.old.first self.old.past) }
        ensures synced { OnOk result (IsTrue true
            → Only (MayBeLeft self.new.first self.new.past) (bytes_after self.old.first self.old.past)) }
        ensures images { AddsNoImage
            (MayBeLeft self.old.first self.old.past) (MayBeLeft self.new.first self.new.past) }
        ensures refused { OnErr result (AddsNoImage
            (MayBeLeft self.new.first self.new.past) (MayBeLeft self.old.first self.old.past)) }
        ensures time { Elapses memory_model self.old self.new }
        ensures tells { true ≡ true }
        ensures cause { OnErr result (Rose self.old.calls.faults self.new.calls.faults) }
        ensures counts { self.old.calls.faults ≤ self.new.calls.faults }
        ensures after { self.new ≡ after_sync (is_err result) self.old }
        ensures fails { is_err result ≡ (next_is_listed self.old.calls
            || nat_lt self.old.room (self.old.spent + 1)) }
    {
        self.note_sync()
    }
}
