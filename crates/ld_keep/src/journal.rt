//! A journal that is open for more lines.
ghost use Rattle.std.specs.Prelude.{◌≡◌, ◌≤◌, ◌<◌, ◌+◌, ◌^◌, ◌↔◌, ℕ, OnOk, OnErr, IfSome, IsErrOf, length, vec_capacity, option_map};
ghost use Rattle.ld_base.specs.Outside.{Rose};
ghost use Rattle.ld_keep.specs.Disk.{OnHonest, IsSettled, LeavesOnly};
ghost use Rattle.ld_keep.specs.Kept.{kept_lines, entry_of, KeepsOrAdds};
ghost use Rattle.ld_keep.specs.Journal.{IsAtRest, kept_on, then_line, with_line};

use crate::disk::{Disk, DiskFailed};
use crate::put::put;
use crate::walk::REACH;
use std::marker::Model;
use thiserror::Error;

/// The most bytes that are written after the last gate: a length, a line and a gate.
pub(crate) const ENTRY_ROOM: usize = 65_541;

/// Why a line is not kept.
#[derive(Clone, Copy, Debug, PartialEq, Eq, Error)]
pub enum KeepFault {
    #[error("the disk failed")]
    DiskFault,
    #[error("the journal is full")]
    Full,
}

/// A journal that is open for more lines. Contracts see the place of its last gate.
#[derive(Drop)]
pub struct Journal {
    place: u64,
    entry: Vec<u8>,
}

impl Model for Journal {
    ghost Value = { ℕ };

    ghost view = { λ j. j.place };

    ghost invariant = { λ j. (j.place < 2 ^ 40) × (65541 ≤ vec_capacity j.entry) };
}

impl Journal {
    /// A journal with its last gate at this place, and room for what is written after it.
    pub(crate) fn at(place: u64, entry: Vec<u8>) -> Journal
        requires place { place < 2 ^ 40 }
        requires room { 65541 ≤ vec_capacity entry }
        ensures { result ≡ place }
    {
        Journal { place, entry }
    }

    /// Keeps one more line. Once it answers Ok, each image that a crash may leave has the line; a
    /// crash at any moment of the call leaves the lines from before it, with this one or without.
    /// Takes no memory. The disk is as the call before left it.
    ///
    /// # Errors
    /// `DiskFault` only where the disk's count of faults rose. The disk is opened again then. `Full`
    /// exactly where the next gate would end past byte 2^40; nothing changed then.
    pub fn keep<D: Disk>(&mut self, disk: &mut D, line: &[u8]) -> Result<(), KeepFault>
        requires some { 1 ≤ length line.now }
        requires most { length line.now ≤ 65536 }
        requires at_rest { IfSome (D.model.bytes disk.old) (IsAtRest self.old) }
        requires settled { IsSettled D.model disk.old }
        ensures at_rest { OnOk result (IfSome (D.model.bytes disk.new) (IsAtRest self.new)) }
        ensures settled { OnOk result (IsSettled D.model disk.new) }
        ensures kept { OnOk result (kept_on (D.model.bytes disk.new)
            ≡ then_line (kept_on (D.model.bytes disk.old)) line.now) }
        ensures bytes { OnOk result (D.model.bytes disk.new
            ≡ option_map (with_line self.old line.now) (D.model.bytes disk.old)) }
        ensures place { OnOk result (self.new ≡ self.old + 5 + length line.now) }
        ensures any_moment { OnHonest D.model disk.old (λ file. LeavesOnly D.model disk.old disk.new
            (KeepsOrAdds (kept_lines file) line.now)) }
        ensures full { IsErrOf result KeepFault.Full
            ↔ (2 ^ 40 < self.old + 6 + length line.now) }
        ensures full_disk { IsErrOf result KeepFault.Full → disk.new ≡ disk.old }
        ensures full_journal { IsErrOf result KeepFault.Full → self.new ≡ self.old }
        ensures tells { D.model.tells_images disk.new ≡ D.model.tells_images disk.old }
        ensures cause { IsErrOf result KeepFault.DiskFault
            → Rose (D.faults disk.old) (D.faults disk.new) }
        ensures counts { D.faults disk.old ≤ D.faults disk.new }
    {
        let length = line.len() as u64;
        if REACH - self.place < length + 6 {
            return Err(KeepFault::Full);
        }
        let Ok(()) = keep_after(disk, self.place, &mut self.entry, line) else {
            return Err(KeepFault::DiskFault);
        };
        self.place += length + 5;
        Ok(())
    }
}

/// Writes the entry of the line after the closed gate at the place, syncs, opens the gate, and
/// syncs. Until the gate is open the entry is no record, whatever a crash leaves of it.
///
/// # Errors
/// `DiskFailed` only where the disk's count of faults rose.
fn keep_after<D: Disk>(
    disk: &mut D,
    place: u64,
    entry: &mut Vec<u8>,
    line: &[u8],
) -> Result<(), DiskFailed>
    requires some { 1 ≤ length line.now }
    requires most { length line.now ≤ 65536 }
    requires room { 65541 ≤ vec_capacity entry.old }
    requires fits { place + 6 + length line.now ≤ 2 ^ 40 }
    requires at_rest { IfSome (D.model.bytes disk.old) (IsAtRest place) }
    requires settled { IsSettled D.model disk.old }
    ensures room { 65541 ≤ vec_capacity entry.new }
    ensures at_rest { OnOk result
        (IfSome (D.model.bytes disk.new) (IsAtRest (place + 5 + length line.now))) }
    ensures settled { OnOk result (IsSettled D.model disk.new) }
    ensures kept { OnOk result (kept_on (D.model.bytes disk.new)
        ≡ then_line (kept_on (D.model.bytes disk.old)) line.now) }
    ensures bytes { OnOk result (D.model.bytes disk.new
        ≡ option_map (with_line place line.now) (D.model.bytes disk.old)) }
    ensures any_moment { OnHonest D.model disk.old (λ file. LeavesOnly D.model disk.old disk.new
        (KeepsOrAdds (kept_lines file) line.now)) }
    ensures tells { D.model.tells_images disk.new ≡ D.model.tells_images disk.old }
    ensures cause { OnErr result (Rose (D.faults disk.old) (D.faults disk.new)) }
    ensures counts { D.faults disk.old ≤ D.faults disk.new }
{
    write_entry(entry, line);
    put(disk, place + 1, entry.as_slice())?;
    put(disk, place, &[1])
}

/// Puts the entry of the line in place of what stands there: its length, the line, and a closed
/// gate.
fn write_entry(entry: &mut Vec<u8>, line: &[u8])
    requires most { length line.now ≤ 65536 }
    requires room { 65541 ≤ vec_capacity entry.old }
    ensures entry { entry.new.items ≡ entry_of line.now }
    ensures room { 65541 ≤ vec_capacity entry.new }
{
    entry.clear();
    let length = (line.len() as u32).to_be_bytes();
    let Ok(()) = entry.extend_from_slice(&length) else {
        unreachable!()
    };
    let Ok(()) = entry.extend_from_slice(line) else {
        unreachable!()
    };
    let Ok(()) = entry.push(0) else {
        unreachable!()
    };
}
