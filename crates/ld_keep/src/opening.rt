//! The opening of a journal: its lines one after the other, and then its end made ready for more.
ghost use Rattle.std.specs.Prelude.{◌≡◌, ◌≤◌, ◌<◌, ◌+◌, ◌-◌, ◌^◌, ◌≢◌, [], ◌∷◌, OnOk, OnErr, IfOk, IfSome, length, option_map, vec_capacity};
ghost use Rattle.ld_base.specs.Outside.{Rose};
ghost use Rattle.ld_keep.specs.Disk.{OnHonest, IsSettled, LeavesOnly, overwritten};
ghost use Rattle.ld_keep.specs.Kept.{reach, kept_lines, last_gate};
ghost use Rattle.ld_keep.specs.Opening.{OpeningState, HasLastGate, IsHarmless, with_closed_gate};
ghost use Rattle.ld_keep.specs.Journal.{IsAtRest, kept_on};

use crate::disk::{Disk, DiskFailed};
use crate::gates::gate_at;
use crate::journal::{ENTRY_ROOM, Journal};
use crate::put::put;
use crate::walk::Walk;
use crate::window::Window;
use std::alloc::Global;
use std::marker::Model;
use thiserror::Error;

/// Why a journal is not opened.
#[derive(Clone, Copy, Debug, PartialEq, Eq, Error)]
pub enum OpenFault {
    #[error("the disk failed")]
    DiskFault,
    #[error("out of memory")]
    NoMemory,
}

/// A journal whose lines are read. Contracts see the place of the gate that is looked at next, and
/// the bytes of the file that are held.
#[derive(Drop)]
pub struct Opening {
    walk: Walk,
    entry: Vec<u8>,
}

impl Model for Opening {
    ghost Value = { OpeningState };

    ghost view = { λ o. o.walk };

    ghost invariant = { λ o. 65541 ≤ vec_capacity o.entry };
}

impl Opening {
    ghost use Rattle.std.specs.Prelude.{◌≡◌, ◌≤◌, ◌<◌, ◌^◌, false, option_map, IsTrue, IfOk, IfSome, OnOk, OnErr, IsErrOf};
    ghost use Rattle.std.specs.Borrow.{sem};
    ghost use Rattle.ld_base.specs.Outside.{Rose};
    ghost use Rattle.ld_keep.specs.Disk.{OnHonest, IsSettled, LeavesOnly, IsQuiet};
    ghost use Rattle.ld_keep.specs.Kept.{kept_lines, last_gate, lines_from};
    ghost use Rattle.ld_keep.specs.Opening.{IsAtGate, HandsOut, with_closed_gate};
    ghost use Rattle.ld_keep.specs.Next.{answer_of_next};
    ghost use Rattle.ld_keep.specs.Journal.{IsAtRest, kept_on};
    ghost use Rattle.ld_keep.specs.Loan.{LendsLine};

    /// Begins to open the journal of a disk: takes all memory that the opening and the journal will
    /// need, and syncs the disk, as the last that it does.
    ///
    /// # Errors
    /// `DiskFault` only where the disk's count of faults rose.
    pub fn start<D: Disk>(alloc: Global, disk: &mut D) -> Result<Opening, OpenFault>
        ensures place { IfOk result (λ o. o.place ≡ 0) }
        ensures ended { IfOk result (λ o. o.ended ≡ false) }
        ensures reach { IfOk result (λ o. o.limit ≤ 2 ^ 40) }
        ensures at_gate { IfOk result (λ o. IfSome (D.model.bytes disk.new) (IsAtGate o)) }
        ensures lines { IfOk result (λ o. IfSome (D.model.bytes disk.new)
            (λ file. lines_from o.place file ≡ kept_lines file)) }
        ensures settled { OnOk result (IsSettled D.model disk.new) }
        ensures bytes { D.model.bytes disk.new ≡ D.model.bytes disk.old }
        ensures any_moment { LeavesOnly D.model disk.old disk.new (D.model.may_leave disk.old) }
        ensures tells { D.model.tells_images disk.new ≡ D.model.tells_images disk.old }
        ensures cause { IsErrOf result OpenFault.DiskFault
            → Rose (D.faults disk.old) (D.faults disk.new) }
        ensures counts { D.faults disk.old ≤ D.faults disk.new }
    {
        let Ok(window) = Window::new(alloc) else {
            return Err(OpenFault::NoMemory);
        };
        let Ok(entry) = Vec::with_capacity(alloc, ENTRY_ROOM) else {
            return Err(OpenFault::NoMemory);
        };
        let Ok(size) = synced_size(disk) else {
            return Err(OpenFault::DiskFault);
        };
        let walk = Walk::new(window, size);
        Ok(Opening { walk, entry })
    }

    /// The next line that the file keeps; None exactly after the last one. Takes no memory. The disk
    /// is as the call before left it.
    ///
    /// # Errors
    /// `DiskFailed` only where the disk's count of faults rose. The same call may be made again.
    pub fn next<D: Disk>(&mut self, disk: &mut D) -> Result<Option<&[u8]>, DiskFailed>
        requires { IfSome (D.model.bytes disk.old) (IsAtGate self.old) }
        ensures* hands_out { sem 𝓛 (LendsLine self.entry (λ new.
            HandsOut self.old (D.model.bytes disk.old) (answer_of_next result) new)) }
        ensures quiet { IsQuiet D.model disk.old disk.new }
        ensures tells { D.model.tells_images disk.new ≡ D.model.tells_images disk.old }
        ensures cause { OnErr result (Rose (D.faults disk.old) (D.faults disk.new)) }
        ensures counts { D.faults disk.old ≤ D.faults disk.new }
    {
        match self.walk.advance(disk)? {
            Some(length) => Ok(Some(self.walk.line(length))),
            None => Ok(None),
        }
    }

    /// Makes the end of the file ready for more lines, once `next` gave None: after the last line
    /// stands a closed gate then. A crash at any moment of the call leaves the lines as they were.
    /// Takes no memory. The disk is as the call before left it.
    ///
    /// # Errors
    /// `DiskFailed` only where the disk's count of faults rose. The disk is opened again then.
    pub fn finish<D: Disk>(self, disk: &mut D) -> Result<Journal, DiskFailed>
        requires ended { IsTrue self.ended }
        requires at_gate { IfSome (D.model.bytes disk.old) (IsAtGate self) }
        requires settled { IsSettled D.model disk.old }
        ensures at_rest { IfOk result (λ journal. IfSome (D.model.bytes disk.new) (IsAtRest journal)) }
        ensures settled { OnOk result (IsSettled D.model disk.new) }
        ensures kept { OnOk result
            (kept_on (D.model.bytes disk.new) ≡ kept_on (D.model.bytes disk.old)) }
        ensures bytes { OnOk result (D.model.bytes disk.new
            ≡ option_map with_closed_gate (D.model.bytes disk.old)) }
        ensures place { IfOk result (λ journal. journal ≡ self.place) }
        ensures gate { IfOk result (λ journal. IfSome (D.model.bytes disk.old)
            (λ file. last_gate file ≡ journal)) }
        ensures below { IfOk result (λ journal. journal < 2 ^ 40) }
        ensures any_moment { OnHonest D.model disk.old (λ file. LeavesOnly D.model disk.old disk.new
            (λ image. kept_lines image ≡ kept_lines file)) }
        ensures tells { D.model.tells_images disk.new ≡ D.model.tells_images disk.old }
        ensures cause { OnErr result (Rose (D.faults disk.old) (D.faults disk.new)) }
        ensures counts { D.faults disk.old ≤ D.faults disk.new }
    {
        let Opening { walk, entry } = self;
        let place = walk.place();
        close_gate(disk, place, walk.limit())?;
        Ok(Journal::at(place, entry))
    }
}

/// Syncs the disk, at last, and gives its size.
///
/// # Errors
/// `DiskFailed` only where the disk's count of faults rose.
fn synced_size<D: Disk>(disk: &mut D) -> Result<u64, DiskFailed>
    ensures size { IfOk result (λ n. IfSome (D.model.bytes disk.old) (λ bytes. n ≡ length bytes)) }
    ensures settled { OnOk result (IsSettled D.model disk.new) }
    ensures bytes { D.model.bytes disk.new ≡ D.model.bytes disk.old }
    ensures any_moment { LeavesOnly D.model disk.old disk.new (D.model.may_leave disk.old) }
    ensures tells { D.model.tells_images disk.new ≡ D.model.tells_images disk.old }
    ensures cause { OnErr result (Rose (D.faults disk.old) (D.faults disk.new)) }
    ensures counts { D.faults disk.old ≤ D.faults disk.new }
{
    let size = disk.size()?;
    disk.sync()?;
    Ok(size)
}

/// Closes the last gate of the file, which stands at the place, where it is not closed. First it
/// clears the length after a gate that is neither closed nor open: while the gate is written it may
/// be torn open, and what stands after it would count.
///
/// # Errors
/// `DiskFailed` only where the disk's count of faults rose.
fn close_gate<D: Disk>(disk: &mut D, place: u64, limit: u64) -> Result<(), DiskFailed>
    requires within { place ≤ limit }
    requires below { place < 2 ^ 40 }
    requires least { limit ≤ 2 ^ 40 }
    requires limit { IfSome (D.model.bytes disk.old) (λ file. limit ≡ length (reach file)) }
    requires gate { IfSome (D.model.bytes disk.old) (λ file. last_gate file ≡ place) }
    requires settled { IsSettled D.model disk.old }
    ensures at_rest { OnOk result (IfSome (D.model.bytes disk.new) (IsAtRest place)) }
    ensures settled { OnOk result (IsSettled D.model disk.new) }
    ensures kept { OnOk result
        (kept_on (D.model.bytes disk.new) ≡ kept_on (D.model.bytes disk.old)) }
    ensures bytes { OnOk result
        (D.model.bytes disk.new ≡ option_map with_closed_gate (D.model.bytes disk.old)) }
    ensures any_moment { OnHonest D.model disk.old (λ file. LeavesOnly D.model disk.old disk.new
        (λ image. kept_lines image ≡ kept_lines file)) }
    ensures tells { D.model.tells_images disk.new ≡ D.model.tells_images disk.old }
    ensures cause { OnErr result (Rose (D.faults disk.old) (D.faults disk.new)) }
    ensures counts { D.faults disk.old ≤ D.faults disk.new }
{
    if place == limit {
        return put_gate(disk, place);
    }
    let gate = gate_at(disk, place)?;
    if gate == 0 {
        return Ok(());
    }
    close_other(disk, place, limit, gate)
}

/// Closes the last gate, which is this one and is not closed.
///
/// # Errors
/// `DiskFailed` only where the disk's count of faults rose.
fn close_other<D: Disk>(disk: &mut D, place: u64, limit: u64, gate: u8) -> Result<(), DiskFailed>
    requires within { place ≤ limit }
    requires other { gate ≢ 0 }
    requires below { place < 2 ^ 40 }
    requires least { limit ≤ 2 ^ 40 }
    requires limit { IfSome (D.model.bytes disk.old) (λ file. limit ≡ length (reach file)) }
    requires gate { IfSome (D.model.bytes disk.old) (HasLastGate place gate) }
    requires settled { IsSettled D.model disk.old }
    ensures at_rest { OnOk result (IfSome (D.model.bytes disk.new) (IsAtRest place)) }
    ensures settled { OnOk result (IsSettled D.model disk.new) }
    ensures kept { OnOk result
        (kept_on (D.model.bytes disk.new) ≡ kept_on (D.model.bytes disk.old)) }
    ensures bytes { OnOk result
        (D.model.bytes disk.new ≡ option_map with_closed_gate (D.model.bytes disk.old)) }
    ensures any_moment { OnHonest D.model disk.old (λ file. LeavesOnly D.model disk.old disk.new
        (λ image. kept_lines image ≡ kept_lines file)) }
    ensures tells { D.model.tells_images disk.new ≡ D.model.tells_images disk.old }
    ensures cause { OnErr result (Rose (D.faults disk.old) (D.faults disk.new)) }
    ensures counts { D.faults disk.old ≤ D.faults disk.new }
{
    if gate == 1 {
        return put_gate(disk, place);
    }
    if limit - place < 5 {
        return put_gate(disk, place);
    }
    clear_length(disk, place, gate)?;
    put_gate(disk, place)
}

/// Clears the length after a last gate that is not open.
///
/// # Errors
/// `DiskFailed` only where the disk's count of faults rose.
fn clear_length<D: Disk>(disk: &mut D, place: u64, gate: u8) -> Result<(), DiskFailed>
    requires room { place + 5 ≤ 2 ^ 40 }
    requires other { gate ≢ 1 }
    requires gate { IfSome (D.model.bytes disk.old) (HasLastGate place gate) }
    requires settled { IsSettled D.model disk.old }
    ensures harmless { OnOk result (IfSome (D.model.bytes disk.new) (IsHarmless place)) }
    ensures settled { OnOk result (IsSettled D.model disk.new) }
    ensures kept { OnOk result
        (kept_on (D.model.bytes disk.new) ≡ kept_on (D.model.bytes disk.old)) }
    ensures bytes { OnOk result
        (D.model.bytes disk.new ≡ option_map (overwritten (place + 1) (0 ∷ 0 ∷ 0 ∷ 0 ∷ [])) (D.model.bytes disk.old)) }
    ensures any_moment { OnHonest D.model disk.old (λ file. LeavesOnly D.model disk.old disk.new
        (λ image. kept_lines image ≡ kept_lines file)) }
    ensures tells { D.model.tells_images disk.new ≡ D.model.tells_images disk.old }
    ensures cause { OnErr result (Rose (D.faults disk.old) (D.faults disk.new)) }
    ensures counts { D.faults disk.old ≤ D.faults disk.new }
{
    put(disk, place + 1, &[0; 4])
}

/// Closes the last gate of the file, where none that is torn in its place opens a record.
///
/// # Errors
/// `DiskFailed` only where the disk's count of faults rose.
fn put_gate<D: Disk>(disk: &mut D, place: u64) -> Result<(), DiskFailed>
    requires below { place < 2 ^ 40 }
    requires harmless { IfSome (D.model.bytes disk.old) (IsHarmless place) }
    requires settled { IsSettled D.model disk.old }
    ensures at_rest { OnOk result (IfSome (D.model.bytes disk.new) (IsAtRest place)) }
    ensures settled { OnOk result (IsSettled D.model disk.new) }
    ensures kept { OnOk result
        (kept_on (D.model.bytes disk.new) ≡ kept_on (D.model.bytes disk.old)) }
    ensures bytes { OnOk result
        (D.model.bytes disk.new ≡ option_map (overwritten place (0 ∷ [])) (D.model.bytes disk.old)) }
    ensures any_moment { OnHonest D.model disk.old (λ file. LeavesOnly D.model disk.old disk.new
        (λ image. kept_lines image ≡ kept_lines file)) }
    ensures tells { D.model.tells_images disk.new ≡ D.model.tells_images disk.old }
    ensures cause { OnErr result (Rose (D.faults disk.old) (D.faults disk.new)) }
    ensures counts { D.faults disk.old ≤ D.faults disk.new }
{
    put(disk, place, &[0])
}
