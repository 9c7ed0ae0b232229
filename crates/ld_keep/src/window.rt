//! The bytes of a file that were read last.
ghost use Rattle.std.specs.Prelude.{◌≡◌, ◌≤◌, ◌+◌, ◌-◌, [], min, IfOk, IfSome, OnOk, OnErr, length, take, drop, vec_len};
ghost use Rattle.ld_base.specs.Outside.{Rose};
ghost use Rattle.ld_keep.specs.Disk.{IsQuiet};
ghost use Rattle.ld_keep.specs.Window.{WindowState, IsOfFile, Holds, held_at};

use crate::disk::{Disk, DiskFailed};
use ld_base::memory::NoMemory;
use std::alloc::Global;
use std::marker::Model;

/// The most bytes that are read at once. A record and the gate after it have at most 65,542.
const ROOM: usize = 131_072;

/// Bytes of a file from a place on, in a room of fixed size.
#[derive(Drop)]
pub(crate) struct Window {
    start: u64,
    held: usize,
    bytes: Vec<u8>,
}

impl Model for Window {
    ghost Value = { WindowState };

    ghost view = { λ w. record { start = w.start; held = take w.held w.bytes.items } };

    ghost invariant = { λ w. (w.held ≤ 131072) × (vec_len w.bytes ≡ 131072) };
}

impl Window {
    /// Holds nothing yet, and has the whole room.
    ///
    /// # Errors
    /// `NoMemory` where there is no memory for it.
    pub(crate) fn new(alloc: Global) -> Result<Window, NoMemory>
        ensures start { IfOk result (λ w. w.start ≡ 0) }
        ensures held { IfOk result (λ w. w.held ≡ []) }
    {
        let mut bytes = Vec::with_capacity(alloc, ROOM)?;
        bytes.resize(ROOM, 0)?;
        Ok(Window {
            start: 0,
            held: 0,
            bytes,
        })
    }

    /// The `count` bytes from a place on.
    pub(crate) fn part(&self, place: u64, count: usize) -> &[u8]
        requires { Holds self.now place count }
        ensures { result.now ≡ held_at self.now place count }
    {
        let from = (place - self.start) as usize;
        &self.bytes[from..from + count]
    }

    /// Makes sure that `count` bytes from a place on are held. Where they are not, it reads as many
    /// from there on as there is room for, up to the limit.
    ///
    /// # Errors
    /// `DiskFailed` only where the disk's count of faults rose.
    pub(crate) fn hold<D: Disk>(
        &mut self,
        disk: &mut D,
        place: u64,
        count: u64,
        limit: u64,
    ) -> Result<(), DiskFailed>
        requires most { count ≤ 131072 }
        requires within { place + count ≤ limit }
        requires near { Holds self.old place 0 }
        requires there { IfSome (D.model.bytes disk.old) (λ file. limit ≤ length file) }
        requires of_file { IfSome (D.model.bytes disk.old) (IsOfFile self.old) }
        ensures holds { OnOk result (Holds self.new place count) }
        ensures near { Holds self.new place 0 }
        ensures of_file { IfSome (D.model.bytes disk.old) (IsOfFile self.new) }
        ensures quiet { IsQuiet D.model disk.old disk.new }
        ensures tells { D.model.tells_images disk.new ≡ D.model.tells_images disk.old }
        ensures cause { OnErr result (Rose (D.faults disk.old) (D.faults disk.new)) }
        ensures counts { D.faults disk.old ≤ D.faults disk.new }
    {
        if place - self.start + count <= self.held as u64 {
            return Ok(());
        }
        self.read(disk, place, limit)
    }

    /// Reads as many bytes from a place on as there is room for, up to the limit.
    ///
    /// # Errors
    /// As `hold`.
    fn read<D: Disk>(&mut self, disk: &mut D, place: u64, limit: u64) -> Result<(), DiskFailed>
        requires within { place ≤ limit }
        requires there { IfSome (D.model.bytes disk.old) (λ file. limit ≤ length file) }
        ensures start { self.new.start ≡ place }
        ensures held { OnOk result (length self.new.held ≡ min 131072 (limit - place)) }
        ensures of_file { IfSome (D.model.bytes disk.old) (IsOfFile self.new) }
        ensures quiet { IsQuiet D.model disk.old disk.new }
        ensures tells { D.model.tells_images disk.new ≡ D.model.tells_images disk.old }
        ensures cause { OnErr result (Rose (D.faults disk.old) (D.faults disk.new)) }
        ensures counts { D.faults disk.old ≤ D.faults disk.new }
    {
        let count = (limit - place).min(ROOM as u64) as usize;
        self.start = place;
        // a read that fails may leave any bytes there
        self.held = 0;
        read_front(&mut self.bytes, count, disk, place)?;
        self.held = count;
        Ok(())
    }
}

/// Reads `count` bytes from a place on to the front of the room.
///
/// # Errors
/// `DiskFailed` only where the disk's count of faults rose.
fn read_front<D: Disk>(
    room: &mut Vec<u8>,
    count: usize,
    disk: &mut D,
    at: u64,
) -> Result<(), DiskFailed>
    requires count { count ≤ vec_len room.old }
    requires there { IfSome (D.model.bytes disk.old) (λ bytes. at + count ≤ length bytes) }
    ensures room { vec_len room.new ≡ vec_len room.old }
    ensures bytes { OnOk result (IfSome (D.model.bytes disk.old)
        (λ bytes. take count room.new.items ≡ take count (drop at bytes))) }
    ensures quiet { IsQuiet D.model disk.old disk.new }
    ensures tells { D.model.tells_images disk.new ≡ D.model.tells_images disk.old }
    ensures cause { OnErr result (Rose (D.faults disk.old) (D.faults disk.new)) }
    ensures counts { D.faults disk.old ≤ D.faults disk.new }
{
    read_front_of(room.as_mut_slice(), count, disk, at)
}

/// The same of a slice.
fn read_front_of<D: Disk>(
    room: &mut [u8],
    count: usize,
    disk: &mut D,
    at: u64,
) -> Result<(), DiskFailed>
    requires count { count ≤ length room.old }
    requires there { IfSome (D.model.bytes disk.old) (λ bytes. at + count ≤ length bytes) }
    ensures bytes { OnOk result (IfSome (D.model.bytes disk.old)
        (λ bytes. take count room.new ≡ take count (drop at bytes))) }
    ensures quiet { IsQuiet D.model disk.old disk.new }
    ensures tells { D.model.tells_images disk.new ≡ D.model.tells_images disk.old }
    ensures cause { OnErr result (Rose (D.faults disk.old) (D.faults disk.new)) }
    ensures counts { D.faults disk.old ≤ D.faults disk.new }
{
    disk.read(at, &mut room[..count])
}
