//! A walk over the records of a file.
ghost use Rattle.std.specs.Prelude.{◌≡◌, ◌≤◌, ◌<◌, ◌+◌, ◌^◌, min, false, IfOk, IfSome, OnErr};
ghost use Rattle.ld_base.specs.Outside.{Rose};
ghost use Rattle.ld_keep.specs.Disk.{IsQuiet};
ghost use Rattle.ld_keep.specs.Opening.{OpeningState, IsAtGate, HandsOut};
ghost use Rattle.ld_keep.specs.Next.{answer_of_step, held_before};
ghost use Rattle.ld_keep.specs.Window.{Holds};

use crate::disk::{Disk, DiskFailed};
use crate::gates::record_at;
use crate::window::Window;
use std::marker::Model;

/// The most bytes of a file that may hold records: 2^40.
pub(crate) const REACH: u64 = 1_099_511_627_776;

/// The gate that is looked at next, and the bytes that were read last.
#[derive(Drop)]
pub(crate) struct Walk {
    place: u64,
    limit: u64,
    ended: bool,
    window: Window,
}

impl Model for Walk {
    ghost Value = { OpeningState };

    ghost view = { λ w. record {
      place = w.place;
      limit = w.limit;
      ended = w.ended;
      window = w.window;
    } };

    ghost invariant = { λ w. (w.place ≤ w.limit) × (w.place < 2 ^ 40) × (w.limit ≤ 2 ^ 40)
        × Holds w.window w.place 0 };
}

impl Walk {
    /// At the first gate of a file of this size, with the window at its start.
    pub(crate) fn new(window: Window, size: u64) -> Walk
        requires { window.start ≡ 0 }
        ensures { result ≡ record {
          place = 0;
          limit = min size (2 ^ 40);
          ended = false;
          window = window;
        } }
    {
        Walk {
            place: 0,
            limit: size.min(REACH),
            ended: false,
            window,
        }
    }

    /// The place of the gate that is looked at next.
    pub(crate) fn place(&self) -> u64
        ensures place { result ≡ self.now.place }
        ensures within { result ≤ self.now.limit }
        ensures below { result < 2 ^ 40 }
    {
        self.place
    }

    /// How many bytes of the file may hold records.
    pub(crate) fn limit(&self) -> u64
        ensures limit { result ≡ self.now.limit }
        ensures within { result ≤ 2 ^ 40 }
    {
        self.limit
    }

    /// The line of this length that was passed last.
    pub(crate) fn line(&self, count: usize) -> &[u8]
        requires { self.now.window.start + count ≤ self.now.place }
        ensures { result.now ≡ held_before self.now count }
    {
        self.window.part(self.place - count as u64, count)
    }

    /// Passes the record here, if one stands here, and gives the length of its line.
    ///
    /// # Errors
    /// `DiskFailed` only where the disk's count of faults rose.
    pub(crate) fn advance<D: Disk>(&mut self, disk: &mut D) -> Result<Option<usize>, DiskFailed>
        requires { IfSome (D.model.bytes disk.old) (IsAtGate self.old) }
        ensures hands_out { HandsOut self.old (D.model.bytes disk.old)
            (answer_of_step self.new result) self.new }
        ensures held { IfOk result (λ found. IfSome found
            (λ n. self.new.window.start + n ≤ self.new.place)) }
        ensures quiet { IsQuiet D.model disk.old disk.new }
        ensures tells { D.model.tells_images disk.new ≡ D.model.tells_images disk.old }
        ensures cause { OnErr result (Rose (D.faults disk.old) (D.faults disk.new)) }
        ensures counts { D.faults disk.old ≤ D.faults disk.new }
    {
        let Some(length) = record_at(&mut self.window, disk, self.place, self.limit)? else {
            self.ended = true;
            return Ok(None);
        };
        let length = length as usize;
        let count = length as u64 + 5;
        self.window.hold(disk, self.place, count, self.limit)?;
        self.place += count;
        Ok(Some(length))
    }
}
