//! Bytes that were taken from a source and wait in a room of fixed size.
ghost use Rattle.std.specs.Prelude.{◌≡◌, ◌≤◌, ◌<◌, ◌+◌, ◌-◌, [], IfOk, OnErr, length, take, drop, slice_range, vec_len};
ghost use Rattle.ld_base.specs.Outside.{Rose};
ghost use Rattle.ld_lines.specs.Reading.{IsEnd};
ghost use Rattle.ld_lines.specs.Window.{Window, Fills, TakesInto};

use ld_base::{NoMemory, Source, SourceFailed};
use std::alloc::Global;
use std::marker::Model;

/// The most bytes that one take asks for.
const TAKE_LIMIT: usize = 65_536;

/// Room for the longest line and the bytes of one take behind it.
const ROOM: usize = 131_072;

/// Bytes in the order in which they were taken: the line that was cut off last, and those behind
/// it.
#[derive(Drop)]
pub(crate) struct Buffer {
    bytes: Vec<u8>,
    line_start: usize,
    line_end: usize,
    start: usize,
    end: usize,
}

impl Model for Buffer {
    ghost Value = { Window };

    ghost view = { λ b. record {
      line = slice_range b.bytes.items b.line_start b.line_end;
      held = slice_range b.bytes.items b.start b.end;
    } };

    ghost invariant = { λ b. (b.line_start ≤ b.line_end) × (b.line_end ≤ b.end) × (b.start ≤ b.end)
        × (b.end ≤ 131072) × (vec_len b.bytes ≡ 131072) };
}

impl Buffer {
    /// An empty buffer with its whole room.
    pub(crate) fn new(alloc: Global) -> Result<Buffer, NoMemory>
        ensures { IfOk result (λ b. b.held ≡ []) }
    {
        let mut bytes = Vec::with_capacity(alloc, ROOM)?;
        bytes.resize(ROOM, 0)?;
        Ok(Buffer {
            bytes,
            line_start: 0,
            line_end: 0,
            start: 0,
            end: 0,
        })
    }

    /// The line that was cut off last. A fill loses it.
    pub(crate) fn line(&self) -> &[u8]
        ensures { result.now ≡ self.now.line }
    {
        &self.bytes[self.line_start..self.line_end]
    }

    /// The bytes behind the line.
    pub(crate) fn held(&self) -> &[u8]
        ensures { result.now ≡ self.now.held }
    {
        &self.bytes[self.start..self.end]
    }

    /// Cuts off the first `at` bytes as a line, and passes the byte behind them.
    pub(crate) fn cut(&mut self, at: usize)
        requires { at < length self.old.held }
        ensures line { self.new.line ≡ take at self.old.held }
        ensures held { self.new.held ≡ drop (at + 1) self.old.held }
    {
        self.line_start = self.start;
        self.line_end = self.start + at;
        self.start = self.line_end + 1;
    }

    /// Cuts off all bytes as a line.
    pub(crate) fn cut_all(&mut self)
        ensures line { self.new.line ≡ self.old.held }
        ensures held { self.new.held ≡ [] }
    {
        self.line_start = self.start;
        self.line_end = self.end;
        self.start = self.end;
    }

    /// Lets all bytes go.
    pub(crate) fn clear(&mut self)
        ensures { self.new.held ≡ [] }
    {
        self.line_start = 0;
        self.line_end = 0;
        self.start = 0;
        self.end = 0;
    }

    /// Takes at most `most` bytes behind those that are held, and gives their number. 0 means that
    /// the source has no byte left.
    ///
    /// # Errors
    /// `SourceFailed` only where the source's count of faults rose. The bytes stay as they were.
    pub(crate) fn fill<S: Source>(
        &mut self,
        source: &mut S,
        most: usize,
    ) -> Result<usize, SourceFailed>
        requires some { 0 < most }
        requires room { length self.old.held ≤ 65536 }
        ensures within { IfOk result (λ n. n ≤ most) }
        ensures bytes { IfOk result
            (λ n. Fills self.old.held (S.left source.old) n self.new.held (S.left source.new)) }
        ensures end { IfOk result (λ n. n ≡ 0 → IsEnd (S.left source.new)) }
        ensures err { OnErr result
            ((self.new.held ≡ self.old.held) × (S.left source.new ≡ S.left source.old)) }
        ensures cause { OnErr result (Rose (S.faults source.old) (S.faults source.new)) }
        ensures counts { S.faults source.old ≤ S.faults source.new }
    {
        let length = self.end - self.start;
        self.line_start = 0;
        self.line_end = 0;
        self.start = make_room(&mut self.bytes, self.start, self.end);
        self.end = self.start + length;
        let stop = self.end + most.min(TAKE_LIMIT);
        let count = take_into(&mut self.bytes, self.end, stop, source)?;
        self.end += count;
        Ok(count)
    }
}

/// Moves `bytes[start..end]` to the front where the room behind it is short, and gives where it
/// starts from then on.
fn make_room(bytes: &mut Vec<u8>, start: usize, end: usize) -> usize
    requires room { vec_len bytes.old ≡ 131072 }
    requires ordered { start ≤ end }
    requires within { end ≤ 131072 }
    requires short { end - start ≤ 65536 }
    ensures room { vec_len bytes.new ≡ 131072 }
    ensures held { slice_range bytes.new.items result (result + (end - start))
        ≡ slice_range bytes.old.items start end }
    ensures free { result + (end - start) ≤ 65536 }
{
    if end <= ROOM - TAKE_LIMIT {
        return start;
    }
    bytes.as_mut_slice().copy_within(start..end, 0);
    0
}

/// Takes bytes into `bytes[start..stop]`, and gives their number.
fn take_into<S: Source>(
    bytes: &mut Vec<u8>,
    start: usize,
    stop: usize,
    source: &mut S,
) -> Result<usize, SourceFailed>
    requires some { start < stop }
    requires within { stop ≤ vec_len bytes.old }
    ensures room { vec_len bytes.new ≡ vec_len bytes.old }
    ensures front { take start bytes.new.items ≡ take start bytes.old.items }
    ensures ok { IfOk result
        (TakesInto start stop (S.left source.old) bytes.new.items (S.left source.new)) }
    ensures err { OnErr result (S.left source.new ≡ S.left source.old) }
    ensures cause { OnErr result (Rose (S.faults source.old) (S.faults source.new)) }
    ensures counts { S.faults source.old ≤ S.faults source.new }
{
    take_within(bytes.as_mut_slice(), start, stop, source)
}

/// The same of a slice.
fn take_within<S: Source>(
    bytes: &mut [u8],
    start: usize,
    stop: usize,
    source: &mut S,
) -> Result<usize, SourceFailed>
    requires some { start < stop }
    requires within { stop ≤ length bytes.old }
    ensures front { take start bytes.new ≡ take start bytes.old }
    ensures ok { IfOk result
        (TakesInto start stop (S.left source.old) bytes.new (S.left source.new)) }
    ensures err { OnErr result (S.left source.new ≡ S.left source.old) }
    ensures cause { OnErr result (Rose (S.faults source.old) (S.faults source.new)) }
    ensures counts { S.faults source.old ≤ S.faults source.new }
{
    source.take(&mut bytes[start..stop])
}
