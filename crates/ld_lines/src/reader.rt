//! The bytes of a source, cut into pieces.
ghost use Rattle.std.specs.Prelude.{◌≡◌, ◌≢◌, ◌≤◌, ◌<◌, ◌+◌, ◌^◌, [], true, false, IfOk, IfErr, OnErr, length, take, drop};
ghost use Rattle.ld_base.specs.Outside.{Rose};
ghost use Rattle.ld_lines.specs.Lines.{HasNoFeed, ended_lines_of, is_blank, is_passed_over};
ghost use Rattle.ld_lines.specs.Reading.{IsEnd};
ghost use Rattle.ld_lines.specs.Answer.{HandsOut};
ghost use Rattle.ld_lines.specs.Cutting.{AsksNothing, Cutting, FeedAt, Fetches, CutsOf, CutsOff, StopsAt, answer_of_cut};
ghost use Rattle.std.specs.List.{list_all};

use crate::buffer::Buffer;
use crate::cut::Cut;
use crate::lines::LINE_LIMIT;
use crate::stop::LineStop;
use ld_base::{NoMemory, Source};
use memchr::memchr;
use std::alloc::Global;
use std::marker::Model;

/// The most bytes that are taken in all: 2^40.
const INPUT_LIMIT: u64 = 1_099_511_627_776;

/// A buffer that is filled from a source, with the number of bytes that were taken.
#[derive(Drop)]
pub(crate) struct Reader {
    buffer: Buffer,
    taken: u64,
    ended: bool,
}

impl Model for Reader {
    ghost Value = { Cutting };

    ghost view = { λ r. record {
      line = r.buffer.line;
      reading = record { held = r.buffer.held; taken = r.taken; ended = r.ended };
    } };

    ghost invariant = { λ r. (r.taken ≤ 2 ^ 40) × (r.ended ≡ true → r.buffer.held ≡ [])
        × (r.ended ≡ true → r.taken < 2 ^ 40) };
}

impl Reader {
    /// A reader that has taken nothing, with the whole room of its buffer.
    pub(crate) fn new(alloc: Global) -> Result<Reader, NoMemory>
        ensures held { IfOk result (λ r. r.reading.held ≡ []) }
        ensures taken { IfOk result (λ r. r.reading.taken ≡ 0) }
        ensures ended { IfOk result (λ r. r.reading.ended ≡ false) }
    {
        let buffer = Buffer::new(alloc)?;
        Ok(Reader {
            buffer,
            taken: 0,
            ended: false,
        })
    }

    /// The piece that was cut off last, if it was whole.
    pub(crate) fn line(&self) -> &[u8]
        ensures { result.now ≡ self.now.line }
    {
        self.buffer.line()
    }

    /// Takes bytes behind those that are held, and gives their number. 0 means that none is left.
    ///
    /// # Errors
    /// `ReadFault` only where the source's count of faults rose, `InputTooLong` where the limit of
    /// all bytes is reached. Nothing is taken then.
    fn fetch<S: Source>(&mut self, source: &mut S) -> Result<usize, LineStop>
        requires not_ended { self.old.reading.ended ≡ false }
        requires room { length self.old.reading.held ≤ 65536 }
        ensures fetches { Fetches self.old.reading (S.left source.old)
            self.new.reading (S.left source.new) }
        ensures count { IfOk result (λ n. self.new.reading.taken ≡ self.old.reading.taken + n) }
        ensures end { IfOk result (λ n. n ≡ 0 → IsEnd (S.left source.new)) }
        ensures below { IfOk result (λ n. n ≡ 0 → self.new.reading.taken < 2 ^ 40) }
        ensures limit { self.new.reading.taken ≤ 2 ^ 40 }
        ensures err { OnErr result (self.new.reading ≡ self.old.reading) }
        ensures read_fault { result ≡ Err LineStop.ReadFault
            → Rose (S.faults source.old) (S.faults source.new) }
        ensures stops { IfErr result (λ stop. StopsAt stop self.new.reading.taken) }
        ensures counts { S.faults source.old ≤ S.faults source.new }
        ensures after_limit { self.old.reading.taken ≡ 2 ^ 40 → source.new ≡ source.old }
    {
        if self.taken >= INPUT_LIMIT {
            return Err(LineStop::InputTooLong);
        }
        let most = (INPUT_LIMIT - self.taken) as usize;
        match self.buffer.fill(source, most) {
            Ok(count) => {
                self.taken += count as u64;
                Ok(count)
            }
            Err(_) => Err(LineStop::ReadFault),
        }
    }

    /// Cuts off the next line, and passes over the blank ones before it. It stands in the buffer as
    /// its line where it is whole.
    ///
    /// # Errors
    /// As `Lines::next`.
    pub(crate) fn advance<S: Source>(&mut self, source: &mut S) -> Result<Cut, LineStop>
        ensures hands_out { HandsOut self.old.reading (S.left source.old)
            (answer_of_cut self.new.line result) self.new.reading (S.left source.new) }
        ensures read_fault { result ≡ Err LineStop.ReadFault
            → Rose (S.faults source.old) (S.faults source.new) }
        ensures counts { S.faults source.old ≤ S.faults source.new }
        ensures after_end { self.old.reading.ended ≡ true → source.new ≡ source.old }
        ensures after_limit { self.old.reading.taken ≡ 2 ^ 40 → source.new ≡ source.old }
        ensures unasked { ended_lines_of self.old.reading.held ≢ [] → source.new ≡ source.old }
    {
        loop {
            match self.next_piece(source)? {
                Cut::Whole => {
                    if !are_blank(self.line()) {
                        return Ok(Cut::Whole);
                    }
                }
                Cut::Over => return Ok(Cut::Over),
                Cut::End => return Ok(Cut::End),
            }
        }
    }

    /// Whether a line that a line feed ends is held.
    pub(crate) fn holds_line(&self) -> bool
        ensures yes { result ≡ true → ended_lines_of self.now.reading.held ≢ [] }
        ensures no { result ≡ false → ended_lines_of self.now.reading.held ≡ [] }
    {
        has_line(self.buffer.held())
    }

    /// Cuts off the first piece: up to its line feed, or to the end of the source.
    ///
    /// # Errors
    /// `ReadFault` only where the source's count of faults rose, `InputTooLong` where the limit of
    /// all bytes is reached. No line feed is among the bytes that are held and were taken then.
    fn next_piece<S: Source>(&mut self, source: &mut S) -> Result<Cut, LineStop>
        ensures cuts { CutsOff self.old.reading (S.left source.old)
            (answer_of_cut self.new.line result) self.new.reading (S.left source.new) }
        ensures limit { self.new.reading.taken ≤ 2 ^ 40 }
        ensures read_fault { result ≡ Err LineStop.ReadFault
            → Rose (S.faults source.old) (S.faults source.new) }
        ensures stops { IfErr result (λ stop. StopsAt stop self.new.reading.taken) }
        ensures counts { S.faults source.old ≤ S.faults source.new }
        ensures after_end { self.old.reading.ended ≡ true → source.new ≡ source.old }
        ensures after_limit { self.old.reading.taken ≡ 2 ^ 40 → source.new ≡ source.old }
        ensures unasked { (HasNoFeed self.old.reading.held → ⊥)
            → AsksNothing self.old.reading source.old self.new.reading source.new }
    {
        if self.ended {
            return Ok(Cut::End);
        }
        let mut seen = 0;
        loop {
            if let Some(at) = self.feed(seen) {
                return Ok(self.cut_first(at));
            }
            seen = self.len();
            if seen > LINE_LIMIT {
                return self.pass_rest(source);
            }
            if self.fetch(source)? == 0 {
                return Ok(self.cut_last());
            }
        }
    }

    /// Passes over the rest of a piece that is longer than a line may be.
    ///
    /// # Errors
    /// As `next_piece`.
    fn pass_rest<S: Source>(&mut self, source: &mut S) -> Result<Cut, LineStop>
        requires not_ended { self.old.reading.ended ≡ false }
        requires clear { HasNoFeed self.old.reading.held }
        requires long { 65536 < length self.old.reading.held }
        ensures cuts { CutsOff self.old.reading (S.left source.old)
            (answer_of_cut self.new.line result) self.new.reading (S.left source.new) }
        ensures limit { self.new.reading.taken ≤ 2 ^ 40 }
        ensures read_fault { result ≡ Err LineStop.ReadFault
            → Rose (S.faults source.old) (S.faults source.new) }
        ensures stops { IfErr result (λ stop. StopsAt stop self.new.reading.taken) }
        ensures counts { S.faults source.old ≤ S.faults source.new }
        ensures after_limit { self.old.reading.taken ≡ 2 ^ 40 → source.new ≡ source.old }
    {
        loop {
            self.clear();
            let count = self.fetch(source)?;
            if count == 0 {
                self.finish();
                return Ok(Cut::Over);
            }
            if let Some(at) = self.feed(0) {
                self.cut(at);
                return Ok(Cut::Over);
            }
        }
    }

    /// Cuts off the first `at` bytes, which a line feed ends.
    fn cut_first(&mut self, at: usize) -> Cut
        requires not_ended { self.old.reading.ended ≡ false }
        requires feed { FeedAt self.old.reading.held (Some at) }
        ensures cuts { CutsOf self.old.reading.held
            (answer_of_cut self.new.line (Ok result)) self.new.reading }
        ensures taken { self.new.reading.taken ≡ self.old.reading.taken }
        ensures not_ended { self.new.reading.ended ≡ false }
    {
        self.cut(at);
        if at > LINE_LIMIT {
            return Cut::Over;
        }
        Cut::Whole
    }

    /// Cuts off what is held, which the end of the source ends.
    fn cut_last(&mut self) -> Cut
        requires clear { HasNoFeed self.old.reading.held }
        requires room { length self.old.reading.held ≤ 65536 }
        requires below { self.old.reading.taken < 2 ^ 40 }
        ensures cuts { CutsOf self.old.reading.held
            (answer_of_cut self.new.line (Ok result)) self.new.reading }
        ensures taken { self.new.reading.taken ≡ self.old.reading.taken }
    {
        let some = self.len() > 0;
        self.finish();
        if some {
            return Cut::Whole;
        }
        Cut::End
    }

    /// The place of the first line feed among the held bytes, whose first `seen` hold none.
    fn feed(&self, seen: usize) -> Option<usize>
        requires clear { HasNoFeed (take seen self.now.reading.held) }
        requires within { seen ≤ length self.now.reading.held }
        ensures { FeedAt self.now.reading.held result }
    {
        find_feed(self.buffer.held(), seen)
    }

    /// The number of bytes that are held.
    fn len(&self) -> usize
        ensures { result ≡ length self.now.reading.held }
    {
        self.buffer.held().len()
    }

    /// Cuts off the first `at` bytes, and passes the byte behind them.
    fn cut(&mut self, at: usize)
        requires { at < length self.old.reading.held }
        ensures line { self.new.line ≡ take at self.old.reading.held }
        ensures held { self.new.reading.held ≡ drop (at + 1) self.old.reading.held }
        ensures taken { self.new.reading.taken ≡ self.old.reading.taken }
        ensures ended { self.new.reading.ended ≡ false }
    {
        self.buffer.cut(at);
    }

    /// Cuts off what is held: the source told its end, below the limit of all bytes.
    fn finish(&mut self)
        requires below { self.old.reading.taken < 2 ^ 40 }
        ensures line { self.new.line ≡ self.old.reading.held }
        ensures held { self.new.reading.held ≡ [] }
        ensures taken { self.new.reading.taken ≡ self.old.reading.taken }
        ensures ended { self.new.reading.ended ≡ true }
    {
        self.buffer.cut_all();
        self.ended = true;
    }

    /// Lets go of what is held.
    fn clear(&mut self)
        ensures held { self.new.reading.held ≡ [] }
        ensures taken { self.new.reading.taken ≡ self.old.reading.taken }
        ensures ended { self.new.reading.ended ≡ self.old.reading.ended }
    {
        self.buffer.clear();
    }
}

/// The place of the first line feed among the bytes, whose first `seen` hold none.
fn find_feed(bytes: &[u8], seen: usize) -> Option<usize>
    requires clear { HasNoFeed (take seen bytes.now) }
    requires within { seen ≤ length bytes.now }
    ensures { FeedAt bytes.now result }
{
    match memchr(b'\n', &bytes[seen..]) {
        Some(at) => Some(seen + at),
        None => None,
    }
}

/// Whether a line that a line feed ends is among the bytes, which may begin with blank ones.
fn has_line(bytes: &[u8]) -> bool
    ensures yes { result ≡ true → ended_lines_of bytes.now ≢ [] }
    ensures no { result ≡ false → ended_lines_of bytes.now ≡ [] }
{
    let mut rest = bytes;
    'pieces: while let Some(at) = find_feed(rest, 0) {
        if !is_passed_over(&rest[..at]) {
            return true;
        }
        rest = &rest[at + 1..];
    }
    false
}

/// Whether the piece is passed over: a blank one that is no longer than a line may be.
fn is_passed_over(piece: &[u8]) -> bool
    ensures { result ≡ is_passed_over piece.now }
{
    piece.len() <= LINE_LIMIT && are_blank(piece)
}

/// Whether the bytes are spaces, tabs and carriage returns alone.
fn are_blank(bytes: &[u8]) -> bool
    ensures { result ≡ list_all is_blank bytes.now }
{
    bytes
        .iter()
        .all(|b| *b == b' ' || *b == b'\t' || *b == b'\r')
}
