//! The lines of a source.
ghost use Rattle.ld_lines.specs.Reading.{LinesRead};

use crate::cut::Cut;
use crate::next::Next;
use crate::reader::Reader;
use crate::stop::LineStop;
use ld_base::{NoMemory, Source};
use std::alloc::Global;
use std::marker::Model;

/// The most bytes of a line, its line feed not counted.
pub const LINE_LIMIT: usize = 65_536;

/// The lines of a source, which are handed out one after the other. Contracts see the bytes that
/// were taken and not yet handed out, the number of all bytes that were taken, and whether the
/// source told its end.
#[derive(Drop)]
pub struct Lines {
    reader: Reader,
}

impl Model for Lines {
    ghost Value = { LinesRead };

    ghost view = { λ s. s.reader.reading };
}

impl Lines {
    ghost use Rattle.std.specs.Prelude.{◌≡◌, ◌≢◌, ◌≤◌, ◌^◌, [], true, false, IfOk};
    ghost use Rattle.std.specs.Borrow.{sem};
    ghost use Rattle.ld_base.specs.Outside.{Rose};
    ghost use Rattle.ld_lines.specs.Answer.{HandsOut};
    ghost use Rattle.ld_lines.specs.Lines.{ended_lines_of};
    ghost use Rattle.ld_lines.specs.Next.{answer_of_next};
    ghost use Rattle.ld_lines.specs.Loan.{LendsLine};

    /// The lines of a source of which nothing was taken. Takes all memory that they will need.
    pub fn new(alloc: Global) -> Result<Lines, NoMemory>
        ensures held { IfOk result (λ l. l.held ≡ []) }
        ensures taken { IfOk result (λ l. l.taken ≡ 0) }
        ensures ended { IfOk result (λ l. l.ended ≡ false) }
    {
        let reader = Reader::new(alloc)?;
        Ok(Lines { reader })
    }

    /// The next line of the source: one that a line feed ends, or the last one without. A line of
    /// at most 65,536 bytes that are all spaces, tabs and carriage returns is passed over. Takes no
    /// memory.
    ///
    /// The lines are of one source: each call is given the same. Where a line that a line feed ends
    /// is held already, it is not asked. Once it told its end, it is not
    /// asked again, and every further answer is `End`. The end comes only where fewer than 2^40
    /// bytes were taken.
    ///
    /// # Errors
    /// `ReadFault` only where the source's count of faults rose. `InputTooLong` exactly where 2^40
    /// bytes were taken, no line that a line feed ends is left among them, and the source has not
    /// told its end; nothing is taken from then on. After either the lines are done with: what is
    /// held of the last one may be a part of it.
    pub fn next<S: Source>(&mut self, source: &mut S) -> Result<Next<'_>, LineStop>
        ensures* hands_out { sem 𝓛 (LendsLine self.entry (λ new.
            HandsOut self.old (S.left source.old) (answer_of_next result) new (S.left source.new))) }
        ensures read_fault { result ≡ Err LineStop.ReadFault
            → Rose (S.faults source.old) (S.faults source.new) }
        ensures counts { S.faults source.old ≤ S.faults source.new }
        ensures after_end { self.old.ended ≡ true → source.new ≡ source.old }
        ensures after_limit { self.old.taken ≡ 2 ^ 40 → source.new ≡ source.old }
        ensures unasked { ended_lines_of self.old.held ≢ [] → source.new ≡ source.old }
    {
        match self.reader.advance(source)? {
            Cut::Whole => Ok(Next::Whole(self.reader.line())),
            Cut::Over => Ok(Next::Over),
            Cut::End => Ok(Next::End),
        }
    }

    /// Whether a line that a line feed ends is held already, so that `next` hands it out and asks
    /// nothing of the source.
    pub fn holds_line(&self) -> bool
        ensures yes { result ≡ true → ended_lines_of self.now.held ≢ [] }
        ensures no { result ≡ false → ended_lines_of self.now.held ≡ [] }
    {
        self.reader.holds_line()
    }
}
