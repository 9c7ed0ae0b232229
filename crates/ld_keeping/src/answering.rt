//! One line of the input: it is answered, and kept where it is done.
ghost use Rattle.std.specs.Prelude.{◌≡◌, ◌≢◌, ◌≤◌, ◌<◌, ◌+◌, ◌^◌, [], ℕ, List, IfErr, IfSome, OnOk, Err, Ok, false, length, true};
ghost use Rattle.ld_base.specs.Outside.{Rose};
ghost use Rattle.ld_base.specs.Roomy.{room_of};
ghost use Rattle.ld_keep.specs.Disk.{IsSettled};
ghost use Rattle.ld_keep.specs.Journal.{IsAtRest};
ghost use Rattle.ld_keeping.specs.Journaling.{HasKept, HasKeptBut, size_of_records};
ghost use Rattle.ld_keeping.specs.Turns.{KeepsLine, LineTurn, TakesTurn};
ghost use Rattle.ld_lines.specs.Answer.{Answer, HandsOut};
ghost use Rattle.ld_world.specs.Answers.{line_of};
ghost use Rattle.ld_world.specs.Counting.{CountsTurn};
ghost use Rattle.ld_world.specs.LineWork.{TakesLine, line_steps};
ghost use Rattle.ld_world.specs.WorldView.{world_of};

use ld_base::{Source, Steps, Text};
use ld_keep::{Disk, Journal, KeepFault};
use ld_lines::{LineStop, Lines, Next};
use ld_run::Reply;
use ld_world::World;
use std::alloc::Global;
use std::sync::ledger::Ledger;

/// Why no further line is answered.
#[derive(Clone, Copy)]
pub(crate) enum TurnStop {
    ReadFault,
    InputTooLong,
    DiskFault,
    Full,
}

/// Asks for the next line, answers it into `out`, and keeps it where it is done. True where there
/// was one, false at the end.
pub(crate) fn answer_next<S: Source, D: Disk, L: Ledger>(
    alloc: Global,
    lines: &mut Lines,
    source: &mut S,
    world: &mut World,
    journal: &mut Journal,
    disk: &mut D,
    out: &mut Text,
    steps: &mut Steps<L>,
) -> Result<bool, TurnStop>
    requires room { 128 ≤ room_of out.old }
    requires at_rest { IfSome (D.model.bytes disk.old) (IsAtRest journal.old) }
    requires settled { IsSettled D.model disk.old }
    requires below { journal.old < 2 ^ 40 }
    ensures turn { (answer : Answer) × (done : List (List ℕ))
        × HandsOut lines.old (S.left source.old) answer lines.new (S.left source.new)
        × TakesTurn (λ one. HasKept D.model disk.old disk.new one
        × (journal.new ≡ journal.old + size_of_records one))
        (λ last. HasKeptBut D.model disk.old disk.new [] last)
        (λ n. 2 ^ 40 < journal.old + n)
        (world_of world.old) answer result out.new.bytes done (world_of world.new) }
    ensures work { CountsTurn lines.old (S.left source.old) world.old steps.old out.new.bytes
        lines.new (S.left source.new) world.new steps.new (result ≡ Ok true) (result ≡ Ok false) }
    ensures room { 128 ≤ room_of out.new }
    ensures at_rest { OnOk result (IfSome (D.model.bytes disk.new) (IsAtRest journal.new)) }
    ensures settled { OnOk result (IsSettled D.model disk.new) }
    ensures below { OnOk result (journal.new < 2 ^ 40) }
    ensures tells { D.model.tells_images disk.new ≡ D.model.tells_images disk.old }
    ensures read_fault { result ≡ Err TurnStop.ReadFault
        → Rose (S.faults source.old) (S.faults source.new) }
    ensures disk_fault { result ≡ Err TurnStop.DiskFault
        → Rose (D.faults disk.old) (D.faults disk.new) }
    ensures source_counts { S.faults source.old ≤ S.faults source.new }
    ensures disk_counts { D.faults disk.old ≤ D.faults disk.new }
{
    match lines.next(source) {
        Err(LineStop::ReadFault) => Err(TurnStop::ReadFault),
        Err(LineStop::InputTooLong) => Err(TurnStop::InputTooLong),
        Ok(Next::End) => Ok(false),
        Ok(Next::Over) => {
            world.answer_bad_line(out);
            Ok(true)
        }
        Ok(Next::Whole(line)) => answer_line(alloc, line, world, journal, disk, out, steps),
    }
}

/// Answers a line, and keeps it where it is done. There is a line: true.
fn answer_line<D: Disk, L: Ledger>(
    alloc: Global,
    line: &[u8],
    world: &mut World,
    journal: &mut Journal,
    disk: &mut D,
    out: &mut Text,
    steps: &mut Steps<L>,
) -> Result<bool, TurnStop>
    requires some { 1 ≤ length line.now }
    requires most { length line.now ≤ 65536 }
    requires room { 128 ≤ room_of out.old }
    requires at_rest { IfSome (D.model.bytes disk.old) (IsAtRest journal.old) }
    requires settled { IsSettled D.model disk.old }
    requires below { journal.old < 2 ^ 40 }
    ensures turn { (done : List (List ℕ))
        × LineTurn (λ one. HasKept D.model disk.old disk.new one
        × (journal.new ≡ journal.old + size_of_records one))
        (λ last. HasKeptBut D.model disk.old disk.new [] last)
        (λ n. 2 ^ 40 < journal.old + n)
        (world_of world.old) line.now result out.new.bytes done (world_of world.new) }
    ensures takes { TakesLine world.old (line_of line.now) out.new.bytes world.new }
    ensures cost { steps.new ≤ steps.old + line_steps world.old (line_of line.now) }
    ensures line { result ≢ Ok false }
    ensures room { 128 ≤ room_of out.new }
    ensures at_rest { OnOk result (IfSome (D.model.bytes disk.new) (IsAtRest journal.new)) }
    ensures settled { OnOk result (IsSettled D.model disk.new) }
    ensures below { OnOk result (journal.new < 2 ^ 40) }
    ensures tells { D.model.tells_images disk.new ≡ D.model.tells_images disk.old }
    ensures disk_fault { result ≡ Err TurnStop.DiskFault
        → Rose (D.faults disk.old) (D.faults disk.new) }
    ensures disk_counts { D.faults disk.old ≤ D.faults disk.new }
{
    match world.answer(alloc, line, out, steps) {
        Reply::Done(_) => keep(journal, disk, line),
        Reply::Refused(_) => Ok(true),
        Reply::NoMemory => Ok(true),
    }
}

/// Keeps a line that is done.
fn keep<D: Disk>(journal: &mut Journal, disk: &mut D, line: &[u8]) -> Result<bool, TurnStop>
    requires some { 1 ≤ length line.now }
    requires most { length line.now ≤ 65536 }
    requires at_rest { IfSome (D.model.bytes disk.old) (IsAtRest journal.old) }
    requires settled { IsSettled D.model disk.old }
    requires below { journal.old < 2 ^ 40 }
    ensures keeps { KeepsLine (λ one. HasKept D.model disk.old disk.new one
        × (journal.new ≡ journal.old + size_of_records one))
        (λ last. HasKeptBut D.model disk.old disk.new [] last)
        (λ n. 2 ^ 40 < journal.old + n) line.now result }
    ensures at_rest { OnOk result (IfSome (D.model.bytes disk.new) (IsAtRest journal.new)) }
    ensures settled { OnOk result (IsSettled D.model disk.new) }
    ensures below { OnOk result (journal.new < 2 ^ 40) }
    ensures tells { D.model.tells_images disk.new ≡ D.model.tells_images disk.old }
    ensures disk_fault { result ≡ Err TurnStop.DiskFault
        → Rose (D.faults disk.old) (D.faults disk.new) }
    ensures disk_counts { D.faults disk.old ≤ D.faults disk.new }
{
    match journal.keep(disk, line) {
        Ok(()) => Ok(true),
        Err(KeepFault::DiskFault) => Err(TurnStop::DiskFault),
        Err(KeepFault::Full) => Err(TurnStop::Full),
    }
}
