//! Answering the lines of a source from the world that a journal holds.
ghost use Rattle.std.specs.Prelude.{◌≡◌, ◌≤◌, ◌<◌, ◌+◌, ◌^◌, ◌⊎◌, ◌++◌, ◌∷◌, [], ℕ, List, false, Some, Ok, IfOk, IfSome, length};
ghost use Rattle.ld_base.specs.Outside.{Rose, then_piece, AddsPrefix};
ghost use Rattle.ld_base.specs.Roomy.{room_of};
ghost use Rattle.ld_keep.specs.Disk.{IsSettled};
ghost use Rattle.ld_keep.specs.Journal.{IsAtRest};
ghost use Rattle.ld_keep.specs.Kept.{last_gate};
ghost use Rattle.ld_keeping.specs.Endings.{HasRoomFor, IsComplete, IsEndOfJournal, IsEndOfLines, KeepsAll, KeepsBefore, KeepsCut, KeepsTaken};
ghost use Rattle.ld_keeping.specs.InJournal.{FromDiffering, FromJournal, after_journal, differing_text, text_of_differing};
ghost use Rattle.ld_keeping.specs.Journaling.{HasKept, HasKeptBut, LosesNone, size_of_records};
ghost use Rattle.ld_keeping.specs.Working.{WorkedKeeping};
ghost use Rattle.ld_world.specs.Counting.{WorkedAll};
ghost use Rattle.ld_world.specs.World.{WorldState};
ghost use Rattle.ld_world.specs.WorldView.{world_of};

use crate::answering::{TurnStop, answer_next};
use crate::ending::KeepEnding;
use crate::opening::{OpenStop, open_journal};
use itoa::Buffer;
use ld_base::{NoMemory, Sink, Source, Steps, Text, write_all};
use ld_keep::{Disk, Journal};
use ld_lines::Lines;
use ld_world::World;
use std::alloc::Global;
use std::mem;
use std::sync::ledger::Ledger;

/// The room that is taken for replies before the first line is asked for, in bytes. Every refusal
/// fits into it.
const REPLY_ROOM: usize = 4096;

/// Answers the lines of the source, from its first byte on, until it ends or something fails. Each
/// line that is done is kept before its reply is written, and each reply is written before the next
/// line is asked for.
fn answer_lines<S: Source, K: Sink, D: Disk, L: Ledger>(
    alloc: Global,
    lines: &mut Lines,
    source: &mut S,
    sink: &mut K,
    world: &mut World,
    journal: &mut Journal,
    disk: &mut D,
    out: &mut Text,
    steps: &mut Steps<L>,
) -> KeepEnding
    requires room { 128 ≤ room_of out.old }
    requires held { lines.old.held ≡ [] }
    requires taken { lines.old.taken ≡ 0 }
    requires going { lines.old.ended ≡ false }
    requires at_rest { IfSome (D.model.bytes disk.old) (IsAtRest journal.old) }
    requires settled { IsSettled D.model disk.old }
    requires below { journal.old < 2 ^ 40 }
    ensures done { result ≡ KeepEnding.Done → KeepsAll (HasKept D.model disk.old disk.new)
        (world_of world.old) (S.left source.old) (K.written sink.old)
        (S.left source.new) (K.written sink.new) }
    ensures work { result ≡ KeepEnding.Done → WorkedAll world.old (S.left source.old)
        (K.written sink.old) (K.written sink.new) steps.old steps.new }
    ensures read { result ≡ KeepEnding.ReadFault
        → KeepsTaken (λ n. n < 2 ^ 40) (HasKept D.model disk.old disk.new)
        (world_of world.old) (S.left source.old) (K.written sink.old)
        (S.left source.new) (K.written sink.new) }
    ensures long { result ≡ KeepEnding.InputTooLong
        → KeepsTaken (λ n. n ≡ 2 ^ 40) (HasKept D.model disk.old disk.new)
        (world_of world.old) (S.left source.old) (K.written sink.old)
        (S.left source.new) (K.written sink.new) }
    ensures cut { result ≡ KeepEnding.WriteFault → KeepsCut (HasKept D.model disk.old disk.new)
        (world_of world.old) (S.left source.old) (K.written sink.old)
        (S.left source.new) (K.written sink.new) }
    ensures lost { result ≡ KeepEnding.DiskFault
        → KeepsBefore (HasKeptBut D.model disk.old disk.new)
        (world_of world.old) (S.left source.old) (K.written sink.old)
        (S.left source.new) (K.written sink.new) }
    ensures full { result ≡ KeepEnding.JournalFull
        → KeepsBefore (λ done last. HasKept D.model disk.old disk.new done
        × (2 ^ 40 < journal.old + size_of_records (done ++ last ∷ []) + 1))
        (world_of world.old) (S.left source.old) (K.written sink.old)
        (S.left source.new) (K.written sink.new) }
    ensures read_cause { result ≡ KeepEnding.ReadFault
        → Rose (S.faults source.old) (S.faults source.new) }
    ensures write_cause { result ≡ KeepEnding.WriteFault
        → Rose (K.faults sink.old) (K.faults sink.new) }
    ensures disk_cause { result ≡ KeepEnding.DiskFault
        → Rose (D.faults disk.old) (D.faults disk.new) }
    ensures source_counts { S.faults source.old ≤ S.faults source.new }
    ensures sink_counts { K.faults sink.old ≤ K.faults sink.new }
    ensures disk_counts { D.faults disk.old ≤ D.faults disk.new }
    ensures endings { IsEndOfLines result }
{
    'turns: loop {
        match answer_next(alloc, lines, source, world, journal, disk, out, steps) {
            Err(TurnStop::ReadFault) => return KeepEnding::ReadFault,
            Err(TurnStop::InputTooLong) => return KeepEnding::InputTooLong,
            Err(TurnStop::DiskFault) => return KeepEnding::DiskFault,
            Err(TurnStop::Full) => return KeepEnding::JournalFull,
            Ok(false) => return KeepEnding::Done,
            Ok(true) => {}
        }
        if let Err(_) = write_all(sink, out.as_str().as_bytes()) {
            return KeepEnding::WriteFault;
        }
        give_back_room(alloc, out);
    }
}

/// Writes the line that tells which line of the journal is refused, by its number, and its reply
/// block. Where memory runs out for it nothing is written, and where the sink fails a beginning.
fn tell_differing<K: Sink>(alloc: Global, number: u64, block: &Text, sink: &mut K) -> KeepEnding
    ensures endings { IsEndOfJournal result }
    ensures written { result ≡ KeepEnding.JournalDiffers → K.written sink.new
        ≡ then_piece (K.written sink.old) (text_of_differing number block.now.bytes) }
    ensures cut { result ≡ KeepEnding.WriteFault → AddsPrefix (K.written sink.old)
        (text_of_differing number block.now.bytes) (K.written sink.new) }
    ensures no_memory { result ≡ KeepEnding.NoMemory → sink.new ≡ sink.old }
    ensures cause { result ≡ KeepEnding.WriteFault → Rose (K.faults sink.old) (K.faults sink.new) }
    ensures counts { K.faults sink.old ≤ K.faults sink.new }
{
    let Ok(line) = line_of_differing(alloc, number, block) else {
        return KeepEnding::NoMemory;
    };
    match write_all(sink, line.as_str().as_bytes()) {
        Ok(()) => KeepEnding::JournalDiffers,
        Err(_) => KeepEnding::WriteFault,
    }
}

/// That line.
fn line_of_differing(alloc: Global, number: u64, block: &Text) -> Result<Text, NoMemory>
    ensures { IfOk result (λ line. line.bytes ≡ text_of_differing number block.now.bytes) }
{
    let mut line = Text::of(alloc, "journal ")?;
    line.push(Buffer::new().format(number))?;
    line.push(" ")?;
    line.push(block.as_str())?;
    Ok(line)
}

/// Opens the journal, and answers the lines of the source from its world on.
fn open_and_answer<S: Source, K: Sink, D: Disk, L: Ledger>(
    alloc: Global,
    lines: &mut Lines,
    source: &mut S,
    sink: &mut K,
    world: &mut World,
    disk: &mut D,
    out: &mut Text,
    steps: &mut Steps<L>,
) -> KeepEnding
    requires room { 128 ≤ room_of out.old }
    requires held { lines.old.held ≡ [] }
    requires taken { lines.old.taken ≡ 0 }
    requires going { lines.old.ended ≡ false }
    // Every ending has a cause.
    ensures read_cause { result ≡ KeepEnding.ReadFault
        → Rose (S.faults source.old) (S.faults source.new) }
    ensures write_cause { result ≡ KeepEnding.WriteFault
        → Rose (K.faults sink.old) (K.faults sink.new) }
    ensures disk_cause { result ≡ KeepEnding.DiskFault
        → Rose (D.faults disk.old) (D.faults disk.new) }

    // What was done, from the world of the journal on, and what was kept.
    ensures done { result ≡ KeepEnding.Done
        → FromJournal (D.model.bytes disk.old) (world_of world.old) (λ after.
        KeepsAll (λ done. IsSettled D.model disk.old → HasKept D.model disk.old disk.new done)
        after (S.left source.old) (K.written sink.old)
        (S.left source.new) (K.written sink.new)) }
    ensures work { result ≡ KeepEnding.Done
        → WorkedKeeping (D.model.bytes disk.old) world.old (S.left source.old)
        (K.written sink.old) (K.written sink.new) steps.old steps.new }
    ensures read { result ≡ KeepEnding.ReadFault
        → FromJournal (D.model.bytes disk.old) (world_of world.old) (λ after.
        KeepsTaken (λ n. n < 2 ^ 40)
        (λ done. IsSettled D.model disk.old → HasKept D.model disk.old disk.new done)
        after (S.left source.old) (K.written sink.old)
        (S.left source.new) (K.written sink.new)) }
    ensures long { result ≡ KeepEnding.InputTooLong
        → FromJournal (D.model.bytes disk.old) (world_of world.old) (λ after.
        KeepsTaken (λ n. n ≡ 2 ^ 40)
        (λ done. IsSettled D.model disk.old → HasKept D.model disk.old disk.new done)
        after (S.left source.old) (K.written sink.old)
        (S.left source.new) (K.written sink.new)) }
    ensures cut { result ≡ KeepEnding.WriteFault
        → FromJournal (D.model.bytes disk.old) (world_of world.old) (λ after.
        KeepsCut (λ done. IsSettled D.model disk.old → HasKept D.model disk.old disk.new done)
        after (S.left source.old) (K.written sink.old)
        (S.left source.new) (K.written sink.new))
        ⊎ FromDiffering (D.model.bytes disk.old) (world_of world.old) (λ differing.
        AddsPrefix (K.written sink.old) (differing_text differing) (K.written sink.new)
        × (source.new ≡ source.old)
        × (IsSettled D.model disk.old → LosesNone D.model disk.old disk.new)) }
    ensures lost { result ≡ KeepEnding.DiskFault
        → FromJournal (D.model.bytes disk.old) (world_of world.old) (λ after.
        KeepsBefore (λ done last. IsSettled D.model disk.old
        → HasKeptBut D.model disk.old disk.new done last)
        after (S.left source.old) (K.written sink.old)
        (S.left source.new) (K.written sink.new))
        ⊎ ((source.new ≡ source.old) × (sink.new ≡ sink.old)
        × (IsSettled D.model disk.old → LosesNone D.model disk.old disk.new)) }
    ensures full { result ≡ KeepEnding.JournalFull
        → FromJournal (D.model.bytes disk.old) (world_of world.old) (λ after.
        KeepsBefore (λ done last.
        (IsSettled D.model disk.old → HasKept D.model disk.old disk.new done)
        × IfSome (D.model.bytes disk.old) (λ file.
        2 ^ 40 < last_gate file + size_of_records (done ++ last ∷ []) + 1))
        after (S.left source.old) (K.written sink.old)
        (S.left source.new) (K.written sink.new)) }
    ensures differs { result ≡ KeepEnding.JournalDiffers
        → FromDiffering (D.model.bytes disk.old) (world_of world.old) (λ differing.
        (K.written sink.new ≡ then_piece (K.written sink.old) (differing_text differing))
        × (source.new ≡ source.old)
        × (IsSettled D.model disk.old → LosesNone D.model disk.old disk.new)) }
    ensures no_memory { result ≡ KeepEnding.NoMemory
        → (source.new ≡ source.old) × (sink.new ≡ sink.old)
        × (IsSettled D.model disk.old → LosesNone D.model disk.old disk.new) }

    ensures source_counts { S.faults source.old ≤ S.faults source.new }
    ensures sink_counts { K.faults sink.old ≤ K.faults sink.new }
    ensures disk_counts { D.faults disk.old ≤ D.faults disk.new }
{
    let mut journal = match open_journal(alloc, disk, world, out, steps) {
        Ok(journal) => journal,
        Err(OpenStop::DiskFault) => return KeepEnding::DiskFault,
        Err(OpenStop::NoMemory) => return KeepEnding::NoMemory,
        Err(OpenStop::Differs(number)) => return tell_differing(alloc, number, out, sink),
    };
    answer_lines(
        alloc,
        lines,
        source,
        sink,
        world,
        &mut journal,
        disk,
        out,
        steps,
    )
}

/// Answers the lines of the source from the world that the journal of the disk holds, which is this
/// one once its lines are done. Each line that is done is kept before its reply is written, and each
/// reply is written before the next line is asked for. (docs/JOURNAL.md) Where memory runs out,
/// nothing was taken and nothing was written. Else the world is not given back: it is forgotten,
/// since the process ends after this.
pub fn keep_lines<S: Source, K: Sink, D: Disk, L: Ledger>(
    alloc: Global,
    world: World,
    source: &mut S,
    sink: &mut K,
    disk: &mut D,
    steps: &mut Steps<L>,
) -> KeepEnding
    // Every ending has a cause.
    ensures read_cause { result ≡ KeepEnding.ReadFault
        → Rose (S.faults source.old) (S.faults source.new) }
    ensures write_cause { result ≡ KeepEnding.WriteFault
        → Rose (K.faults sink.old) (K.faults sink.new) }
    ensures disk_cause { result ≡ KeepEnding.DiskFault
        → Rose (D.faults disk.old) (D.faults disk.new) }

    // What was done, from the world of the journal on, and what was kept.
    ensures done { result ≡ KeepEnding.Done
        → FromJournal (D.model.bytes disk.old) (world_of world) (λ after.
        KeepsAll (λ done. IsSettled D.model disk.old → HasKept D.model disk.old disk.new done)
        after (S.left source.old) (K.written sink.old)
        (S.left source.new) (K.written sink.new)) }
    ensures work { result ≡ KeepEnding.Done
        → WorkedKeeping (D.model.bytes disk.old) world (S.left source.old)
        (K.written sink.old) (K.written sink.new) steps.old steps.new }
    ensures read { result ≡ KeepEnding.ReadFault
        → FromJournal (D.model.bytes disk.old) (world_of world) (λ after.
        KeepsTaken (λ n. n < 2 ^ 40)
        (λ done. IsSettled D.model disk.old → HasKept D.model disk.old disk.new done)
        after (S.left source.old) (K.written sink.old)
        (S.left source.new) (K.written sink.new)) }
    ensures long { result ≡ KeepEnding.InputTooLong
        → FromJournal (D.model.bytes disk.old) (world_of world) (λ after.
        KeepsTaken (λ n. n ≡ 2 ^ 40)
        (λ done. IsSettled D.model disk.old → HasKept D.model disk.old disk.new done)
        after (S.left source.old) (K.written sink.old)
        (S.left source.new) (K.written sink.new)) }
    ensures cut { result ≡ KeepEnding.WriteFault
        → FromJournal (D.model.bytes disk.old) (world_of world) (λ after.
        KeepsCut (λ done. IsSettled D.model disk.old → HasKept D.model disk.old disk.new done)
        after (S.left source.old) (K.written sink.old)
        (S.left source.new) (K.written sink.new))
        ⊎ FromDiffering (D.model.bytes disk.old) (world_of world) (λ differing.
        AddsPrefix (K.written sink.old) (differing_text differing) (K.written sink.new)
        × (source.new ≡ source.old)
        × (IsSettled D.model disk.old → LosesNone D.model disk.old disk.new)) }
    ensures lost { result ≡ KeepEnding.DiskFault
        → FromJournal (D.model.bytes disk.old) (world_of world) (λ after.
        KeepsBefore (λ done last. IsSettled D.model disk.old
        → HasKeptBut D.model disk.old disk.new done last)
        after (S.left source.old) (K.written sink.old)
        (S.left source.new) (K.written sink.new))
        ⊎ ((source.new ≡ source.old) × (sink.new ≡ sink.old)
        × (IsSettled D.model disk.old → LosesNone D.model disk.old disk.new)) }
    ensures full { result ≡ KeepEnding.JournalFull
        → FromJournal (D.model.bytes disk.old) (world_of world) (λ after.
        KeepsBefore (λ done last.
        (IsSettled D.model disk.old → HasKept D.model disk.old disk.new done)
        × IfSome (D.model.bytes disk.old) (λ file.
        2 ^ 40 < last_gate file + size_of_records (done ++ last ∷ []) + 1))
        after (S.left source.old) (K.written sink.old)
        (S.left source.new) (K.written sink.new)) }
    ensures differs { result ≡ KeepEnding.JournalDiffers
        → FromDiffering (D.model.bytes disk.old) (world_of world) (λ differing.
        (K.written sink.new ≡ then_piece (K.written sink.old) (differing_text differing))
        × (source.new ≡ source.old)
        × (IsSettled D.model disk.old → LosesNone D.model disk.old disk.new)) }
    ensures no_memory { result ≡ KeepEnding.NoMemory
        → (source.new ≡ source.old) × (sink.new ≡ sink.old)
        × (IsSettled D.model disk.old → LosesNone D.model disk.old disk.new) }

    // Nothing else ends it, where nothing failed, no line of the journal is refused, and there is
    // room for what is done.
    ensures complete { (bytes : List ℕ) (file : List ℕ) (after : WorldState)
        → S.left source.old ≡ Some bytes → length bytes < 2 ^ 40
        → D.model.bytes disk.old ≡ Some file
        → after_journal (world_of world) file ≡ Ok after
        → HasRoomFor after bytes file
        → (Rose (S.faults source.old) (S.faults source.new) → ⊥)
        → (Rose (K.faults sink.old) (K.faults sink.new) → ⊥)
        → (Rose (D.faults disk.old) (D.faults disk.new) → ⊥)
        → IsComplete result }

    ensures source_counts { S.faults source.old ≤ S.faults source.new }
    ensures sink_counts { K.faults sink.old ≤ K.faults sink.new }
    ensures disk_counts { D.faults disk.old ≤ D.faults disk.new }
{
    let mut world = world;
    let Ok(mut lines) = Lines::new(alloc) else {
        return KeepEnding::NoMemory;
    };
    let Ok(mut out) = Text::with_room(alloc, REPLY_ROOM) else {
        return KeepEnding::NoMemory;
    };
    let ending = open_and_answer(
        alloc, &mut lines, source, sink, &mut world, disk, &mut out, steps,
    );
    // The process ends after this, and gives back all that the world has at once.
    mem::forget(world);
    ending
}

/// Gives back the memory of a long reply, so that the next one need not be copied into it. Where
/// memory runs out it stays.
fn give_back_room(alloc: Global, out: &mut Text)
    requires { 128 ≤ room_of out.old }
    ensures { 128 ≤ room_of out.new }
{
    if out.as_str().len() <= REPLY_ROOM {
        return;
    }
    if let Ok(empty) = Text::with_room(alloc, REPLY_ROOM) {
        *out = empty;
    }
}
