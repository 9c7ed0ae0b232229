//! Publishing the units of folders and answering lines over a journal.
ghost use Rattle.std.specs.Prelude.{◌≡◌, ◌≤◌, ◌<◌, ◌^◌, ◌∷◌, []};
ghost use Rattle.ld_base.specs.Outside.{Rose};
ghost use Rattle.ld_keeping.specs.Working.{WorkedKeeping};
ghost use Rattle.ld_top.specs.Completeness.{DidNotFail, EndsRefused};
ghost use Rattle.ld_top.specs.Endings.{IsJournalEnding, IsKeepEnding, IsOneOf, NotOpened, NothingKept, NothingTaken, NothingWritten, number_of};
ghost use Rattle.ld_top.specs.JournalEndings.{ending_of as ending_for};
ghost use Rattle.ld_top.specs.Journaled.{HasGoodJournal, IsGivenToKeep, JournaledAll, JournaledCut, JournaledDiffers, JournaledFull, JournaledLost, JournaledTaken, KeptAll, KeptCut, KeptDiffers, KeptFull, KeptLost, KeptTaken, journaled};
ghost use Rattle.ld_top.specs.Replay.{Refused};
ghost use Rattle.ld_top.specs.Working.{WorkedKeep};
ghost use Rattle.ld_words.specs.Words.{words_of};
ghost use Rattle.ld_world.specs.World.{first_world};
ghost use Rattle.ld_world.specs.WorldView.{world_of};

use crate::ending::Ending;
use crate::publish::{PublishStop, publish_folders};
use crate::refusal::refuse;
use ld_base::{Shelf, Sink, Source, Steps};
use ld_keep::Disk;
use ld_keeping::{KeepEnding, keep_lines};
use ld_world::World;
use std::alloc::Global;
use std::sync::ledger::Ledger;

/// The ending of a call whose lines were answered over a journal.
fn ending_of(ending: KeepEnding) -> Ending
    ensures { result ≡ ending_for ending }
{
    match ending {
        KeepEnding::Done => Ending::Done,
        KeepEnding::ReadFault => Ending::ReadFault,
        KeepEnding::WriteFault => Ending::WriteFault,
        KeepEnding::NoMemory => Ending::NoMemory,
        KeepEnding::InputTooLong => Ending::InputTooLong,
        KeepEnding::DiskFault => Ending::DiskFault,
        KeepEnding::JournalDiffers => Ending::JournalDiffers,
        KeepEnding::JournalFull => Ending::JournalFull,
    }
}

/// Answers the lines of the input from the world that the journal of the disk holds, which begins
/// with units alone. Where memory runs out nothing was taken and nothing was written.
fn keep_units<S: Source, K: Sink, D: Disk, L: Ledger>(
    alloc: Global,
    world: World,
    input: &mut S,
    output: &mut K,
    disk: &mut D,
    steps: &mut Steps<L>,
) -> Ending
    requires { world_of world ≡ first_world world.units }
    ensures endings { IsJournalEnding result }
    ensures done { result ≡ Ending.Done → JournaledAll (journaled D.model disk.old disk.new)
        (D.model.bytes disk.old) (first_world world.units)
        (S.left input.old) (S.left input.new) (K.written output.old) (K.written output.new) }
    ensures work { result ≡ Ending.Done
        → WorkedKeeping (D.model.bytes disk.old) world (S.left input.old)
        (K.written output.old) (K.written output.new) steps.old steps.new }
    ensures read { result ≡ Ending.ReadFault
        → JournaledTaken (λ n. n < 2 ^ 40) (journaled D.model disk.old disk.new)
        (D.model.bytes disk.old) (first_world world.units)
        (S.left input.old) (S.left input.new) (K.written output.old) (K.written output.new) }
    ensures too_long { result ≡ Ending.InputTooLong
        → JournaledTaken (λ n. n ≡ 2 ^ 40) (journaled D.model disk.old disk.new)
        (D.model.bytes disk.old) (first_world world.units)
        (S.left input.old) (S.left input.new) (K.written output.old) (K.written output.new) }
    ensures cut { result ≡ Ending.WriteFault → JournaledCut (journaled D.model disk.old disk.new)
        (D.model.bytes disk.old) (first_world world.units)
        (S.left input.old) (S.left input.new) (K.written output.old) (K.written output.new) }
    ensures lost { result ≡ Ending.DiskFault → JournaledLost (journaled D.model disk.old disk.new)
        (D.model.bytes disk.old) (first_world world.units)
        (S.left input.old) (S.left input.new) (K.written output.old) (K.written output.new) }
    ensures full { result ≡ Ending.JournalFull → JournaledFull (journaled D.model disk.old disk.new)
        (D.model.bytes disk.old) (first_world world.units)
        (S.left input.old) (S.left input.new) (K.written output.old) (K.written output.new) }
    ensures differs { result ≡ Ending.JournalDiffers → JournaledDiffers (journaled D.model disk.old disk.new)
        (D.model.bytes disk.old) (first_world world.units)
        (S.left input.old) (S.left input.new) (K.written output.old) (K.written output.new) }
    ensures not_written { NothingWritten (number_of result) → output.new ≡ output.old }
    ensures not_taken { NothingTaken (number_of result) → input.new ≡ input.old }
    ensures not_kept { NothingKept (number_of result)
        → (journaled D.model disk.old disk.new).KeptNone }
    ensures complete { HasGoodJournal (first_world world.units) (S.left input.old)
        (D.model.bytes disk.old)
        → DidNotFail (S.faults input.old) (S.faults input.new)
        → DidNotFail (K.faults output.old) (K.faults output.new)
        → DidNotFail (D.faults disk.old) (D.faults disk.new)
        → IsOneOf (0 ∷ 7 ∷ []) (number_of result) }
    ensures read_fault { result ≡ Ending.ReadFault
        → Rose (S.faults input.old) (S.faults input.new) }
    ensures write_fault { result ≡ Ending.WriteFault
        → Rose (K.faults output.old) (K.faults output.new) }
    ensures disk_fault { result ≡ Ending.DiskFault
        → Rose (D.faults disk.old) (D.faults disk.new) }
    ensures source_counts { S.faults input.old ≤ S.faults input.new }
    ensures sink_counts { K.faults output.old ≤ K.faults output.new }
    ensures disk_counts { D.faults disk.old ≤ D.faults disk.new }
{
    let ending = keep_lines(alloc, world, input, output, disk, steps);
    ending_of(ending)
}

/// Publishes the units of the folders, and answers the lines of the input from the world that the
/// journal of the disk holds; or writes the line that tells which folder is refused. The disk is not
/// called before all units are published.
pub(crate) fn keep_folders<H: Shelf, S: Source, K: Sink, D: Disk, L: Ledger>(
    alloc: Global,
    folders: &[String],
    shelf: &mut H,
    input: &mut S,
    output: &mut K,
    disk: &mut D,
    steps: &mut Steps<L>,
) -> Ending
    ensures endings { IsKeepEnding result }
    ensures done { result ≡ Ending.Done → KeptAll (journaled D.model disk.old disk.new)
        (H.files shelf.old) (D.model.bytes disk.old) (S.left input.old) (S.left input.new)
        (K.written output.old) (K.written output.new) (words_of folders.now) }
    ensures work { result ≡ Ending.Done → WorkedKeep (H.files shelf.old) (D.model.bytes disk.old)
        (S.left input.old) (K.written output.old) (K.written output.new) steps.old steps.new
        (words_of folders.now) }
    ensures refused { result ≡ Ending.UnitRefused
        → Refused (words_of folders.now) (H.files shelf.old)
        (K.written output.old) (K.written output.new) }
    ensures read { result ≡ Ending.ReadFault
        → KeptTaken (λ n. n < 2 ^ 40) (journaled D.model disk.old disk.new)
        (H.files shelf.old) (D.model.bytes disk.old) (S.left input.old) (S.left input.new)
        (K.written output.old) (K.written output.new) (words_of folders.now) }
    ensures too_long { result ≡ Ending.InputTooLong
        → KeptTaken (λ n. n ≡ 2 ^ 40) (journaled D.model disk.old disk.new)
        (H.files shelf.old) (D.model.bytes disk.old) (S.left input.old) (S.left input.new)
        (K.written output.old) (K.written output.new) (words_of folders.now) }
    ensures cut { result ≡ Ending.WriteFault → KeptCut (journaled D.model disk.old disk.new)
        (H.files shelf.old) (D.model.bytes disk.old) (S.left input.old) (S.left input.new)
        (K.written output.old) (K.written output.new) (words_of folders.now) }
    ensures lost { result ≡ Ending.DiskFault → KeptLost (journaled D.model disk.old disk.new)
        (H.files shelf.old) (D.model.bytes disk.old) (S.left input.old) (S.left input.new)
        (K.written output.old) (K.written output.new) (words_of folders.now) }
    ensures full { result ≡ Ending.JournalFull → KeptFull (journaled D.model disk.old disk.new)
        (H.files shelf.old) (D.model.bytes disk.old) (S.left input.old) (S.left input.new)
        (K.written output.old) (K.written output.new) (words_of folders.now) }
    ensures differs { result ≡ Ending.JournalDiffers
        → KeptDiffers (journaled D.model disk.old disk.new)
        (H.files shelf.old) (D.model.bytes disk.old) (S.left input.old) (S.left input.new)
        (K.written output.old) (K.written output.new) (words_of folders.now) }
    ensures complete { IsGivenToKeep (words_of folders.now) (H.files shelf.old) (S.left input.old)
        (D.model.bytes disk.old)
        → DidNotFail (H.faults shelf.old) (H.faults shelf.new)
        → DidNotFail (S.faults input.old) (S.faults input.new)
        → DidNotFail (K.faults output.old) (K.faults output.new)
        → DidNotFail (D.faults disk.old) (D.faults disk.new)
        → IsOneOf (0 ∷ 7 ∷ []) (number_of result) }
    ensures refuses { DidNotFail (H.faults shelf.old) (H.faults shelf.new)
        → DidNotFail (K.faults output.old) (K.faults output.new)
        → EndsRefused (words_of folders.now) (H.files shelf.old) (number_of result) }
    ensures not_written { NothingWritten (number_of result) → output.new ≡ output.old }
    ensures not_taken { NothingTaken (number_of result) → input.new ≡ input.old }
    ensures not_kept { NothingKept (number_of result)
        → (journaled D.model disk.old disk.new).KeptNone }
    ensures not_opened { NotOpened (number_of result) → disk.new ≡ disk.old }
    ensures shelf_fault { result ≡ Ending.ShelfFault
        → Rose (H.faults shelf.old) (H.faults shelf.new) }
    ensures read_fault { result ≡ Ending.ReadFault
        → Rose (S.faults input.old) (S.faults input.new) }
    ensures write_fault { result ≡ Ending.WriteFault
        → Rose (K.faults output.old) (K.faults output.new) }
    ensures disk_fault { result ≡ Ending.DiskFault
        → Rose (D.faults disk.old) (D.faults disk.new) }
    ensures files { H.files shelf.new ≡ H.files shelf.old }
    ensures shelf_counts { H.faults shelf.old ≤ H.faults shelf.new }
    ensures source_counts { S.faults input.old ≤ S.faults input.new }
    ensures sink_counts { K.faults output.old ≤ K.faults output.new }
    ensures disk_counts { D.faults disk.old ≤ D.faults disk.new }
{
    let world = match publish_folders(alloc, shelf, folders) {
        Err(PublishStop::ShelfFault) => return Ending::ShelfFault,
        Err(PublishStop::NoMemory) => return Ending::NoMemory,
        Err(PublishStop::Refused(number, fault)) => return refuse(alloc, number, &fault, output),
        Ok(world) => world,
    };
    keep_units(alloc, world, input, output, disk, steps)
}
