//! Publishing the units of folders and answering lines.
ghost use Rattle.std.specs.Prelude.{◌≡◌, ◌≤◌, ◌<◌, ◌^◌};
ghost use Rattle.ld_base.specs.Outside.{Rose};
ghost use Rattle.ld_top.specs.Completeness.{DidNotFail, EndsAtLimit, EndsRefused, EndsWell};
ghost use Rattle.ld_top.specs.Endings.{IsCallEnding, NothingTaken, NothingWritten, number_of};
ghost use Rattle.ld_top.specs.Replay.{CutShort, Refused, ReplayedAll, ReplayedTaken};
ghost use Rattle.ld_top.specs.Working.{WorkedReplay};
ghost use Rattle.ld_words.specs.Words.{words_of};

use crate::ending::Ending;
use crate::publish::{PublishStop, publish_folders};
use crate::refusal::refuse;
use crate::replay::replay;
use ld_base::{Shelf, Sink, Source, Steps};
use std::alloc::Global;
use std::sync::ledger::Ledger;

/// Publishes the units of the folders and answers the lines of the input, or writes the line that
/// tells which folder is refused.
pub(crate) fn replay_folders<H: Shelf, S: Source, K: Sink, L: Ledger>(
    alloc: Global,
    folders: &[String],
    shelf: &mut H,
    input: &mut S,
    output: &mut K,
    steps: &mut Steps<L>,
) -> Ending
    ensures endings { IsCallEnding result }
    ensures done { result ≡ Ending.Done
        → ReplayedAll (words_of folders.now) (H.files shelf.old)
        (S.left input.old) (S.left input.new) (K.written output.old) (K.written output.new) }
    ensures work { result ≡ Ending.Done
        → WorkedReplay (words_of folders.now) (H.files shelf.old) (S.left input.old)
        (K.written output.old) (K.written output.new) steps.old steps.new }
    ensures refused { result ≡ Ending.UnitRefused
        → Refused (words_of folders.now) (H.files shelf.old)
        (K.written output.old) (K.written output.new) }
    ensures read { result ≡ Ending.ReadFault
        → ReplayedTaken (λ n. n < 2 ^ 40) (words_of folders.now) (H.files shelf.old)
        (S.left input.old) (S.left input.new) (K.written output.old) (K.written output.new) }
    ensures too_long { result ≡ Ending.InputTooLong
        → ReplayedTaken (λ n. n ≡ 2 ^ 40) (words_of folders.now) (H.files shelf.old)
        (S.left input.old) (S.left input.new) (K.written output.old) (K.written output.new) }
    ensures cut { result ≡ Ending.WriteFault
        → CutShort (words_of folders.now) (H.files shelf.old)
        (S.left input.old) (S.left input.new) (K.written output.old) (K.written output.new) }
    ensures complete { DidNotFail (H.faults shelf.old) (H.faults shelf.new)
        → DidNotFail (S.faults input.old) (S.faults input.new)
        → DidNotFail (K.faults output.old) (K.faults output.new)
        → EndsWell (words_of folders.now) (H.files shelf.old) (S.left input.old)
        (number_of result) }
    ensures refuses { DidNotFail (H.faults shelf.old) (H.faults shelf.new)
        → DidNotFail (K.faults output.old) (K.faults output.new)
        → EndsRefused (words_of folders.now) (H.files shelf.old) (number_of result) }
    ensures at_limit { DidNotFail (K.faults output.old) (K.faults output.new)
        → EndsAtLimit (S.left input.old) (S.left input.new) (number_of result) }
    ensures not_written { NothingWritten (number_of result) → output.new ≡ output.old }
    ensures not_taken { NothingTaken (number_of result) → input.new ≡ input.old }
    ensures shelf_fault { result ≡ Ending.ShelfFault
        → Rose (H.faults shelf.old) (H.faults shelf.new) }
    ensures read_fault { result ≡ Ending.ReadFault
        → Rose (S.faults input.old) (S.faults input.new) }
    ensures write_fault { result ≡ Ending.WriteFault
        → Rose (K.faults output.old) (K.faults output.new) }
    ensures files { H.files shelf.new ≡ H.files shelf.old }
    ensures shelf_counts { H.faults shelf.old ≤ H.faults shelf.new }
    ensures source_counts { S.faults input.old ≤ S.faults input.new }
    ensures sink_counts { K.faults output.old ≤ K.faults output.new }
{
    let world = match publish_folders(alloc, shelf, folders) {
        Err(PublishStop::ShelfFault) => return Ending::ShelfFault,
        Err(PublishStop::NoMemory) => return Ending::NoMemory,
        Err(PublishStop::Refused(number, fault)) => return refuse(alloc, number, &fault, output),
        Ok(world) => world,
    };
    replay(alloc, world, input, output, steps)
}
