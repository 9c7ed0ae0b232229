//! Answering the lines of a source, one after the other.
ghost use Rattle.std.specs.Prelude.{◌≡◌, ◌≤◌, ◌<◌, [], false, true, Err, Ok, ◌^◌};
ghost use Rattle.ld_base.specs.Outside.{Rose};
ghost use Rattle.ld_base.specs.Roomy.{room_of};
ghost use Rattle.ld_lines.specs.Answer.{Answer, HandsOut};
ghost use Rattle.ld_top.specs.Answering.{AnswersWhat, AnsweredAll, AnsweredTaken, AnsweredCut, IsEndOfLines};
ghost use Rattle.ld_top.specs.Endings.{IsReplayEnding};
ghost use Rattle.ld_world.specs.Counting.{CountsTurn, WorkedAll};
ghost use Rattle.ld_world.specs.World.{first_world};
ghost use Rattle.ld_world.specs.WorldView.{world_of};

use crate::ending::Ending;
use crate::sending::{WAITING_ROOM, send};
use ld_base::{Sink, Source, Steps, Text};
use ld_lines::{LineStop, Lines, Next};
use ld_world::World;
use std::alloc::Global;
use std::mem;
use std::sync::ledger::Ledger;

/// Asks for the next line and answers it into `out`. True where there was one, false at the end.
fn answer_next<S: Source, L: Ledger>(
    alloc: Global,
    lines: &mut Lines,
    source: &mut S,
    world: &mut World,
    out: &mut Text,
    steps: &mut Steps<L>,
) -> Result<bool, LineStop>
    requires { 128 ≤ room_of out.old }
    ensures turn { (answer : Answer)
        × HandsOut lines.old (S.left source.old) answer lines.new (S.left source.new)
        × AnswersWhat (world_of world.old) answer result out.new.bytes (world_of world.new) }
    ensures work { CountsTurn lines.old (S.left source.old) world.old steps.old out.new.bytes
        lines.new (S.left source.new) world.new steps.new (result ≡ Ok true) (result ≡ Ok false) }
    ensures room { 128 ≤ room_of out.new }
    ensures read_fault { result ≡ Err LineStop.ReadFault
        → Rose (S.faults source.old) (S.faults source.new) }
    ensures counts { S.faults source.old ≤ S.faults source.new }
{
    match lines.next(source)? {
        Next::Whole(line) => {
            world.answer(alloc, line, out, steps);
            Ok(true)
        }
        Next::Over => {
            world.answer_bad_line(out);
            Ok(true)
        }
        Next::End => Ok(false),
    }
}

/// Answers the lines of the source, from its first byte on, until it ends or something fails. Where
/// the sink failed a beginning of the replies was written. No reply waits where the source is
/// asked.
fn answer_lines<S: Source, K: Sink, L: Ledger>(
    alloc: Global,
    lines: &mut Lines,
    source: &mut S,
    sink: &mut K,
    world: &mut World,
    out: &mut Text,
    waiting: &mut Text,
    steps: &mut Steps<L>,
) -> Ending
    requires room { 128 ≤ room_of out.old }
    requires none { waiting.old.bytes ≡ [] }
    requires held { lines.old.held ≡ [] }
    requires taken { lines.old.taken ≡ 0 }
    requires going { lines.old.ended ≡ false }
    ensures done { result ≡ Ending.Done → AnsweredAll (world_of world.old)
        (S.left source.old) (S.left source.new) (K.written sink.old) (K.written sink.new) }
    ensures work { result ≡ Ending.Done → WorkedAll world.old (S.left source.old)
        (K.written sink.old) (K.written sink.new) steps.old steps.new }
    ensures read { result ≡ Ending.ReadFault → AnsweredTaken (λ n. n < 2 ^ 40) (world_of world.old)
        (S.left source.old) (S.left source.new) (K.written sink.old) (K.written sink.new) }
    ensures long { result ≡ Ending.InputTooLong
        → AnsweredTaken (λ n. n ≡ 2 ^ 40) (world_of world.old)
        (S.left source.old) (S.left source.new) (K.written sink.old) (K.written sink.new) }
    ensures cut { result ≡ Ending.WriteFault → AnsweredCut (world_of world.old)
        (S.left source.old) (S.left source.new) (K.written sink.old) (K.written sink.new) }
    ensures read_cause { result ≡ Ending.ReadFault
        → Rose (S.faults source.old) (S.faults source.new) }
    ensures write_cause { result ≡ Ending.WriteFault
        → Rose (K.faults sink.old) (K.faults sink.new) }
    ensures source_counts { S.faults source.old ≤ S.faults source.new }
    ensures sink_counts { K.faults sink.old ≤ K.faults sink.new }
    ensures endings { IsEndOfLines result }
{
    'turns: loop {
        match answer_next(alloc, lines, source, world, out, steps) {
            Err(LineStop::ReadFault) => return Ending::ReadFault,
            Err(LineStop::InputTooLong) => return Ending::InputTooLong,
            Ok(false) => return Ending::Done,
            Ok(true) => {}
        }
        if let Err(_) = send(out, lines.holds_line(), waiting, sink) {
            return Ending::WriteFault;
        }
        give_back_room(alloc, out);
    }
}

/// Gives back the memory of a long reply, so that the next one need not be copied into it. Where
/// memory runs out it stays.
fn give_back_room(alloc: Global, out: &mut Text)
    requires { 128 ≤ room_of out.old }
    ensures { 128 ≤ room_of out.new }
{
    if out.as_str().len() <= REPLY_ROOM {
        return;
    }
    if let Ok(empty) = Text::with_room(alloc, REPLY_ROOM) {
        *out = empty;
    }
}

/// Answers the lines of the source, before any of which the world has units alone. Where memory
/// runs out nothing was taken and nothing was written. Else the world is not given back: it is
/// forgotten, since the process ends behind this.
pub fn replay<S: Source, K: Sink, L: Ledger>(
    alloc: Global,
    world: World,
    source: &mut S,
    sink: &mut K,
    steps: &mut Steps<L>,
) -> Ending
    requires { world_of world ≡ first_world world.units }
    ensures done { result ≡ Ending.Done
        → AnsweredAll (first_world world.units)
        (S.left source.old) (S.left source.new) (K.written sink.old) (K.written sink.new) }
    ensures work { result ≡ Ending.Done → WorkedAll world (S.left source.old)
        (K.written sink.old) (K.written sink.new) steps.old steps.new }
    ensures read { result ≡ Ending.ReadFault
        → AnsweredTaken (λ n. n < 2 ^ 40) (first_world world.units)
        (S.left source.old) (S.left source.new) (K.written sink.old) (K.written sink.new) }
    ensures long { result ≡ Ending.InputTooLong
        → AnsweredTaken (λ n. n ≡ 2 ^ 40) (first_world world.units)
        (S.left source.old) (S.left source.new) (K.written sink.old) (K.written sink.new) }
    ensures cut { result ≡ Ending.WriteFault
        → AnsweredCut (first_world world.units)
        (S.left source.old) (S.left source.new) (K.written sink.old) (K.written sink.new) }
    ensures no_memory { result ≡ Ending.NoMemory
        → (source.new ≡ source.old) × (sink.new ≡ sink.old) }
    ensures read_cause { result ≡ Ending.ReadFault
        → Rose (S.faults source.old) (S.faults source.new) }
    ensures write_cause { result ≡ Ending.WriteFault
        → Rose (K.faults sink.old) (K.faults sink.new) }
    ensures source_counts { S.faults source.old ≤ S.faults source.new }
    ensures sink_counts { K.faults sink.old ≤ K.faults sink.new }
    ensures endings { IsReplayEnding result }
{
    let mut world = world;
    let Ok(mut lines) = Lines::new(alloc) else {
        return Ending::NoMemory;
    };
    let Ok(mut out) = Text::with_room(alloc, REPLY_ROOM) else {
        return Ending::NoMemory;
    };
    let Ok(mut waiting) = Text::with_room(alloc, WAITING_ROOM) else {
        return Ending::NoMemory;
    };
    let ending = answer_lines(
        alloc,
        &mut lines,
        source,
        sink,
        &mut world,
        &mut out,
        &mut waiting,
        steps,
    );
    // The process ends behind this, and gives back all that the world has at once.
    mem::forget(world);
    ending
}

/// The room that is taken for replies before the first line is asked for, in bytes. Every refusal
/// fits into it.
const REPLY_ROOM: usize = 4096;
