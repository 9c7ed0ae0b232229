//! The lines of a journal, done again before the first line of input.
ghost use Rattle.std.specs.Prelude.{◌≡◌, ◌≤◌, ◌<◌, ◌+◌, ◌^◌, ◌∷◌, [], ℕ, List, IfErr, IfOk, IfSome, OnOk, IsTrue, Ok, Err};
ghost use Rattle.ld_base.specs.Outside.{Rose};
ghost use Rattle.ld_base.specs.Roomy.{room_of};
ghost use Rattle.ld_keep.specs.Disk.{IsQuiet, IsSettled};
ghost use Rattle.ld_keep.specs.Journal.{IsAtRest, kept_on};
ghost use Rattle.ld_keep.specs.Kept.{kept_lines, last_gate, lines_from};
ghost use Rattle.ld_keep.specs.Opening.{IsAtGate};
ghost use Rattle.ld_keeping.specs.Applying.{AppliesNext, DiffersAt, IsBeforeLines};
ghost use Rattle.ld_keeping.specs.InJournal.{after_journal};
ghost use Rattle.ld_keeping.specs.Journaling.{HasKept, LosesNone};
ghost use Rattle.ld_keeping.specs.Working.{WorkedJournal, WorksNext};
ghost use Rattle.ld_world.specs.WorldView.{world_of};

use ld_base::{Steps, Text};
use ld_keep::{Disk, Journal, OpenFault, Opening};
use ld_run::Reply;
use ld_world::World;
use std::alloc::Global;
use std::sync::ledger::Ledger;

/// Why a journal is not opened for the lines of a source.
#[derive(Clone, Copy)]
pub(crate) enum OpenStop {
    DiskFault,
    NoMemory,
    /// The line of this number is refused, counted from 1.
    Differs(u64),
}

/// Begins to open the journal.
fn start<D: Disk>(alloc: Global, disk: &mut D) -> Result<Opening, OpenStop>
    ensures place { IfOk result (λ o. o.place ≡ 0) }
    ensures limit { IfOk result (λ o. o.limit ≤ 2 ^ 40) }
    ensures at_gate { IfOk result (λ o. IfSome (D.model.bytes disk.new) (IsAtGate o)) }
    ensures lines { IfOk result (λ o. IfSome (D.model.bytes disk.new)
        (λ file. lines_from o.place file ≡ kept_lines file)) }
    ensures settled { OnOk result (IsSettled D.model disk.new) }
    ensures bytes { D.model.bytes disk.new ≡ D.model.bytes disk.old }
    ensures any_moment { IsSettled D.model disk.old → LosesNone D.model disk.old disk.new }
    ensures tells { D.model.tells_images disk.new ≡ D.model.tells_images disk.old }
    ensures before { IfErr result IsBeforeLines }
    ensures cause { result ≡ Err OpenStop.DiskFault → Rose (D.faults disk.old) (D.faults disk.new) }
    ensures counts { D.faults disk.old ≤ D.faults disk.new }
{
    match Opening::start(alloc, disk) {
        Ok(opening) => Ok(opening),
        Err(OpenFault::DiskFault) => Err(OpenStop::DiskFault),
        Err(OpenFault::NoMemory) => Err(OpenStop::NoMemory),
    }
}

/// Does the next line of the journal, which has this number, and says whether there was one. Its
/// reply is left in `out`.
fn apply_next<D: Disk, L: Ledger>(
    alloc: Global,
    opening: &mut Opening,
    number: u64,
    disk: &mut D,
    world: &mut World,
    out: &mut Text,
    steps: &mut Steps<L>,
) -> Result<bool, OpenStop>
    requires room { 128 ≤ room_of out.old }
    requires at_gate { IfSome (D.model.bytes disk.old) (IsAtGate opening.old) }
    ensures room { 128 ≤ room_of out.new }
    ensures applies { AppliesNext number (D.model.bytes disk.old) opening.old (world_of world.old)
        result out.new.bytes opening.new (world_of world.new) }
    ensures work { WorksNext (D.model.bytes disk.old) opening.old world.old steps.old
        result out.new.bytes opening.new world.new steps.new }
    ensures quiet { IsQuiet D.model disk.old disk.new }
    ensures tells { D.model.tells_images disk.new ≡ D.model.tells_images disk.old }
    ensures cause { result ≡ Err OpenStop.DiskFault → Rose (D.faults disk.old) (D.faults disk.new) }
    ensures counts { D.faults disk.old ≤ D.faults disk.new }
{
    match opening.next(disk) {
        Err(_) => Err(OpenStop::DiskFault),
        Ok(None) => Ok(false),
        Ok(Some(line)) => match world.answer(alloc, line, out, steps) {
            Reply::Done(_) => Ok(true),
            Reply::Refused(_) => Err(OpenStop::Differs(number)),
            Reply::NoMemory => Err(OpenStop::NoMemory),
        },
    }
}

/// Opens the journal of the disk, and does its lines from the world on, which is then the one that
/// the journal holds. Where a line is refused, `out` has its reply block. Writes nothing but to the
/// disk, and loses none of its lines.
pub(crate) fn open_journal<D: Disk, L: Ledger>(
    alloc: Global,
    disk: &mut D,
    world: &mut World,
    out: &mut Text,
    steps: &mut Steps<L>,
) -> Result<Journal, OpenStop>
    requires room { 128 ≤ room_of out.old }
    ensures room { 128 ≤ room_of out.new }
    ensures at_rest { IfOk result (λ journal. IfSome (D.model.bytes disk.new) (IsAtRest journal)) }
    ensures settled { OnOk result (IsSettled D.model disk.new) }
    ensures gate { IfOk result (λ journal. IfSome (D.model.bytes disk.old)
        (λ file. last_gate file ≡ journal)) }
    ensures below { IfOk result (λ journal. journal < 2 ^ 40) }
    ensures world { OnOk result (IfSome (D.model.bytes disk.old)
        (λ file. after_journal (world_of world.old) file ≡ Ok (world_of world.new))) }
    ensures work { OnOk result
        (WorkedJournal (D.model.bytes disk.old) world.old world.new steps.old steps.new) }
    ensures differs { IfErr result (λ stop. DiffersAt stop (D.model.bytes disk.old)
        (world_of world.old) out.new.bytes) }
    ensures kept { OnOk result (IsSettled D.model disk.old
        → HasKept D.model disk.old disk.new []) }
    ensures any_moment { IsSettled D.model disk.old → LosesNone D.model disk.old disk.new }
    ensures tells { D.model.tells_images disk.new ≡ D.model.tells_images disk.old }
    ensures cause { result ≡ Err OpenStop.DiskFault → Rose (D.faults disk.old) (D.faults disk.new) }
    ensures counts { D.faults disk.old ≤ D.faults disk.new }
{
    let mut opening = start(alloc, disk)?;
    let mut number = 1u64;
    'lines: loop {
        match apply_next(alloc, &mut opening, number, disk, world, out, steps) {
            Err(stop) => return Err(stop),
            Ok(false) => return finish(opening, disk),
            Ok(true) => {}
        }
        number += 1;
    }
}

/// Makes the end of the file ready for more lines.
fn finish<D: Disk>(opening: Opening, disk: &mut D) -> Result<Journal, OpenStop>
    requires ended { IsTrue opening.ended }
    requires at_gate { IfSome (D.model.bytes disk.old) (IsAtGate opening) }
    requires settled { IsSettled D.model disk.old }
    ensures at_rest { IfOk result (λ journal. IfSome (D.model.bytes disk.new) (IsAtRest journal)) }
    ensures settled { OnOk result (IsSettled D.model disk.new) }
    ensures gate { IfOk result (λ journal. IfSome (D.model.bytes disk.old)
        (λ file. last_gate file ≡ journal)) }
    ensures below { IfOk result (λ journal. journal < 2 ^ 40) }
    ensures kept { OnOk result
        (kept_on (D.model.bytes disk.new) ≡ kept_on (D.model.bytes disk.old)) }
    ensures any_moment { LosesNone D.model disk.old disk.new }
    ensures before { IfErr result IsBeforeLines }
    ensures tells { D.model.tells_images disk.new ≡ D.model.tells_images disk.old }
    ensures cause { result ≡ Err OpenStop.DiskFault → Rose (D.faults disk.old) (D.faults disk.new) }
    ensures counts { D.faults disk.old ≤ D.faults disk.new }
{
    match opening.finish(disk) {
        Ok(journal) => Ok(journal),
        Err(_) => Err(OpenStop::DiskFault),
    }
}
