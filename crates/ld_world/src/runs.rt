//! Runs by their names: making one, and asking one.
ghost use Rattle.std.specs.Prelude.{◌≡◌, ◌≤◌, ◌+◌, Some, List, map, IfOk, OnErr};
ghost use Rattle.ld_base.specs.Roomy.{room_of, KeepsRoom};
ghost use Rattle.ld_globals.specs.Store.{KeepsWrites};
ghost use Rattle.ld_lines.specs.declared.line.Line.TheVariants as line;
ghost use Rattle.ld_model.specs.declared.unit.Unit.{Unit};
ghost use Rattle.ld_value.specs.Calendar.{IsMoment};
ghost use Rattle.ld_world.specs.Answers.{RepliesTo};
ghost use Rattle.ld_world.specs.LineWork.{StampsAfter, asking_steps, making_steps};
ghost use Rattle.ld_world.specs.WorldView.{AreCurrent, ServesAll, ServesRuns, world_with};

use crate::publishing::find_unit;
use crate::refusing::refuse_line;
use indexmap::IndexMap;
use ld_admission::Refusal;
use ld_base::{Id, NoMemory, Steps, Text};
use ld_globals::Globals;
use ld_lines::RunCommand;
use ld_rules::PreparedUnit;
use ld_run::{CommandRoom, Reply, Run};
use ld_value::Moment;
use std::alloc::Global;
use std::rc::Rc;
use std::sync::ledger::Ledger;

/// Makes a run of the unit of this identifier under the name, or says why not. Where memory runs
/// out no run is made.
pub(crate) fn make_run<L: Ledger>(
    alloc: Global,
    units: &[Rc<PreparedUnit>],
    globals: &Globals,
    runs: &mut IndexMap<Id, Run>,
    moment: Moment,
    name: Id,
    unit: &Id,
    out: &mut Text,
    steps: &mut Steps<L>,
) -> Result<Reply, NoMemory>
    requires moment { IsMoment moment.0 }
    requires units { ServesAll globals.now (map (λ unit. unit.value) units.now) }
    requires runs { ServesRuns globals.now runs.old.entries }
    requires current { AreCurrent globals.now runs.old.entries }
    ensures ok { IfOk result (λ reply. RepliesTo
        (world_with (map (λ unit. unit.value) units.now) globals.now runs.old.entries)
        (Some (line.Create moment name unit.now)) reply out.new.bytes
        (world_with (map (λ unit. unit.value) units.now) globals.now runs.new.entries)) }
    ensures err { OnErr result (runs.new.entries ≡ runs.old.entries) }
    ensures runs { ServesRuns globals.now runs.new.entries }
    ensures current { AreCurrent globals.now runs.new.entries }
    ensures stamps { IfOk result (λ reply. StampsAfter runs.old.entries
        (Some (line.Create moment name unit.now)) reply globals.now.stamp runs.new.entries) }
    ensures room { KeepsRoom out.old out.new }
    ensures cost { steps.new ≤ steps.old
        + making_steps (map (λ unit. unit.value) units.now) unit.now }
{
    let Some(unit) = find_unit(units, unit) else {
        return refuse_line(Refusal::UnknownUnit, out);
    };
    if runs.contains_key(&name) {
        return refuse_line(Refusal::RunExists, out);
    }
    let run = Run::new(alloc, unit.clone()?, globals, moment, steps)?;
    out.clear();
    out.push("ok create\n")?;
    runs.insert(name, run)?;
    Ok(Reply::done_alone())
}

/// Does what is asked of the run of this name, or says that there is none.
pub(crate) fn ask_run<L: Ledger>(
    alloc: Global,
    globals: &mut Globals,
    runs: &mut IndexMap<Id, Run>,
    room: &mut CommandRoom,
    moment: Moment,
    name: &Id,
    command: &RunCommand,
    out: &mut Text,
    steps: &mut Steps<L>,
) -> Result<Reply, NoMemory>
    requires moment { IsMoment moment.0 }
    requires runs { ServesRuns globals.old runs.old.entries }
    requires current { AreCurrent globals.old runs.old.entries }
    requires room { 128 ≤ room_of out.old }
    ensures ok { (units : List Unit) → IfOk result (λ reply. RepliesTo
        (world_with units globals.old runs.old.entries)
        (Some (line.OfRun moment name.now command.now)) reply
        out.new.bytes (world_with units globals.new runs.new.entries)) }
    ensures declared { globals.new.declared ≡ globals.old.declared }
    ensures err { OnErr result (globals.new ≡ globals.old) }
    ensures same { OnErr result (runs.new.entries ≡ runs.old.entries) }
    ensures runs { ServesRuns globals.new runs.new.entries }
    ensures current { AreCurrent globals.new runs.new.entries }
    ensures kept { KeepsWrites globals.old globals.new }
    ensures stamps { IfOk result (λ reply. StampsAfter runs.old.entries
        (Some (line.OfRun moment name.now command.now)) reply
        globals.new.stamp runs.new.entries) }
    ensures room { 128 ≤ room_of out.new }
    ensures cost { steps.new ≤ steps.old
        + asking_steps globals.old runs.old.entries moment name.now command.now }
{
    let Some(run) = runs.get_mut(name) else {
        return refuse_line(Refusal::UnknownRun, out);
    };
    Ok(run.apply(alloc, globals, room, moment, command, out, steps))
}
