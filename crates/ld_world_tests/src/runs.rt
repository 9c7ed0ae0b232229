//! One run and its commands.
ghost use Rattle.std.specs.Prelude.{◌≡◌, ◌≤◌};
ghost use Rattle.ld_base.specs.Roomy.{room_of};
ghost use Rattle.ld_sharing.specs.Current.{IsCurrentAsOf};
ghost use Rattle.ld_sharing.specs.StoreView.{Serves};
ghost use Rattle.ld_state.specs.StateView.{run_of};

use crate::begun::{Subject, test};
use crate::units::{check, id};
use ld_base::{Steps, Text};
use ld_globals::Globals;
use ld_lines::RunCommand;
use ld_rules::PreparedUnit;
use ld_run::{CommandRoom, Run};
use ld_value::Moment;
use std::alloc::Global;
use std::rc::Rc;
use std::sync::ledger::Ledger;
use std::test::Fail;

#[test]
fn a_run_does_commands(rt: HostRuntime) -> Result<(), Fail> {
    test(rt.alloc(), Subject::Commands)
}

/// Asks a new run of the unit.
pub(crate) fn do_commands<L: Ledger>(
    alloc: Global,
    unit: Rc<PreparedUnit>,
    globals: &mut Globals,
    steps: &mut Steps<L>,
) -> Result<(), Fail>
    requires serves { Serves globals.old unit.value }
{
    let mut run = Run::new(alloc, unit, globals, Moment(5), steps)?;
    command(alloc, &mut run, globals, steps)
}

/// A person joins the run, and the run starts.
fn command<L: Ledger>(
    alloc: Global,
    run: &mut Run,
    globals: &mut Globals,
    steps: &mut Steps<L>,
) -> Result<(), Fail>
    requires serves { Serves globals.old run.old.unit }
    requires current { IsCurrentAsOf run.old.unit (run_of run.old.state) run.old.stamp globals.old }
{
    let mut out = Text::with_room(alloc, 128)?;
    let person = id(alloc, "ann")?;
    let enrol = RunCommand::Enrol { person };
    apply(alloc, run, globals, enrol, &mut out, steps);
    check(
        out.as_str() == "ok enrol turns=0 fired=0 rejected=0 sent=0\n",
        "a person joins",
    )?;
    apply(alloc, run, globals, RunCommand::Start, &mut out, steps);
    check(
        out.as_str() == "ok start turns=1 fired=1 rejected=0 sent=0\n",
        "the run starts",
    )
}

/// The run does the command.
fn apply<L: Ledger>(
    alloc: Global,
    run: &mut Run,
    globals: &mut Globals,
    command: RunCommand,
    out: &mut Text,
    steps: &mut Steps<L>,
)
    requires serves { Serves globals.old run.old.unit }
    requires current { IsCurrentAsOf run.old.unit (run_of run.old.state) run.old.stamp globals.old }
    requires room { 128 ≤ room_of out.old }
    ensures unit { run.new.unit ≡ run.old.unit }
    ensures declared { globals.new.declared ≡ globals.old.declared }
    ensures current { IsCurrentAsOf run.new.unit (run_of run.new.state) run.new.stamp globals.new }
    ensures room { 128 ≤ room_of out.new }
{
    let mut room = CommandRoom::new(alloc);
    run.apply(alloc, globals, &mut room, Moment(6), &command, out, steps);
}
