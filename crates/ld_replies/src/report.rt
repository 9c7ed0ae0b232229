//! The lines of a report.
ghost use Rattle.std.specs.Prelude.{◌≡◌, ◌+◌, ◌≤◌, ◌∷◌, [], codes, decimal, fold, OnOk};
ghost use Rattle.ld_state.specs.StateView.{IsStateOf, run_of};
ghost use Rattle.ld_firing.specs.RunSystem.{IsSoundRun};
ghost use Rattle.ld_replies.specs.Printed.{printed_after};
ghost use Rattle.ld_replies.specs.Reports.{report_lines};
ghost use Rattle.ld_replies.specs.ShownSteps.{report_steps};

use crate::method_lines::Reporter;
use crate::printed::Lines;
use crate::role_lines::put_roles;
use ld_base::{NoMemory, Steps};
use ld_rules::PreparedUnit;
use ld_state::State;
use std::alloc::Global;
use std::sync::ledger::Ledger;

/// Puts the lines of the report on the run. (docs/COMMANDS.md, "Replies")
pub(crate) fn put_report<L: Ledger>(
    alloc: Global,
    unit: &PreparedUnit,
    state: &State,
    lines: &mut Lines,
    steps: &mut Steps<L>,
) -> Result<(), NoMemory>
    requires own { IsStateOf unit.now state.now }
    requires sound { IsSoundRun unit.now (run_of state.now) }
    ensures lines { OnOk result (lines.new
        ≡ fold printed_after lines.old (report_lines unit.now (run_of state.now))) }
    ensures cost { steps.new ≤ steps.old + report_steps unit.now }
{
    let reporter = Reporter {
        scope: unit.scope(state),
    };
    reporter.put_start(lines, steps)?;
    put_roles(alloc, unit.unit().roles.as_slice(), state.roster(), lines)?;
    reporter.put_plays(unit.unit().method.plays.as_slice(), lines, steps)?;
    reporter.put_unit(lines, steps)?;
    put_sent(state.outbox().len(), lines)?;
    Ok(())
}

/// Puts how many notices were sent.
fn put_sent(count: usize, lines: &mut Lines) -> Result<(), NoMemory>
    ensures { OnOk result (lines.new
        ≡ printed_after lines.old (codes "notices" ∷ decimal count ∷ [])) }
{
    lines.begin("notices")?;
    lines.add_number(count as u64)?;
    Ok(())
}
