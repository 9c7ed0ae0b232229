//! What is told of the next alarm of a run.
ghost use Rattle.std.specs.Prelude.{◌≡◌, ◌+◌, ◌≤◌, ◌++◌, ◌∷◌, [], OnOk, true};
ghost use Rattle.ld_base.specs.Roomy.{KeepsRoom};
ghost use Rattle.ld_state.specs.StateView.{IsStateOf, run_of};
ghost use Rattle.ld_firing.specs.SettledView.{sums_in};
ghost use Rattle.ld_alarm.specs.NextAlarm.{next_alarm};
ghost use Rattle.ld_admission.specs.Checks.{is_started};
ghost use Rattle.ld_replies.specs.Replies.{next_line};
ghost use Rattle.ld_run.specs.AlarmWork.{steps_for_alarm};
ghost use Rattle.ld_run.specs.Running.{IsRunning};

use ld_base::{NoMemory, Steps, Text};
use ld_cascade::Settled;
use ld_model::View;
use ld_next::{NOW_SLOT, next_alarm};
use ld_replies::push_next;
use ld_rules::PreparedUnit;
use ld_settling::RunLinks;
use ld_state::State;
use std::alloc::Global;
use std::sync::ledger::Ledger;

/// Empties the text and tells a `next` that was done, of a run that is started: it asks the sites
/// for their alarms which read the moment, and no others.
pub(crate) fn tell_next<L: Ledger>(
    alloc: Global,
    unit: &PreparedUnit,
    state: &State,
    links: &RunLinks,
    totals: Settled,
    out: &mut Text,
    steps: &mut Steps<L>,
) -> Result<(), NoMemory>
    requires own { IsStateOf unit.now state.now }
    requires running { IsRunning unit.now (run_of state.now) links.now }
    requires started { is_started (run_of state.now) ≡ true }
    ensures text { OnOk result (out.new.bytes
        ≡ next_line (next_alarm unit.now (run_of state.now)) totals.turns (sums_in totals) ++ 10 ∷ []) }
    ensures room { KeepsRoom out.old out.new }
    ensures cost { steps.new ≤ steps.old + steps_for_alarm unit.now (run_of state.now) }
{
    let next = next_alarm(alloc, unit, state, links.readers(NOW_SLOT), steps);
    out.clear();
    push_next(totals, next, out)?;
    out.push("\n")
}
