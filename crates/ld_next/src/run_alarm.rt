//! The next alarm of a run.
ghost use Rattle.std.specs.Prelude.{◌≡◌, ℕ, ◌+◌, ◌≤◌, option_map, false, sum_by, Contains};
ghost use Rattle.ld_state.specs.StateView.{IsStateOf, run_of};
ghost use Rattle.ld_cascade.specs.System.{fires};
ghost use Rattle.ld_firing.specs.RunSystem.{IsSoundRun, run_system};
ghost use Rattle.ld_alarm.specs.Later.{earliest_of};
ghost use Rattle.ld_alarm.specs.NextAlarm.{next_alarm};
ghost use Rattle.ld_next.specs.Alarms.{alarm_at, alarm_steps_at, ReadsNow};

use ld_alarm::{alarm, earlier};
use ld_base::Steps;
use ld_graph::readers::Readers;
use ld_rules::PreparedUnit;
use ld_settling::site_of_number;
use ld_state::State;
use ld_value::Moment;
use std::alloc::Global;
use std::sync::ledger::Ledger;

/// The slot of the cell `Now`, in every run.
pub const NOW_SLOT: u32 = 1;

/// The first moment after `Now`, up to 9999-12-31T23:59:59Z, at which some site of the run is due,
/// where `Now` alone is put to that moment; None exactly where there is none. No site may be due
/// now, and the readers are those of `NOW_SLOT`: only they are asked, at most (2n + 2)(n + 1) steps
/// each, where the site's rule asks to look at n cells. It never fails for want of memory.
/// (docs/MEANING.md, "The next alarm")
pub fn next_alarm<L: Ledger>(
    alloc: Global,
    unit: &PreparedUnit,
    state: &State,
    readers: Readers<'_>,
    steps: &mut Steps<L>,
) -> Option<Moment>
    requires own { IsStateOf unit.now state.now }
    requires sound { IsSoundRun unit.now (run_of state.now) }
    requires quiet { (i : ℕ) → fires (run_system unit.now) (run_of state.now) i ≡ false }
    requires readers { (i : ℕ) → ReadsNow unit.now (run_of state.now) i → Contains readers i }
    ensures value { option_map (λ moment. moment.0) result
        ≡ next_alarm unit.now (run_of state.now) }
    ensures cost { steps.new ≤ steps.old
        + sum_by (alarm_steps_at unit.now (run_of state.now)) readers.entry }
{
    earliest_of(alloc, unit, state, readers, steps)
}

/// The earliest of the alarms of the sites of these numbers.
fn earliest_of<L: Ledger>(
    alloc: Global,
    unit: &PreparedUnit,
    state: &State,
    readers: Readers<'_>,
    steps: &mut Steps<L>,
) -> Option<Moment>
    requires own { IsStateOf unit.now state.now }
    requires sound { IsSoundRun unit.now (run_of state.now) }
    ensures value { option_map (λ moment. moment.0) result
        ≡ earliest_of (alarm_at unit.now (run_of state.now)) readers.entry }
    ensures cost { steps.new ≤ steps.old
        + sum_by (alarm_steps_at unit.now (run_of state.now)) readers.entry }
{
    let mut next = None;
    for number in readers {
        let own = alarm_of_number(alloc, unit, state, number, steps);
        next = earlier(next, own);
    }
    next
}

/// The alarm of the site of this number; a number that no site has has none.
fn alarm_of_number<L: Ledger>(
    alloc: Global,
    unit: &PreparedUnit,
    state: &State,
    number: u32,
    steps: &mut Steps<L>,
) -> Option<Moment>
    requires own { IsStateOf unit.now state.now }
    requires sound { IsSoundRun unit.now (run_of state.now) }
    ensures value { option_map (λ moment. moment.0) result
        ≡ alarm_at unit.now (run_of state.now) number }
    ensures cost { steps.new ≤ steps.old + alarm_steps_at unit.now (run_of state.now) number }
{
    match site_of_number(unit, state, number) {
        Some(site) => alarm(alloc, unit, site, state, steps),
        None => None,
    }
}
