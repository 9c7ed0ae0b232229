//! What is admitted, and what is told.
ghost use Rattle.std.specs.Prelude.{◌≡◌, ◌≤◌, []};
ghost use Rattle.ld_base.specs.Roomy.{room_of};
ghost use Rattle.ld_firing.specs.RunSystem.{IsSoundRun};
ghost use Rattle.ld_sharing.specs.StoreView.{Serves};
ghost use Rattle.ld_state.specs.StateView.{IsStateOf, run_of};

use crate::begun::{Subject, begin, test};
use crate::units::check;
use ld_admission::{Admitted, Refusal, admit};
use ld_base::{NoMemory, Steps, Text};
use ld_cascade::Settled;
use ld_globals::Globals;
use ld_lines::RunCommand;
use ld_replies::{
    push_done, push_next, push_refusal, push_value, refuse, say_no_memory, tell_refusal,
};
use ld_rules::PreparedUnit;
use ld_state::State;
use ld_value::{Moment, Value};
use std::alloc::Global;
use std::sync::ledger::Ledger;
use std::test::Fail;

#[test]
fn refusals_are_told(rt: HostRuntime) -> Result<(), Fail> {
    let mut out = Text::with_room(rt.alloc(), 128)?;
    tell_refusals(rt.alloc(), &mut out)
}

/// Tells refusals and a value.
fn tell_refusals(alloc: Global, out: &mut Text) -> Result<(), Fail>
    requires room { 128 ≤ room_of out.old }
{
    tell_refusal(Refusal::NotOpen, out);
    check(out.as_str() == "no 31 not-open\n", "told")?;
    say_no_memory(out);
    check(out.as_str() == "no 99 no-memory\n", "want of memory")?;
    refuse(Refusal::RunFull, out)?;
    push_refusal(Refusal::MomentBack(Moment(0)), out)?;
    push_value(alloc, Some(&Value::Int(-7)), out)?;
    push_value(alloc, None, out)?;
    check(out.as_str() == TOLD, "refused")?;
    out.clear();
    push_next(TOTALS, Some(Moment(60)), out)?;
    push_next(TOTALS, None, out)?;
    check(out.as_str() == ALARMS, "alarms")?;
    check(
        Refusal::NotAllowed.number() == 22,
        "the number of a refusal",
    )
}

const TOLD: &str = "no 10 run-full
no 5 moment-back 1970-01-01T00:00:00Z\"-7\"none";

const ALARMS: &str = "ok next turns=1 fired=12 rejected=0 sent=345 at=1970-01-01T00:01:00Z\
ok next turns=1 fired=12 rejected=0 sent=345 at=none";

const TOTALS: Settled = Settled {
    turns: 1,
    fired: 12,
    rejected: 0,
    sent: 345,
};

#[test]
fn commands_are_admitted_and_told(rt: HostRuntime) -> Result<(), Fail> {
    test(rt.alloc(), Subject::Replies)
}

/// Asks a new run.
pub(crate) fn reply<L: Ledger>(
    alloc: Global,
    unit: &PreparedUnit,
    globals: &Globals,
    steps: &mut Steps<L>,
) -> Result<(), Fail>
    requires serves { Serves globals.now unit.now }
{
    let state = begin(alloc, unit, globals, steps)?;
    reply_of(alloc, unit, &state, steps)
}

/// Refuses the test where a run that is not started may not start, may be asked for a report, or is
/// told of otherwise than it should be.
fn reply_of<L: Ledger>(
    alloc: Global,
    unit: &PreparedUnit,
    state: &State,
    steps: &mut Steps<L>,
) -> Result<(), Fail>
    requires own { IsStateOf unit.now state.now }
    requires sound { IsSoundRun unit.now (run_of state.now) }
    requires silent { state.now.outbox ≡ [] }
{
    let start = checked_number(alloc, unit, state, RunCommand::Start, steps);
    check(start == 0, "it may start")?;
    let report = checked_number(alloc, unit, state, RunCommand::Report, steps);
    check(report == 6, "it is not started")?;
    let told = tells(alloc, unit, state, steps)?;
    check(told, "what is told")
}

/// The number of the refusal by the checks of the command; 0 where they admit it.
fn checked_number<L: Ledger>(
    alloc: Global,
    unit: &PreparedUnit,
    state: &State,
    command: RunCommand,
    steps: &mut Steps<L>,
) -> u8
    requires own { IsStateOf unit.now state.now }
    requires sound { IsSoundRun unit.now (run_of state.now) }
{
    match admit(alloc, unit, state, Moment(5), &command, steps) {
        Ok(_) => 0,
        Err(refusal) => refusal.number(),
    }
}

/// Whether it is told that time passed.
fn tells<L: Ledger>(
    alloc: Global,
    unit: &PreparedUnit,
    state: &State,
    steps: &mut Steps<L>,
) -> Result<bool, NoMemory>
    requires own { IsStateOf unit.now state.now }
    requires sound { IsSoundRun unit.now (run_of state.now) }
    requires silent { state.now.outbox ≡ [] }
{
    let mut out = Text::new(alloc);
    push_done(
        alloc,
        unit,
        state,
        &Admitted::Ticks,
        TOTALS,
        &mut out,
        steps,
    )?;
    Ok(out.as_str() == "ok tick turns=1 fired=12 rejected=0 sent=345")
}
