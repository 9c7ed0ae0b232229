//! What an admitted command does to its run.
ghost use Rattle.std.specs.Prelude.{◌≡◌, ◌+◌, ◌*◌, ◌≤◌, ◌++◌, ◌&&◌, [], length, Err, IfErr, IfOk, Ok, OnOk, false, true};
ghost use Rattle.ld_refs.specs.Checks.{IsValid};
ghost use Rattle.ld_roles.specs.declared.limit.TheConstants.{SEATS};
ghost use Rattle.ld_state.specs.RunState.{RunState};
ghost use Rattle.ld_state.specs.StateView.{HasSavedPersons, IsStateOf, run_of};
ghost use Rattle.ld_firing.specs.RunSystem.{IsSoundRun};
ghost use Rattle.ld_firing.specs.SettledView.{settlement_of};
ghost use Rattle.ld_firing.specs.Telling.{Tells};
ghost use Rattle.ld_settling.specs.RunLinking.{RunLinksFollow};
ghost use Rattle.ld_value.specs.Calendar.{IsMoment};
ghost use Rattle.ld_sharing.specs.Changes.{IsGivenBut};
ghost use Rattle.ld_sharing.specs.Current.{IsCurrentAsOf, written_count};
ghost use Rattle.ld_sharing.specs.Fitting.{HasFittingGlobals, TakesFitting};
ghost use Rattle.ld_sharing.specs.Globals.{taking_in};
ghost use Rattle.ld_sharing.specs.StoreView.{Serves, values_of};
ghost use Rattle.ld_admission.specs.Checks.{is_started};
ghost use Rattle.ld_admission.specs.Commands.{Admitted as Command};
ghost use Rattle.ld_admission.specs.AdmittedView.{IsPossible, admitted_of};
ghost use Rattle.ld_replies.specs.Printing.{IsPrintable, IsTellable};
ghost use Rattle.ld_run.specs.Changes.{directly_changed, has_change, renews_sites, written_directly};
ghost use Rattle.ld_run.specs.CleanBefore.{TellsChanges};
ghost use Rattle.ld_run.specs.CommandWork.{changing_steps, doing_steps, opening_steps, refreshed, restoring, shared_among, slots_if, steps_if};
ghost use Rattle.ld_run.specs.Running.{IsRunning, MayBeDone};
ghost use Rattle.ld_admission.specs.RefusalView.{RefusesWith, refusal_of};
ghost use Rattle.ld_admission.specs.Refusals.{NotOpen};
ghost use Rattle.ld_run.specs.RunStep.{at_moment, done_by, open_for_it, settled, settled_after};
ghost use Rattle.ld_run.specs.StageView.{done_with};

use crate::changes::change_directly;
use crate::command_room::Scratch;
use crate::settling::{Relinking, both, how_to_relink, is_started, settle_if, settles_after};
use ld_admission::{Admitted, Refusal};
use ld_base::{NoMemory, Steps};
use ld_cascade::Settled;
use ld_globals::Globals;
use ld_model::{CellName, View};
use ld_rules::PreparedUnit;
use ld_settling::RunLinks;
use ld_sharing::take_in;
use ld_state::State;
use ld_tree::is_open;
use ld_value::{Moment, Value};
use std::alloc::Global;
use std::sync::ledger::Ledger;

/// Does an admitted command, and gives the turns and sums of its settlings. The run has the store's
/// values then, but in the slots that the scratch has as written.
pub(crate) fn do_admitted<L: Ledger>(
    alloc: Global,
    unit: &PreparedUnit,
    state: &mut State,
    links: &mut RunLinks,
    globals: &Globals,
    stamp: u64,
    scratch: &mut Scratch,
    moment: Moment,
    command: &Admitted<'_>,
    steps: &mut Steps<L>,
) -> Result<Settled, Refusal<'static>>
    requires own { IsStateOf unit.now state.old }
    requires running { IsRunning unit.now (run_of state.old) links.old }
    requires serves { Serves globals.now unit.now }
    requires current { IsCurrentAsOf unit.now (run_of state.old) stamp globals.now }
    requires may { MayBeDone unit.now (run_of state.old) moment.0 (admitted_of command.now) }
    requires persons { HasSavedPersons state.old }
    ensures done { IfOk result (λ totals. done_by unit.now (run_of state.old)
        (values_of globals.now) moment.0 (admitted_of command.now)
        ≡ Ok (done_with unit.now (values_of globals.now) (admitted_of command.now) totals
        (run_of state.new))) }
    ensures refused { IfErr result (RefusesWith (done_by unit.now (run_of state.old)
        (values_of globals.now) moment.0 (admitted_of command.now))) }
    ensures running { OnOk result (IsRunning unit.now (run_of state.new) links.new) }
    ensures printable { IfErr result (λ refusal. IsPrintable (refusal_of refusal)) }
    ensures tellable { OnOk result
        (IsTellable unit.now (run_of state.new) (admitted_of command.now)) }
    ensures own { IsStateOf unit.now state.new }
    ensures kept { state.new.kept ≡ state.old.kept }
    ensures follows { renews_sites (admitted_of command.now) ≡ false
        → RunLinksFollow links.old links.new }
    ensures given { OnOk result
        (IsGivenBut unit.now (run_of state.new) globals.now scratch.new.written.items) }
    ensures cost { steps.new + restoring unit.now (run_of state.old) links.new
        ≤ steps.old + restoring unit.now (run_of state.old) links.old
        + doing_steps unit.now (run_of state.old) (values_of globals.now)
        (written_count globals.now stamp) moment.0 (admitted_of command.now) }
    ensures gives { OnOk result (steps.new + restoring unit.now (run_of state.old) links.new
        + 2 * shared_among unit.now scratch.new.written.items
        ≤ steps.old + restoring unit.now (run_of state.old) links.old
        + doing_steps unit.now (run_of state.old) (values_of globals.now)
        (written_count globals.now stamp) moment.0 (admitted_of command.now)) }
{
    let first = match settle_first(
        alloc, unit, state, links, globals, stamp, scratch, moment, steps,
    ) {
        Ok(settled) => settled,
        Err(refusal) => return Err(refusal),
    };
    if !is_open_for(unit, state, command, steps) {
        return Err(Refusal::NotOpen);
    }
    let second = match settle_changed(
        alloc, unit, state, links, globals, scratch, moment, command, steps,
    ) {
        Ok(settled) => settled,
        Err(refusal) => return Err(refusal),
    };
    match both(first, second) {
        Ok(totals) => Ok(totals),
        Err(_) => Err(Refusal::NoMemory),
    }
}

/// Keeps the moment as the run's last one, takes in the store's values that were written since the
/// stamp, and settles a run that is started. What was possible stays possible. Then the run has the
/// store's values but in the slots that the scratch has as written.
fn settle_first<L: Ledger>(
    alloc: Global,
    unit: &PreparedUnit,
    state: &mut State,
    links: &mut RunLinks,
    globals: &Globals,
    stamp: u64,
    scratch: &mut Scratch,
    moment: Moment,
    steps: &mut Steps<L>,
) -> Result<Settled, Refusal<'static>>
    requires own { IsStateOf unit.now state.old }
    requires running { IsRunning unit.now (run_of state.old) links.old }
    requires serves { Serves globals.now unit.now }
    requires current { IsCurrentAsOf unit.now (run_of state.old) stamp globals.now }
    requires moment { IsMoment moment.0 }
    ensures settled { IfOk result (λ totals. settled (is_started (run_of state.old)) unit.now
        (taking_in unit.now (values_of globals.now) (at_moment (run_of state.old) moment.0))
        ≡ Ok (settlement_of totals (run_of state.new))) }
    ensures refused { IfErr result (RefusesWith (settled (is_started (run_of state.old)) unit.now
        (taking_in unit.now (values_of globals.now) (at_moment (run_of state.old) moment.0)))) }
    ensures running { OnOk result (IsRunning unit.now (run_of state.new) links.new) }
    ensures stays { (command : Command) → OnOk result (IsPossible unit.now (run_of state.old) command
        → IsPossible unit.now (run_of state.new) command) }
    ensures printable { IfErr result (λ refusal. IsPrintable (refusal_of refusal)) }
    ensures own { IsStateOf unit.now state.new }
    ensures rows { state.new.rows ≡ state.old.rows }
    ensures kept { state.new.kept ≡ state.old.kept }
    ensures follows { RunLinksFollow links.old links.new }
    ensures given { OnOk result
        (IsGivenBut unit.now (run_of state.new) globals.now scratch.new.written.items) }
    ensures fired { OnOk result (scratch.new.written.items
        ≡ slots_if (is_started (run_of state.old)) unit.now
        (refreshed unit.now (values_of globals.now) (run_of state.old) moment.0)) }
    ensures cost { steps.new + restoring unit.now (run_of state.old) links.new
        ≤ steps.old + restoring unit.now (run_of state.old) links.old
        + (3 * written_count globals.now stamp + 1)
        + steps_if (is_started (run_of state.old)) false unit.now (run_of state.old)
        (run_of state.old)
        (refreshed unit.now (values_of globals.now) (run_of state.old) moment.0) }
{
    scratch.told.clear();
    scratch.written.clear();
    let told = &mut scratch.told;
    if let Err(_) = refresh(alloc, unit, state, globals, stamp, moment, told, steps) {
        return Err(Refusal::NoMemory);
    }
    let started = is_started(unit, state, steps);
    settle_if(
        alloc,
        started,
        Relinking::Told,
        unit,
        state,
        links,
        scratch,
        steps,
    )
}

/// Makes the command's direct change, and settles the run after it, where there was one and the run
/// is started. What the scratch has as written stays there, with what is written now.
fn settle_changed<L: Ledger>(
    alloc: Global,
    unit: &PreparedUnit,
    state: &mut State,
    links: &mut RunLinks,
    globals: &Globals,
    scratch: &mut Scratch,
    moment: Moment,
    command: &Admitted<'_>,
    steps: &mut Steps<L>,
) -> Result<Settled, Refusal<'static>>
    requires own { IsStateOf unit.now state.old }
    requires running { IsRunning unit.now (run_of state.old) links.old }
    requires serves { Serves globals.now unit.now }
    requires may { MayBeDone unit.now (run_of state.old) moment.0 (admitted_of command.now) }
    requires persons { HasSavedPersons state.old }
    requires given { IsGivenBut unit.now (run_of state.old) globals.now scratch.old.written.items }
    ensures settled { IfOk result (λ totals. settled_after unit.now (values_of globals.now)
        (run_of state.old) moment.0 (admitted_of command.now)
        ≡ Ok (settlement_of totals (run_of state.new))) }
    ensures refused { IfErr result (RefusesWith (settled_after unit.now (values_of globals.now)
        (run_of state.old) moment.0 (admitted_of command.now))) }
    ensures running { OnOk result (IsRunning unit.now (run_of state.new) links.new) }
    ensures tellable { OnOk result
        (IsTellable unit.now (run_of state.new) (admitted_of command.now)) }
    ensures printable { IfErr result (λ refusal. IsPrintable (refusal_of refusal)) }
    ensures own { IsStateOf unit.now state.new }
    ensures kept { state.new.kept ≡ state.old.kept }
    ensures follows { renews_sites (admitted_of command.now) ≡ false
        → RunLinksFollow links.old links.new }
    ensures given { OnOk result
        (IsGivenBut unit.now (run_of state.new) globals.now scratch.new.written.items) }
    ensures fired { let now = directly_changed unit.now (values_of globals.now)
        (run_of state.old) moment.0 (admitted_of command.now) in
        OnOk result (scratch.new.written.items ≡ (scratch.old.written.items
        ++ written_directly (admitted_of command.now) scratch.new.told.items)
        ++ slots_if (has_change (admitted_of command.now) && is_started now) unit.now now) }
    ensures cost { let now = directly_changed unit.now (values_of globals.now)
        (run_of state.old) moment.0 (admitted_of command.now) in
        (begun : RunState) → begun.seats ≡ SEATS
        → steps.new + restoring unit.now begun links.new
        ≤ steps.old + restoring unit.now begun links.old
        + (changing_steps unit.now (admitted_of command.now) + 1)
        + steps_if (has_change (admitted_of command.now) && is_started now)
        (renews_sites (admitted_of command.now)) unit.now begun (run_of state.old) now }
    ensures gives { let now = directly_changed unit.now (values_of globals.now)
        (run_of state.old) moment.0 (admitted_of command.now) in
        (begun : RunState) → begun.seats ≡ SEATS
        → OnOk result (steps.new + restoring unit.now begun links.new
        + 2 * length (written_directly (admitted_of command.now) scratch.new.told.items)
        ≤ steps.old + restoring unit.now begun links.old
        + (changing_steps unit.now (admitted_of command.now) + 1)
        + steps_if (has_change (admitted_of command.now) && is_started now)
        (renews_sites (admitted_of command.now)) unit.now begun (run_of state.old) now) }
{
    let before = state.persons();
    scratch.told.clear();
    let told = &mut scratch.told;
    if let Err(_) = change_directly(alloc, unit, state, globals, moment, command, told, steps) {
        return Err(Refusal::NoMemory);
    }
    if let Err(_) = add_written(command, &scratch.told, &mut scratch.written) {
        return Err(Refusal::NoMemory);
    }
    let settles = settles_after(unit, state, command, steps);
    let how = how_to_relink(command, before);
    settle_if(alloc, settles, how, unit, state, links, scratch, steps)
}

/// Adds the slots that the command changed directly, where it writes a property: any other leaves
/// the values that the store may have.
fn add_written(command: &Admitted<'_>, told: &[u32], written: &mut Vec<u32>) -> Result<(), NoMemory>
    ensures { OnOk result (written.new.items
        ≡ written.old.items ++ written_directly (admitted_of command.now) told.now) }
{
    match command {
        Admitted::Sets(_, _) | Admitted::Clears(_) => {
            written.extend_from_slice(told)?;
            Ok(())
        }
        _ => Ok(()),
    }
}

/// Keeps the moment as the run's last one, and takes in the store's values that were written since
/// the stamp.
fn refresh<L: Ledger>(
    alloc: Global,
    unit: &PreparedUnit,
    state: &mut State,
    globals: &Globals,
    stamp: u64,
    moment: Moment,
    changed: &mut Vec<u32>,
    steps: &mut Steps<L>,
) -> Result<(), NoMemory>
    requires own { IsStateOf unit.now state.old }
    requires sound { IsSoundRun unit.now (run_of state.old) }
    requires fitting { HasFittingGlobals unit.now (run_of state.old) }
    requires serves { Serves globals.now unit.now }
    requires current { IsCurrentAsOf unit.now (run_of state.old) stamp globals.now }
    requires moment { IsMoment moment.0 }
    ensures run { OnOk result (run_of state.new
        ≡ taking_in unit.now (values_of globals.now) (at_moment (run_of state.old) moment.0)) }
    ensures takes { OnOk result
        (TakesFitting unit.now (values_of globals.now) (run_of state.old).persons) }
    ensures own { IsStateOf unit.now state.new }
    ensures rows { state.new.rows ≡ state.old.rows }
    ensures kept { state.new.kept ≡ state.old.kept }
    ensures told { OnOk result (Tells unit.now (run_of state.old) (run_of state.new)
        changed.old.items changed.new.items) }
    ensures only { OnOk result (changed.old.items ≡ []
        → TellsChanges unit.now (run_of state.old) (run_of state.new) changed.new.items) }
    ensures cost { steps.new ≤ steps.old + 3 * written_count globals.now stamp }
{
    set_moment(unit, state, moment, changed)?;
    take_in(alloc, unit, state, globals, stamp, changed, steps)
}

/// Keeps the moment as the run's last one.
fn set_moment(
    unit: &PreparedUnit,
    state: &mut State,
    moment: Moment,
    changed: &mut Vec<u32>,
) -> Result<(), NoMemory>
    requires own { IsStateOf unit.now state.old }
    requires sound { IsSoundRun unit.now (run_of state.old) }
    requires moment { IsMoment moment.0 }
    ensures run { OnOk result (run_of state.new ≡ at_moment (run_of state.old) moment.0) }
    ensures sound { OnOk result (IsSoundRun unit.now (run_of state.new)) }
    ensures own { IsStateOf unit.now state.new }
    ensures rows { state.new.rows ≡ state.old.rows }
    ensures kept { state.new.kept ≡ state.old.kept }
    ensures told { OnOk result (Tells unit.now (run_of state.old) (run_of state.new)
        changed.old.items changed.new.items) }
    ensures only { OnOk result (changed.old.items ≡ []
        → TellsChanges unit.now (run_of state.old) (run_of state.new) changed.new.items) }
{
    state.set(CellName::Now, Some(Value::Moment(moment)), changed)
}

/// Whether what the command opens or completes is open for its person.
fn is_open_for<L: Ledger>(
    unit: &PreparedUnit,
    state: &State,
    command: &Admitted<'_>,
    steps: &mut Steps<L>,
) -> bool
    requires own { IsStateOf unit.now state.now }
    requires valid { IsValid unit.now }
    requires possible { IsPossible unit.now (run_of state.now) (admitted_of command.now) }
    ensures open { result ≡ true
        → open_for_it unit.now (run_of state.now) (admitted_of command.now) ≡ Ok tt }
    ensures closed { result ≡ false
        → open_for_it unit.now (run_of state.now) (admitted_of command.now) ≡ Err NotOpen }
    ensures cost { steps.new ≤ steps.old + opening_steps unit.now (admitted_of command.now) }
{
    match command {
        Admitted::Opens(person, thing) | Admitted::Completes(person, thing) => {
            is_open(unit.scope(state), *person, *thing, steps)
        }
        _ => true,
    }
}
