//! The settlings of a command.
ghost use Rattle.std.specs.Prelude.{◌≡◌, ◌+◌, ◌++◌, ◌≤◌, ◌&&◌, ℕ, IfErr, IfOk, Ok, OnOk, false, true};
ghost use Rattle.ld_graph.specs.Table.{has};
ghost use Rattle.ld_state.specs.StateView.{IsStateOf, run_of};
ghost use Rattle.ld_firing.specs.RunSystem.{IsSoundRun};
ghost use Rattle.ld_roles.specs.declared.limit.TheConstants.{SEATS};
ghost use Rattle.ld_state.specs.RunState.{RunState};
ghost use Rattle.ld_run.specs.CleanBefore.{MayCount};
ghost use Rattle.ld_run.specs.CommandWork.{judged_first, restoring, slots_if, steps_if};
ghost use Rattle.ld_firing.specs.SettledView.{settlement_of, sums_in};
ghost use Rattle.ld_cascade.specs.Settling.{plus};
ghost use Rattle.ld_settling.specs.RunLinking.{AreCleanLinks, AreLinksOf, RunLinksFollow, RunWiring};
ghost use Rattle.ld_settling.specs.SettlingTold.{TellsSlots};
ghost use Rattle.ld_admission.specs.AdmittedView.{admitted_of};
ghost use Rattle.ld_admission.specs.Checks.{is_started};
ghost use Rattle.ld_run.specs.Changes.{has_change};
ghost use Rattle.ld_run.specs.Linked.{HasLinks, MayRelink, relinking_of, relinks_all};
ghost use Rattle.ld_replies.specs.Printing.{IsPrintable};
ghost use Rattle.ld_admission.specs.RefusalView.{RefusesWith, refusal_of};
ghost use Rattle.ld_run.specs.Running.{IsInOrder, IsRunning};
ghost use Rattle.ld_run.specs.RunStep.{settled};

use crate::command_room::Scratch;
use ld_admission::{Admitted, Refusal};
use ld_base::{NoMemory, Steps};
use ld_cascade::{Settled, Stop};
use ld_model::{CellName, View};
use ld_rules::PreparedUnit;
use ld_settling::{RunLinks, restore, settle};
use ld_state::State;
use std::alloc::Global;
use std::sync::ledger::Ledger;

/// How the links of a run follow a change of it: told the slots that changed; told them, where
/// persons joined or got or lost roles, of whom there were this many before; or by renewing all
/// sites.
#[derive(Clone, Copy)]
pub(crate) enum Relinking {
    Told,
    ToldPersons(u32),
    Renewed,
}

/// Settles the run, where it is to. Its links are told what changed before, which the scratch
/// has, or all of its sites are renewed. What changes now is added to what the scratch has as
/// written.
pub(crate) fn settle_if<L: Ledger>(
    alloc: Global,
    settles: bool,
    how: Relinking,
    unit: &PreparedUnit,
    state: &mut State,
    links: &mut RunLinks,
    scratch: &mut Scratch,
    steps: &mut Steps<L>,
) -> Result<Settled, Refusal<'static>>
    requires own { IsStateOf unit.now state.old }
    requires order { IsInOrder unit.now (run_of state.old) }
    requires started { settles ≡ true → is_started (run_of state.old) ≡ true }
    requires told { settles ≡ true
        → MayRelink how unit.now (run_of state.old) scratch.old.told.items links.old }
    requires linked { settles ≡ false → HasLinks unit.now (run_of state.old) links.old }
    ensures settled { IfOk result (λ totals. settled settles unit.now (run_of state.old)
        ≡ Ok (settlement_of totals (run_of state.new))) }
    ensures refused { IfErr result (RefusesWith (settled settles unit.now (run_of state.old))) }
    ensures running { OnOk result (IsRunning unit.now (run_of state.new) links.new) }
    ensures printable { IfErr result (λ refusal. IsPrintable (refusal_of refusal)) }
    ensures own { IsStateOf unit.now state.new }
    ensures rows { state.new.rows ≡ state.old.rows }
    ensures kept { state.new.kept ≡ state.old.kept }
    ensures follows { relinks_all how ≡ false → RunLinksFollow links.old links.new }
    ensures written { OnOk result (TellsSlots unit.now (run_of state.old) (run_of state.new)
        scratch.old.written.items scratch.new.written.items) }
    ensures fired { OnOk result (scratch.new.written.items ≡ scratch.old.written.items
        ++ slots_if settles unit.now (run_of state.old)) }
    ensures told { scratch.new.told.items ≡ scratch.old.told.items }
    ensures cost { (begun before : RunState) → begun.seats ≡ SEATS
        → (settles ≡ true → MayCount how unit.now before (run_of state.old)
        scratch.old.told.items links.old)
        → steps.new + restoring unit.now begun links.new
        ≤ steps.old + restoring unit.now begun links.old
        + steps_if settles (relinks_all how) unit.now begun before (run_of state.old) }
{
    if !settles {
        return Ok(NO_SETTLING);
    }
    if let Err(_) = relink(how, unit, state, links, &scratch.told) {
        return Err(Refusal::NoMemory);
    }
    match settle(alloc, unit, state, links, &mut scratch.written, steps) {
        Ok(totals) => Ok(totals),
        Err(stop) => Err(refusal_of_stop(stop)),
    }
}

/// The refusal of a command whose settling stopped so: each cause has its own.
fn refusal_of_stop(stop: Stop) -> Refusal<'static>
    ensures budget { stop ≡ Stop.TurnBudget → result ≡ Refusal.TurnBudget }
    ensures memory { stop ≡ Stop.NoMemory → result ≡ Refusal.NoMemory }
{
    match stop {
        Stop::TurnBudget => Refusal::TurnBudget,
        Stop::NoMemory => Refusal::NoMemory,
    }
}

/// Makes the links those of the run as it is now: all of its sites are dirty then, or the readers
/// of the slots that changed and the sites of persons who joined. After an error, which is out of
/// memory, nothing is said of the links where all sites were to be renewed.
fn relink(
    how: Relinking,
    unit: &PreparedUnit,
    state: &State,
    links: &mut RunLinks,
    changed: &[u32],
) -> Result<(), NoMemory>
    requires own { IsStateOf unit.now state.now }
    requires sound { IsSoundRun unit.now (run_of state.now) }
    requires told { MayRelink how unit.now (run_of state.now) changed.now links.old }
    ensures linked { OnOk result (AreLinksOf unit.now (run_of state.now) links.new) }
    ensures follows { relinks_all how ≡ false → RunLinksFollow links.old links.new }
    ensures dirties { (before : RunState)
        → MayCount how unit.now before (run_of state.now) changed.now links.old → (i : ℕ)
        → has links.new.wiring.dirty i ≡ true
        → judged_first (relinks_all how) unit.now before (run_of state.now) i ≡ true }
    ensures relinked { (i : ℕ) → has links.new.wiring.relinked i ≡ true
        → has links.old.wiring.relinked i ≡ true }
{
    match how {
        Relinking::Told => {
            links.tell(changed);
            Ok(())
        }
        Relinking::ToldPersons(before) => links.tell_persons(unit, state, before, changed),
        Relinking::Renewed => links.renew(unit, state),
    }
}

/// Makes the links those of the run as it was where they began, once its state was rolled back: a
/// started run's are restored, and one that is not started keeps no edge. It takes no memory.
pub(crate) fn take_back<L: Ledger>(
    alloc: Global,
    unit: &PreparedUnit,
    state: &mut State,
    links: &mut RunLinks,
    steps: &mut Steps<L>,
)
    requires own { IsStateOf unit.now state.old }
    requires sound { IsSoundRun unit.now (run_of state.old) }
    requires begun { is_started (run_of state.old) ≡ true
        → (begun : RunWiring) × AreCleanLinks unit.now (run_of state.old) begun
        × RunLinksFollow begun links.old }
    ensures run { run_of state.new ≡ run_of state.old }
    ensures own { IsStateOf unit.now state.new }
    ensures kept { state.new.kept ≡ state.old.kept }
    ensures linked { HasLinks unit.now (run_of state.new) links.new }
    ensures cost { steps.new ≤ steps.old + 1 + restoring unit.now (run_of state.old) links.old }
{
    if is_started(unit, state, steps) {
        restore(alloc, unit, state, links, steps);
        return;
    }
    links.clear();
}

/// The numbers of a settling of which there was none.
const NO_SETTLING: Settled = Settled {
    turns: 0,
    fired: 0,
    rejected: 0,
    sent: 0,
};

/// Whether the run settles once the command has changed it.
pub(crate) fn settles_after<L: Ledger>(
    unit: &PreparedUnit,
    state: &State,
    command: &Admitted<'_>,
    steps: &mut Steps<L>,
) -> bool
    requires { IsStateOf unit.now state.now }
    ensures value { result ≡ has_change (admitted_of command.now) && is_started (run_of state.now) }
    ensures cost { steps.new ≤ steps.old + 1 }
{
    if !has_change(command) {
        return false;
    }
    is_started(unit, state, steps)
}

/// Whether the command changes the run directly, and not by what it sets off alone.
fn has_change(command: &Admitted<'_>) -> bool
    ensures { result ≡ has_change (admitted_of command.now) }
{
    match command {
        Admitted::Gets(_)
        | Admitted::ShowsTree(_)
        | Admitted::ShowsOutbox(_)
        | Admitted::Reports
        | Admitted::Ticks
        | Admitted::ShowsNext => false,
        _ => true,
    }
}

/// How the links follow what the command changed in a run that had this many persons.
pub(crate) fn how_to_relink(command: &Admitted<'_>, before: u32) -> Relinking
    ensures { result ≡ relinking_of (admitted_of command.now) before }
{
    match command {
        Admitted::Enrols(_) | Admitted::Assigns(_, _) | Admitted::Drops(_, _) =>
            Relinking::ToldPersons(before),
        Admitted::Starts => Relinking::Renewed,
        _ => Relinking::Told,
    }
}

/// Whether the run is started.
pub(crate) fn is_started<L: Ledger>(
    unit: &PreparedUnit,
    state: &State,
    steps: &mut Steps<L>,
) -> bool
    requires { IsStateOf unit.now state.now }
    ensures value { result ≡ is_started (run_of state.now) }
    ensures cost { steps.new ≡ steps.old + 1 }
{
    match state.get(CellName::Started, steps) {
        Some(_) => true,
        None => false,
    }
}

/// The turns and sums of two settlings together; NoMemory where one of them passes the range of its
/// number, for which no memory would do.
pub(crate) fn both(first: Settled, second: Settled) -> Result<Settled, NoMemory>
    ensures turns { IfOk result (λ sum. sum.turns ≡ first.turns + second.turns) }
    ensures sums { IfOk result (λ sum. sums_in sum ≡ plus (sums_in first) (sums_in second)) }
{
    Ok(Settled {
        turns: first.turns.checked_add(second.turns).ok_or(NoMemory)?,
        fired: first.fired.checked_add(second.fired).ok_or(NoMemory)?,
        rejected: first.rejected.checked_add(second.rejected).ok_or(NoMemory)?,
        sent: first.sent.checked_add(second.sent).ok_or(NoMemory)?,
    })
}
