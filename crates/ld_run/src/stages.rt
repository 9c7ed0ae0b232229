//! What a command does to its run and to the store, in stages.
ghost use Rattle.std.specs.Prelude.{◌≡◌, ◌+◌, ◌≤◌, ◌++◌, ◌∷◌, [], false, Err, IfErr, IfOk, None, Ok, OnErr, OnOk};
ghost use Rattle.ld_base.specs.Roomy.{KeepsRoom};
ghost use Rattle.ld_globals.specs.Store.{KeepsWrites};
ghost use Rattle.ld_state.specs.GlobalValues.{GlobalValues};
ghost use Rattle.ld_state.specs.StateView.{HasSavedPersons, IsStateOf, run_of};
ghost use Rattle.ld_settling.specs.RunLinking.{RunLinksFollow};
ghost use Rattle.ld_value.specs.Calendar.{IsMoment};
ghost use Rattle.ld_sharing.specs.Current.{IsCurrentAsOf, written_count};
ghost use Rattle.ld_sharing.specs.Globals.{giving_back};
ghost use Rattle.ld_sharing.specs.StoreView.{Serves, values_of};
ghost use Rattle.ld_sharing.specs.Writes.{AreWritesOf};
ghost use Rattle.ld_admission.specs.AdmittedView.{admitted_of, wants_memory};
ghost use Rattle.ld_replies.specs.Printing.{IsPrintable, IsTellable, asks_alarm};
ghost use Rattle.ld_run.specs.Changes.{renews_sites};
ghost use Rattle.ld_run.specs.CommandWork.{admitted_steps, command_steps_of, doing_steps, restoring, showing_steps, telling_steps};
ghost use Rattle.ld_admission.specs.RefusalView.{RefusesWith, refusal_of};
ghost use Rattle.ld_admission.specs.Checks.{admitted};
ghost use Rattle.ld_admission.specs.Refusals.{Refusal as Reason};
ghost use Rattle.ld_run.specs.Reply.{IsRefusedWith, numbers_of};
ghost use Rattle.ld_run.specs.RunView.{done_text};
ghost use Rattle.ld_run.specs.Running.{IsInOrder, IsRunning, MayBeDone};
ghost use Rattle.ld_run.specs.RunStep.{DoneCommand, done_by, run_step};
ghost use Rattle.ld_run.specs.StageView.{done_with};

use crate::alarm::tell_next;
use crate::command_room::Scratch;
use crate::doing::do_admitted;
use crate::settling::take_back;
use ld_admission::{Admitted, Refusal, admit};
use ld_base::{NoMemory, Steps, Text};
use ld_cascade::Settled;
use ld_globals::Globals;
use ld_lines::RunCommand;
use ld_replies::push_done;
use ld_rules::PreparedUnit;
use ld_settling::RunLinks;
use ld_sharing::{Write, give_back, prepare};
use ld_state::State;
use ld_value::Moment;
use std::alloc::Global;
use std::sync::ledger::Ledger;

/// Does the command at the moment: `out` is emptied and then holds the reply block. The run takes
/// in the store's values that were written since the stamp, and the store takes the run's. A refusal
/// leaves the run and the store's values as they were.
pub(crate) fn step<'a, L: Ledger>(
    alloc: Global,
    unit: &'a PreparedUnit,
    state: &mut State,
    links: &mut RunLinks,
    globals: &mut Globals,
    stamp: u64,
    scratch: &mut Scratch,
    moment: Moment,
    command: &'a RunCommand,
    out: &mut Text,
    steps: &mut Steps<L>,
) -> Result<Settled, Refusal<'a>>
    requires own { IsStateOf unit.now state.old }
    requires running { IsRunning unit.now (run_of state.old) links.old }
    requires serves { Serves globals.old unit.now }
    requires current { IsCurrentAsOf unit.now (run_of state.old) stamp globals.old }
    requires moment { IsMoment moment.0 }
    requires no_savepoint { state.old.kept ≡ None }
    ensures done { IfOk result (λ totals. (d : DoneCommand) × (run_step unit.now (run_of state.old)
        (values_of globals.old) moment.0 command.now ≡ Ok d) × (run_of state.new ≡ d.state)
        × (values_of globals.new ≡ d.store) × (out.new.bytes ≡ done_text unit.now d ++ 10 ∷ [])
        × (totals ≡ numbers_of d.turns d.sums)) }
    ensures refused { IfErr result (RefusesWith
        (run_step unit.now (run_of state.old) (values_of globals.old) moment.0 command.now)) }
    ensures checked { (refusal : Reason)
        → admitted unit.now (run_of state.old) moment.0 command.now ≡ Err refusal
        → wants_memory command.now ≡ false → IsRefusedWith refusal result }
    ensures back { OnErr result (run_of state.new ≡ run_of state.old) }
    ensures untouched { OnErr result (values_of globals.new ≡ values_of globals.old) }
    ensures given { OnOk result (values_of globals.new
        ≡ giving_back unit.now (run_of state.new) (values_of globals.old)) }
    ensures declared { globals.new.declared ≡ globals.old.declared }
    ensures stamps { KeepsWrites globals.old globals.new }
    ensures own { IsStateOf unit.now state.new }
    ensures running { IsRunning unit.now (run_of state.new) links.new }
    ensures printable { IfErr result (λ refusal. IsPrintable (refusal_of refusal)) }
    ensures no_savepoint { state.new.kept ≡ None }
    ensures room { KeepsRoom out.old out.new }
    ensures cost { steps.new ≤ steps.old + command_steps_of unit.now (run_of state.old)
        (values_of globals.old) (written_count globals.old stamp) moment.0 command.now }
{
    match admit(alloc, unit, state, moment, command, steps) {
        Ok(admitted) => try_admitted(
            alloc, unit, state, links, globals, stamp, scratch, moment, &admitted, out, steps,
        ),
        Err(refusal) => Err(refusal),
    }
}

/// Does an admitted command and tells it, over a savepoint. A refusal leaves the run and the
/// store's values as they were.
fn try_admitted<'a, L: Ledger>(
    alloc: Global,
    unit: &PreparedUnit,
    state: &mut State,
    links: &mut RunLinks,
    globals: &mut Globals,
    stamp: u64,
    scratch: &mut Scratch,
    moment: Moment,
    command: &Admitted<'_>,
    out: &mut Text,
    steps: &mut Steps<L>,
) -> Result<Settled, Refusal<'a>>
    requires own { IsStateOf unit.now state.old }
    requires running { IsRunning unit.now (run_of state.old) links.old }
    requires serves { Serves globals.old unit.now }
    requires current { IsCurrentAsOf unit.now (run_of state.old) stamp globals.old }
    requires may { MayBeDone unit.now (run_of state.old) moment.0 (admitted_of command.now) }
    requires no_savepoint { state.old.kept ≡ None }
    ensures done { IfOk result (λ totals. (d : DoneCommand) × (done_by unit.now (run_of state.old)
        (values_of globals.old) moment.0 (admitted_of command.now) ≡ Ok d)
        × (run_of state.new ≡ d.state) × (values_of globals.new ≡ d.store)
        × (out.new.bytes ≡ done_text unit.now d ++ 10 ∷ [])
        × (totals ≡ numbers_of d.turns d.sums)) }
    ensures refused { IfErr result (RefusesWith (done_by unit.now (run_of state.old)
        (values_of globals.old) moment.0 (admitted_of command.now))) }
    ensures back { OnErr result (run_of state.new ≡ run_of state.old) }
    ensures untouched { OnErr result (values_of globals.new ≡ values_of globals.old) }
    ensures given { OnOk result (values_of globals.new
        ≡ giving_back unit.now (run_of state.new) (values_of globals.old)) }
    ensures declared { globals.new.declared ≡ globals.old.declared }
    ensures stamps { KeepsWrites globals.old globals.new }
    ensures own { IsStateOf unit.now state.new }
    ensures running { IsRunning unit.now (run_of state.new) links.new }
    ensures printable { IfErr result (λ refusal. IsPrintable (refusal_of refusal)) }
    ensures no_savepoint { state.new.kept ≡ None }
    ensures room { KeepsRoom out.old out.new }
    ensures cost { steps.new ≤ steps.old + admitted_steps unit.now (run_of state.old)
        (values_of globals.old) (written_count globals.old stamp) moment.0
        (admitted_of command.now) }
{
    state.mark();
    links.begin();
    match do_and_tell(
        alloc, unit, state, links, globals, stamp, scratch, moment, command, out, steps,
    ) {
        Ok((totals, writes)) => {
            state.keep();
            give_back(globals, writes);
            Ok(totals)
        }
        Err(refusal) => {
            state.undo();
            take_back(alloc, unit, state, links, steps);
            Err(refusal)
        }
    }
}

/// Does an admitted command, tells it, and gives its numbers and the writes by which the store is
/// to take the run's values. After a refusal the state is another one with the same savepoint.
fn do_and_tell<'u, L: Ledger>(
    alloc: Global,
    unit: &'u PreparedUnit,
    state: &mut State,
    links: &mut RunLinks,
    globals: &mut Globals,
    stamp: u64,
    scratch: &mut Scratch,
    moment: Moment,
    command: &Admitted<'_>,
    out: &mut Text,
    steps: &mut Steps<L>,
) -> Result<(Settled, Vec<Write<'u>>), Refusal<'static>>
    requires own { IsStateOf unit.now state.old }
    requires running { IsRunning unit.now (run_of state.old) links.old }
    requires serves { Serves globals.old unit.now }
    requires current { IsCurrentAsOf unit.now (run_of state.old) stamp globals.old }
    requires may { MayBeDone unit.now (run_of state.old) moment.0 (admitted_of command.now) }
    requires persons { HasSavedPersons state.old }
    ensures done { IfOk result (λ done. (d : DoneCommand) × (done_by unit.now (run_of state.old)
        (values_of globals.old) moment.0 (admitted_of command.now) ≡ Ok d)
        × (run_of state.new ≡ d.state)
        × (giving_back unit.now (run_of state.new) (values_of globals.old) ≡ d.store)
        × (out.new.bytes ≡ done_text unit.now d ++ 10 ∷ [])
        × (done.0 ≡ numbers_of d.turns d.sums)) }
    ensures writes { IfOk result (λ done.
        AreWritesOf unit.now (run_of state.new) globals.new done.1.items) }
    ensures refused { IfErr result (RefusesWith (done_by unit.now (run_of state.old)
        (values_of globals.old) moment.0 (admitted_of command.now))) }
    ensures values { values_of globals.new ≡ values_of globals.old }
    ensures declared { globals.new.declared ≡ globals.old.declared }
    ensures stamps { KeepsWrites globals.old globals.new }
    ensures running { OnOk result (IsRunning unit.now (run_of state.new) links.new) }
    ensures printable { IfErr result (λ refusal. IsPrintable (refusal_of refusal)) }
    ensures own { IsStateOf unit.now state.new }
    ensures kept { state.new.kept ≡ state.old.kept }
    ensures room { KeepsRoom out.old out.new }
    ensures follows { renews_sites (admitted_of command.now) ≡ false
        → RunLinksFollow links.old links.new }
    ensures cost { steps.new + restoring unit.now (run_of state.old) links.new
        ≤ steps.old + restoring unit.now (run_of state.old) links.old
        + doing_steps unit.now (run_of state.old) (values_of globals.old)
        (written_count globals.old stamp) moment.0 (admitted_of command.now)
        + telling_steps unit.now (done_by unit.now (run_of state.old) (values_of globals.old)
        moment.0 (admitted_of command.now)) }
{
    let totals = match do_admitted(
        alloc, unit, state, links, globals, stamp, scratch, moment, command, steps,
    ) {
        Ok(totals) => totals,
        Err(refusal) => return Err(refusal),
    };
    if let Err(_) = tell(alloc, unit, state, links, command, totals, out, steps) {
        return Err(Refusal::NoMemory);
    }
    match prepare(alloc, unit, state, globals, &scratch.written, steps) {
        Ok(writes) => Ok((totals, writes)),
        Err(_) => Err(Refusal::NoMemory),
    }
}

/// Empties the text and tells a command that was done.
fn tell<L: Ledger>(
    alloc: Global,
    unit: &PreparedUnit,
    state: &State,
    links: &RunLinks,
    command: &Admitted<'_>,
    totals: Settled,
    out: &mut Text,
    steps: &mut Steps<L>,
) -> Result<(), NoMemory>
    requires own { IsStateOf unit.now state.now }
    requires running { IsRunning unit.now (run_of state.now) links.now }
    requires told { IsTellable unit.now (run_of state.now) (admitted_of command.now) }
    ensures text { (store : GlobalValues) → OnOk result (out.new.bytes ≡ done_text unit.now
        (done_with unit.now store (admitted_of command.now) totals (run_of state.now)) ++ 10 ∷ []) }
    ensures room { KeepsRoom out.old out.new }
    ensures cost { steps.new ≤ steps.old
        + showing_steps unit.now (run_of state.now) (admitted_of command.now) }
{
    match command {
        Admitted::ShowsNext => tell_next(alloc, unit, state, links, totals, out, steps),
        _ => tell_done(alloc, unit, state, command, totals, out, steps),
    }
}

/// The same of a command that is no `next`.
fn tell_done<L: Ledger>(
    alloc: Global,
    unit: &PreparedUnit,
    state: &State,
    command: &Admitted<'_>,
    totals: Settled,
    out: &mut Text,
    steps: &mut Steps<L>,
) -> Result<(), NoMemory>
    requires own { IsStateOf unit.now state.now }
    requires order { IsInOrder unit.now (run_of state.now) }
    requires told { IsTellable unit.now (run_of state.now) (admitted_of command.now) }
    requires state_alone { asks_alarm (admitted_of command.now) ≡ false }
    ensures text { (store : GlobalValues) → OnOk result (out.new.bytes ≡ done_text unit.now
        (done_with unit.now store (admitted_of command.now) totals (run_of state.now)) ++ 10 ∷ []) }
    ensures room { KeepsRoom out.old out.new }
    ensures cost { steps.new ≤ steps.old
        + showing_steps unit.now (run_of state.now) (admitted_of command.now) }
{
    out.clear();
    push_done(alloc, unit, state, command, totals, out, steps)?;
    out.push("\n")?;
    Ok(())
}
