//! A run and the store take each other's values.
ghost use Rattle.std.specs.Prelude.{◌<◌, ℕ, length, Contains, IfOk, OnOk};
ghost use Rattle.ld_firing.specs.RunSystem.{IsSoundRun};
ghost use Rattle.ld_globals.specs.Store.{KeepsWrites};
ghost use Rattle.ld_model.specs.declared.unit.Unit.{Unit};
ghost use Rattle.ld_sharing.specs.Current.{IsCurrentAsOf};
ghost use Rattle.ld_sharing.specs.Fitting.{HasFittingGlobals};
ghost use Rattle.ld_sharing.specs.StoreView.{Serves};
ghost use Rattle.ld_state.specs.Layout.{cells_in};
ghost use Rattle.ld_state.specs.StateView.{IsStateOf, run_of};

use crate::begun::{Subject, begin, test};
use crate::units::check;
use ld_base::{NoMemory, PropNo, Steps, Text};
use ld_globals::Globals;
use ld_model::{CellName, Owner, View};
use ld_rules::PreparedUnit;
use ld_sharing::{give_back, prepare, take_in};
use ld_state::State;
use ld_value::Value;
use std::alloc::Global;
use std::sync::ledger::Ledger;
use std::test::Fail;

#[test]
fn values_are_shared(rt: HostRuntime) -> Result<(), Fail> {
    test(rt.alloc(), Subject::Sharing)
}

/// Shares the value of the unit's property.
pub(crate) fn share<L: Ledger>(
    alloc: Global,
    unit: &PreparedUnit,
    globals: &mut Globals,
    steps: &mut Steps<L>,
) -> Result<(), Fail>
    requires serves { Serves globals.old unit.now }
{
    let gate = Text::of(alloc, "urn:gate")?;
    share_in(alloc, unit, &gate, globals, steps)
}

/// Makes a run where the store has the value true, and lets the store and it take each other's.
fn share_in<L: Ledger>(
    alloc: Global,
    unit: &PreparedUnit,
    gate: &Text,
    globals: &mut Globals,
    steps: &mut Steps<L>,
) -> Result<(), Fail>
    requires serves { Serves globals.old unit.now }
{
    set(globals, gate, "true")?;
    let mut state = begin(alloc, unit, globals, steps)?;
    share_with(alloc, unit, gate, &mut state, globals, steps)
}

/// Refuses the test where the store or the run takes another value than is told here.
fn share_with<L: Ledger>(
    alloc: Global,
    unit: &PreparedUnit,
    gate: &Text,
    state: &mut State,
    globals: &mut Globals,
    steps: &mut Steps<L>,
) -> Result<(), Fail>
    requires own { IsStateOf unit.now state.old }
    requires sound { IsSoundRun unit.now (run_of state.old) }
    requires fitting { HasFittingGlobals unit.now (run_of state.old) }
    requires serves { Serves globals.old unit.now }
{
    check(
        is_gate(state, true, steps),
        "a run begins as the store says",
    )?;
    set(globals, gate, "false")?;
    give(alloc, unit, gate, state, globals, steps)?;
    take(alloc, unit, gate, state, globals, steps)
}

/// The run takes the value false from the store.
fn take<L: Ledger>(
    alloc: Global,
    unit: &PreparedUnit,
    gate: &Text,
    state: &mut State,
    globals: &mut Globals,
    steps: &mut Steps<L>,
) -> Result<(), Fail>
    requires own { IsStateOf unit.now state.old }
    requires sound { IsSoundRun unit.now (run_of state.old) }
    requires fitting { HasFittingGlobals unit.now (run_of state.old) }
    requires serves { Serves globals.old unit.now }
    requires current { IsCurrentAsOf unit.now (run_of state.old) globals.old.stamp globals.old }
{
    let stamp = globals.stamp();
    set(globals, gate, "false")?;
    let mut changed = Vec::new(alloc);
    take_in(alloc, unit, state, globals, stamp, &mut changed, steps)?;
    check(changed.len() == 1, "one cell changes")?;
    check(is_gate(state, false, steps), "the run takes the value")
}

/// Gives the value in the store that of this text.
fn set(globals: &mut Globals, gate: &Text, text: &str) -> Result<(), Fail>
    ensures serves { (unit : Unit) → Serves globals.old unit
        → OnOk result (Serves globals.new unit) }
    ensures kept { OnOk result (KeepsWrites globals.old globals.new) }
{
    Ok(globals.set(gate, None, text)?)
}

/// Whether the run has this value.
fn is_gate<L: Ledger>(state: &State, truth: bool, steps: &mut Steps<L>) -> bool {
    let cell = CellName::Prop(PropNo(0), Owner::Run);
    let Some(_slot) = state.slot(cell) else {
        return false;
    };
    matches!(state.get(cell, steps), Some(Value::Bool(value)) if *value == truth)
}

/// The store, which has another value than the run, takes the run's.
fn give<L: Ledger>(
    alloc: Global,
    unit: &PreparedUnit,
    gate: &Text,
    state: &State,
    globals: &mut Globals,
    steps: &mut Steps<L>,
) -> Result<(), Fail>
    requires own { IsStateOf unit.now state.now }
    requires sound { IsSoundRun unit.now (run_of state.now) }
    requires fitting { HasFittingGlobals unit.now (run_of state.now) }
    requires serves { Serves globals.old unit.now }
    ensures serves { OnOk result (Serves globals.new unit.now) }
    ensures current { OnOk result
        (IsCurrentAsOf unit.now (run_of state.now) globals.new.stamp globals.new) }
{
    let slots = all_slots(alloc, state)?;
    let writes = prepare(alloc, unit, state, globals, &slots, steps)?;
    let one = writes.len() == 1;
    give_back(globals, writes);
    check(one, "one write")?;
    let value = globals.get(gate, None, steps);
    check(
        matches!(value, Ok(Some(Value::Bool(true)))),
        "the store takes the value",
    )
}

/// The slots of all cells of the run, any of which may have another value than the store.
fn all_slots(alloc: Global, state: &State) -> Result<Vec<u32>, NoMemory>
    ensures { IfOk result (λ slots. (k : ℕ)
        → k < length (cells_in state.now.layout (length state.now.rows))
        → Contains slots.items k) }
{
    let mut slots = Vec::new(alloc);
    for slot in 0..state.slot_count() {
        slots.push(slot)?;
    }
    Ok(slots)
}
