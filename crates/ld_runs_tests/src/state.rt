//! The state of a run, whose only person joins, gets the role and drops it.
ghost use Rattle.std.specs.Prelude.{◌≡◌, ◌<◌, [], true, IfOk, None};
ghost use Rattle.ld_state.specs.StateView.{IsStateOf};

use crate::roles::role_of;
use crate::units::{check, full, id, plain};
use ld_base::{Id, Items, NoMemory, PersonNo, PropNo, RuleNo, Steps, Text};
use ld_cells::UndoLog;
use ld_model::{CellName, Owner, View};
use ld_roles::SEATS;
use ld_rules::PreparedUnit;
use ld_state::{OutNotice, State};
use ld_value::{Moment, Value, same_value};
use std::alloc::Global;
use std::marker::Brand;
use std::sync::ledger::{Blank, Ledger};
use std::test::Fail;

const FIRST: PersonNo = PersonNo(0);

const OWNER: Owner = Owner::Person(FIRST);

#[test]
fn a_state_changes(rt: HostRuntime) -> Result<(), Fail> {
    let unit = plain(rt.alloc())?;
    let ann = id(rt.alloc(), "ann")?;
    let mut state = state_of(rt.alloc(), &unit)?;
    change::<Brand>(rt.alloc(), &unit, &ann, &mut state, Blank::new(1))
}

/// The state of a run that is made at moment 5, of a unit without properties.
fn state_of(alloc: Global, unit: &PreparedUnit) -> Result<State, NoMemory>
    ensures own { IfOk result (IsStateOf unit.now) }
    ensures no_savepoint { IfOk result (λ state. state.kept ≡ None) }
{
    if !has_no_properties(unit) {
        return Err(NoMemory);
    }
    let slots = unit.slots().clone()?;
    let from = unit.beginnings();
    State::new(alloc, slots, unit.roles().clone()?, &from, &[], Moment(5))
}

/// Whether the unit has no properties.
fn has_no_properties(unit: &PreparedUnit) -> bool
    ensures { result ≡ true → unit.now.properties ≡ [] }
{
    match unit.unit().properties.as_slice() {
        [] => true,
        _ => false,
    }
}

/// Changes the state, with steps that are counted from 0.
fn change<L: Ledger>(
    alloc: Global,
    unit: &PreparedUnit,
    name: &Id,
    state: &mut State,
    blank: Blank,
) -> Result<(), Fail>
    requires name { blank.name ≡ L.name }
    requires parts { blank.parts ≡ L.parts }
    requires some { 0 < L.parts }
    requires own { IsStateOf unit.now state.old }
    requires no_savepoint { state.old.kept ≡ None }
{
    let mut steps = Steps::<L>::new(blank);
    let mut changed = Vec::new(alloc);
    change_with(alloc, unit, name, state, &mut changed, &mut steps)
}

/// Refuses the test where a change comes out wrong.
fn change_with<L: Ledger>(
    alloc: Global,
    unit: &PreparedUnit,
    name: &Id,
    state: &mut State,
    changed: &mut Vec<u32>,
    steps: &mut Steps<L>,
) -> Result<(), Fail>
    requires own { IsStateOf unit.now state.old }
    requires no_savepoint { state.old.kept ≡ None }
{
    check(joins(alloc, unit, name, state, changed), "a person joins")?;
    check(is_given(unit, name, state, changed), "a role is given")?;
    check(is_taken(unit, name, state, changed), "a role is taken")?;
    check(starts(state, changed), "the run is started")?;
    check(started(state, steps) == Some(6), "when it was")?;
    check(sends(alloc, state) == 1, "a notice")?;
    check(takes_back(alloc, state) == 1, "the same notice")?;
    check(keeps(alloc, state) == 2, "two notices")
}

/// Whether the person joins, and the new cells and that of `Roster` are told.
fn joins(
    alloc: Global,
    unit: &PreparedUnit,
    name: &Id,
    state: &mut State,
    changed: &mut Vec<u32>,
) -> bool
    requires own { IsStateOf unit.now state.old }
    requires no_savepoint { state.old.kept ≡ None }
    ensures own { IsStateOf unit.now state.new }
    ensures no_savepoint { state.new.kept ≡ None }
{
    if !has_no_properties(unit) {
        return false;
    }
    if let Some(_) = state.roster().person(name) {
        return false;
    }
    if SEATS <= state.roster().persons() as usize {
        return false;
    }
    let before = state.slot_count() as usize;
    let from = unit.beginnings();
    changed.clear();
    let Ok(number) = state.enrol(alloc, &from, name, &[], Moment(6), changed) else {
        return false;
    };
    number == FIRST && before + changed.len() == state.slot_count() as usize + 1
}

/// Whether the person gets the role, and the cell that says so is told.
fn is_given(unit: &PreparedUnit, name: &Id, state: &mut State, changed: &mut Vec<u32>) -> bool
    requires own { IsStateOf unit.now state.old }
    requires no_savepoint { state.old.kept ≡ None }
    ensures own { IsStateOf unit.now state.new }
    ensures no_savepoint { state.new.kept ≡ None }
{
    let Some(role) = role_of(unit) else {
        return false;
    };
    let Some(person) = state.roster().person(name) else {
        return false;
    };
    let Ok(()) = state.roster().may_assign(person, role) else {
        return false;
    };
    changed.clear();
    let Ok(()) = state.assign(person, role, changed) else {
        return false;
    };
    is_told(state, CellName::Member(role, person), changed)
}

/// Whether just the slot of this cell is told.
fn is_told(state: &State, cell: CellName, changed: &[u32]) -> bool {
    let [slot] = changed else {
        return false;
    };
    state.slot(cell) == Some(*slot)
}

/// Whether the person drops the role, and the cell that says so is told.
fn is_taken(unit: &PreparedUnit, name: &Id, state: &mut State, changed: &mut Vec<u32>) -> bool
    requires own { IsStateOf unit.now state.old }
    requires no_savepoint { state.old.kept ≡ None }
    ensures no_savepoint { state.new.kept ≡ None }
{
    let Some(role) = role_of(unit) else {
        return false;
    };
    let Some(person) = state.roster().person(name) else {
        return false;
    };
    let Ok(()) = state.roster().may_drop(person, role, false) else {
        return false;
    };
    changed.clear();
    let Ok(()) = state.drop_role(person, role, changed) else {
        return false;
    };
    is_told(state, CellName::Member(role, person), changed)
}

/// Whether the run is started at moment 6, and the cell that says so is told.
fn starts(state: &mut State, changed: &mut Vec<u32>) -> bool
    ensures kept { state.new.kept ≡ state.old.kept }
{
    let Some(_slot) = state.slot(CellName::Started) else {
        return false;
    };
    let Ok(()) = state.reserve(1) else {
        return false;
    };
    changed.clear();
    let value = Some(Value::Moment(Moment(6)));
    let Ok(()) = state.set(CellName::Started, value, changed) else {
        return false;
    };
    is_told(state, CellName::Started, changed)
}

/// When the run was started.
fn started<L: Ledger>(state: &State, steps: &mut Steps<L>) -> Option<i64> {
    match state.get(CellName::Started, steps) {
        Some(Value::Moment(moment)) => Some(moment.0),
        _ => None,
    }
}

/// How many notices there are once one more is sent.
fn sends(alloc: Global, state: &mut State) -> usize
    ensures kept { state.new.kept ≡ state.old.kept }
{
    let Ok(subject) = Text::of(alloc, "Go") else {
        return 0;
    };
    let notice = OutNotice {
        moment: Moment(6),
        subject,
        activity: None,
        to: Items::new(alloc),
    };
    let Ok(()) = state.send(notice) else {
        return 0;
    };
    state.outbox().len()
}

/// How many notices there are once one more was rolled back, with the room of a log for recording.
fn takes_back(alloc: Global, state: &mut State) -> usize
    requires no_savepoint { state.old.kept ≡ None }
    ensures no_savepoint { state.new.kept ≡ None }
{
    let mut log = UndoLog::new(alloc);
    state.exchange(&mut log);
    state.mark();
    let _sent = sends(alloc, state);
    state.undo();
    state.exchange(&mut log);
    state.outbox().len()
}

/// How many notices there are once one more was kept.
fn keeps(alloc: Global, state: &mut State) -> usize
    requires no_savepoint { state.old.kept ≡ None }
    ensures no_savepoint { state.new.kept ≡ None }
{
    state.mark();
    let _sent = sends(alloc, state);
    state.keep();
    state.outbox().len()
}

#[test]
fn cells_begin(rt: HostRuntime) -> Result<(), Fail> {
    let unit = full(rt.alloc())?;
    assert!(rt; begin(rt.alloc(), &unit));
    Ok(())
}

/// Whether the moment, a mark and the values of properties begin as they should.
fn begin(alloc: Global, unit: &PreparedUnit) -> bool {
    begins_as(alloc, unit, CellName::Now, &Value::Moment(Moment(5)))
        && begins_as(
            alloc,
            unit,
            CellName::Mark(RuleNo(0), OWNER),
            &Value::Bool(false),
        )
        && begins_as(
            alloc,
            unit,
            CellName::Prop(PropNo(0), OWNER),
            &Value::Int(4),
        )
}

/// Whether the cell begins with this value at moment 5.
fn begins_as(alloc: Global, unit: &PreparedUnit, cell: CellName, wanted: &Value) -> bool {
    let from = unit.beginnings();
    let Ok(Some(value)) = from.value(alloc, cell, &[], Moment(5)) else {
        return false;
    };
    same_value(&value, wanted)
}
