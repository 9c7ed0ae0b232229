//! The store takes a run's values.
ghost use Rattle.std.specs.Prelude.{◌≡◌, ◌<◌, ◌≤◌, ◌+◌, ◌*◌, ◌++◌, ◌∷◌, [], length, map, option_copied, option_map, None, IfNone, IfOk, IfSome, IsOk, OnOk};
ghost use Rattle.ld_globals.specs.Answers.{key_given, meaning};
ghost use Rattle.ld_globals.specs.Store.{KeepsWrites};
ghost use Rattle.ld_model.specs.declared.unit.Unit.{Unit};
ghost use Rattle.ld_expr.specs.Seen.{property_cell};
ghost use Rattle.ld_firing.specs.RunSystem.{IsSoundRun};
ghost use Rattle.ld_roles.specs.Kept.{persons_of};
ghost use Rattle.ld_roles.specs.Roster.{Persons};
ghost use Rattle.ld_state.specs.RunState.{RunState};
ghost use Rattle.ld_state.specs.StateView.{IsStateOf, run_of, seen_of};
ghost use Rattle.ld_sharing.specs.Changes.{IsGivenBut, key_of_cell, keys_of_cell, shared_slots};
ghost use Rattle.ld_sharing.specs.Fitting.{HasFittingGlobals};
ghost use Rattle.ld_sharing.specs.GivenValues.{given_as, given_by, other_in_slot, other_of_cell, other_values, where_other};
ghost use Rattle.ld_sharing.specs.Globals.{giving_back, store_person};
ghost use Rattle.ld_sharing.specs.Readable.{IsReadable};
ghost use Rattle.ld_sharing.specs.StoreView.{Serves, values_of};
ghost use Rattle.ld_sharing.specs.Writes.{AreWritesOf};

use crate::reading::{are_one, copy_of, read_key};
use ld_base::{Id, NoMemory, PropNo, Steps, Text, number};
use ld_globals::Globals;
use ld_model::{CellName, Owner, View};
use ld_rules::PreparedUnit;
use ld_state::State;
use ld_value::Value;
use std::alloc::Global;
use std::sync::ledger::Ledger;

/// A value that the store is to have, for a uri that the unit keeps.
#[derive(Drop)]
pub struct Write<'u> {
    pub(crate) uri: &'u Text,
    pub(crate) person: Option<Id>,
    pub(crate) value: Option<Value>,
}

/// The writes by which the store takes the run's values, in room that is reserved in the store.
/// Only cells with these slots, which a caller knows to be all that may differ, are looked at: a
/// step to read the cell and one to read the key, and none for a cell that has no key. The only
/// error is out of memory, and there is none where the store has the run's values already. The
/// store keeps its values and declarations in any case.
pub fn prepare<'u, L: Ledger>(
    alloc: Global,
    unit: &'u PreparedUnit,
    state: &State,
    globals: &mut Globals,
    changed: &[u32],
    steps: &mut Steps<L>,
) -> Result<Vec<Write<'u>>, NoMemory>
    requires own { IsStateOf unit.now state.now }
    requires sound { IsSoundRun unit.now (run_of state.now) }
    requires serves { Serves globals.old unit.now }
    requires fitting { HasFittingGlobals unit.now (run_of state.now) }
    requires others { IsGivenBut unit.now (run_of state.now) globals.old changed.now }
    ensures writes { IfOk result (λ writes.
        AreWritesOf unit.now (run_of state.now) globals.new writes.items) }
    ensures declared { globals.new.declared ≡ globals.old.declared }
    ensures written { globals.new.written ≡ globals.old.written }
    ensures kept { KeepsWrites globals.old globals.new }
    ensures cost { steps.new ≤ steps.old
        + 2 * shared_slots unit.now (run_of state.now).persons changed.now }
    ensures idle { IsGivenBut unit.now (run_of state.now) globals.old [] → IsOk result }
{
    let writes = list_writes(alloc, unit, state, globals, changed, steps)?;
    if writes.is_empty() {
        return Ok(writes);
    }
    globals.reserve(number(writes.len())?)?;
    Ok(writes)
}

/// Makes the writes. It takes no memory.
pub fn give_back(globals: &mut Globals, writes: Vec<Write<'_>>)
    requires writes { (unit : Unit) × (s : RunState)
        × AreWritesOf unit s globals.old writes.items }
    ensures values { (unit : Unit) (s : RunState)
        → AreWritesOf unit s globals.old writes.entry.items
        → values_of globals.new ≡ giving_back unit s (values_of globals.old) }
    ensures declared { globals.new.declared ≡ globals.old.declared }
    ensures kept { KeepsWrites globals.old globals.new }
{
    for write in writes {
        globals.put(write.uri, write.person, write.value);
    }
}

/// The writes of the values that differ, of cells with these slots, in the order of the slots.
fn list_writes<'u, L: Ledger>(
    alloc: Global,
    unit: &'u PreparedUnit,
    state: &State,
    globals: &Globals,
    changed: &[u32],
    steps: &mut Steps<L>,
) -> Result<Vec<Write<'u>>, NoMemory>
    requires own { IsStateOf unit.now state.now }
    requires serves { Serves globals.now unit.now }
    ensures writes { IfOk result (λ writes. map given_by writes.items
        ≡ other_values (values_of globals.now) unit.now (run_of state.now) changed.now) }
    ensures cost { steps.new ≤ steps.old
        + 2 * shared_slots unit.now (run_of state.now).persons changed.now }
    ensures idle { other_values (values_of globals.now) unit.now (run_of state.now) changed.now ≡ []
        → IsOk result }
{
    let mut writes = Vec::new(alloc);
    for slot in changed {
        push_slot(alloc, unit, *slot, state, globals, &mut writes, steps)?;
    }
    Ok(writes)
}

/// Appends the write of the value of the cell that has the slot, if it is one of a property.
fn push_slot<'u, L: Ledger>(
    alloc: Global,
    unit: &'u PreparedUnit,
    slot: u32,
    state: &State,
    globals: &Globals,
    writes: &mut Vec<Write<'u>>,
    steps: &mut Steps<L>,
) -> Result<(), NoMemory>
    requires own { IsStateOf unit.now state.now }
    requires serves { Serves globals.now unit.now }
    ensures writes { OnOk result (map given_by writes.new.items ≡ map given_by writes.old.items
        ++ other_in_slot (values_of globals.now) unit.now (run_of state.now) slot) }
    ensures cost { steps.new ≤ steps.old
        + 2 * shared_slots unit.now (run_of state.now).persons (slot ∷ []) }
    ensures idle { other_in_slot (values_of globals.now) unit.now (run_of state.now) slot ≡ []
        → IsOk result }
{
    let Some(cell) = state.cell_at(slot) else {
        return Ok(());
    };
    let Some(found) = property_in(cell) else {
        return Ok(());
    };
    let (property, owner) = found;
    push_cell(alloc, unit, property, owner, state, globals, writes, steps)
}

/// The property and the owner whose value the cell is. No other cell has a key.
fn property_in(cell: CellName) -> Option<(PropNo, Owner)>
    ensures some { IfSome result (λ found. cell ≡ property_cell found.0.0 found.1) }
    ensures none { (unit : Unit) (persons : Persons) → IfNone result
        (key_of_cell unit persons cell ≡ None) }
{
    match cell {
        CellName::Prop(property, owner) => Some((property, owner)),
        CellName::Vis(_, _)
        | CellName::Member(_, _)
        | CellName::Chosen(_, _)
        | CellName::Opened(_, _)
        | CellName::ActOpened(_)
        | CellName::Started
        | CellName::Mark(_, _)
        | CellName::Now
        | CellName::Roster => None,
    }
}

/// Appends the write of the owner's value of the property, where it has a key and the store has
/// another value of it.
fn push_cell<'u, L: Ledger>(
    alloc: Global,
    unit: &'u PreparedUnit,
    property: PropNo,
    owner: Owner,
    state: &State,
    globals: &Globals,
    writes: &mut Vec<Write<'u>>,
    steps: &mut Steps<L>,
) -> Result<(), NoMemory>
    requires serves { Serves globals.now unit.now }
    requires there { property.0 < length unit.now.properties }
    ensures writes { OnOk result (map given_by writes.new.items ≡ map given_by writes.old.items
        ++ other_of_cell (values_of globals.now) unit.now (run_of state.now)
        (property_cell property.0 owner)) }
    ensures cost { steps.new ≤ steps.old + 2 * keys_of_cell unit.now (run_of state.now).persons
        (property_cell property.0 owner) }
    ensures idle { other_of_cell (values_of globals.now) unit.now (run_of state.now)
        (property_cell property.0 owner) ≡ [] → IsOk result }
{
    let Some(uri) = unit.uri(property) else {
        return Ok(());
    };
    let kind = unit.unit().properties.as_slice()[property.0 as usize].kind;
    let Some(person) = store_person(state, kind.is_personal(), owner) else {
        return Ok(());
    };
    let cell = CellName::Prop(property, owner);
    push_value(alloc, uri, person, state, cell, globals, writes, steps)
}

/// For whom the store has a value of a property that the owner has: for no one in particular where
/// the run has it, for this person where each person has one.
fn store_person(state: &State, personal: bool, owner: Owner) -> Option<Option<&Id>>
    ensures { option_map option_copied result
        ≡ store_person (persons_of state.now.rows) personal owner }
{
    match owner {
        Owner::Run if !personal => Some(None),
        Owner::Person(person) if personal && person.0 < state.persons() => {
            Some(Some(state.roster().name(person)))
        }
        Owner::Run | Owner::Person(_) => None,
    }
}

/// Appends the write of the cell's value to the key, where the store has another one.
fn push_value<'u, L: Ledger>(
    alloc: Global,
    uri: &'u Text,
    person: Option<&Id>,
    state: &State,
    cell: CellName,
    globals: &Globals,
    writes: &mut Vec<Write<'u>>,
    steps: &mut Steps<L>,
) -> Result<(), NoMemory>
    requires { IsReadable globals.now (key_given uri.now person) }
    ensures writes { OnOk result (map given_by writes.new.items ≡ map given_by writes.old.items
        ++ where_other (values_of globals.now)
        (given_as ((seen_of state.now).value cell) (key_given uri.now person.entry))) }
    ensures cost { steps.new ≡ steps.old + 2 }
    ensures idle { where_other (values_of globals.now)
        (given_as ((seen_of state.now).value cell) (key_given uri.now person.entry)) ≡ []
        → IsOk result }
{
    let value = state.get(cell, steps);
    if are_one(read_key(globals, uri, person, steps), value) {
        return Ok(());
    }
    writes.push(write_of(alloc, uri, person, value)?)?;
    Ok(())
}

/// The write that gives the key the value.
fn write_of<'u>(
    alloc: Global,
    uri: &'u Text,
    person: Option<&Id>,
    value: Option<&Value>,
) -> Result<Write<'u>, NoMemory>
    ensures { IfOk result (λ write. given_by write ≡ record {
      uri = uri.now.bytes;
      person = option_copied person.entry;
      value = meaning value.entry;
    }) }
{
    Ok(Write {
        uri,
        person: copy_name(person)?,
        value: copy_of(alloc, value)?,
    })
}

/// The same name once more, if there is one.
fn copy_name(person: Option<&Id>) -> Result<Option<Id>, NoMemory>
    ensures { IfOk result (λ name. name ≡ option_copied person.entry) }
{
    match person {
        Some(name) => Ok(Some(name.copy()?)),
        None => Ok(None),
    }
}
