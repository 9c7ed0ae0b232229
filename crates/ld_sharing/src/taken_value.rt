//! A run takes in the store's value of one cell.
ghost use Rattle.std.specs.Prelude.{◌≡◌, ◌+◌, length, option_copied, None, Ok, IfOk, IfSome, OnOk};
ghost use Rattle.ld_cells.specs.Stored.{held};
ghost use Rattle.ld_globals.specs.Answers.{key_given};
ghost use Rattle.ld_globals.specs.Store.{IsWritable, value_at};
ghost use Rattle.ld_model.specs.Cells.{same_cell};
ghost use Rattle.ld_expr.specs.Seen.{property_cell};
ghost use Rattle.ld_firing.specs.Telling.{Tells};
ghost use Rattle.ld_roles.specs.Kept.{persons_of};
ghost use Rattle.ld_state.specs.StateView.{IsStateOf, run_of, seen_of};
ghost use Rattle.ld_sharing.specs.Readable.{IsOwnerAmong, IsReadable, IsShared, is_person, name_of};
ghost use Rattle.ld_sharing.specs.StoreView.{values_of};
ghost use Rattle.ld_sharing.specs.Taken.{HasTaken};
ghost use Rattle.ld_sharing.specs.Told.{TellsTaken};

use crate::reading::{are_one, copy_of, read_key};
use ld_base::{Id, NoMemory, PropNo, Steps, Text};
use ld_globals::Globals;
use ld_model::{CellName, Owner, View};
use ld_rules::PreparedUnit;
use ld_state::State;
use ld_value::Value;
use std::alloc::Global;
use std::sync::ledger::Ledger;

/// Gives the owner's cell of the global property the store's value, and tells its slot where that
/// is another one.
pub(crate) fn take_value<L: Ledger>(
    alloc: Global,
    unit: &PreparedUnit,
    property: PropNo,
    owner: Owner,
    uri: &Text,
    state: &mut State,
    globals: &Globals,
    changed: &mut Vec<u32>,
    steps: &mut Steps<L>,
) -> Result<(), NoMemory>
    requires own { IsStateOf unit.now state.old }
    requires shared { IsShared unit.now globals.now property.0 uri.now.bytes (is_person owner) }
    requires owner { IsOwnerAmong (length state.old.rows) owner }
    ensures taken { OnOk result (HasTaken unit.now (values_of globals.now)
        (λ cell. same_cell cell (property_cell property.0 owner))
        (run_of state.old) (run_of state.new)) }
    ensures told { OnOk result (Tells unit.now (run_of state.old) (run_of state.new)
        changed.old.items changed.new.items) }
    ensures only { OnOk result (TellsTaken unit.now (values_of globals.now)
        (run_of state.old).persons (run_of state.old) (run_of state.new)
        changed.old.items changed.new.items) }
    ensures own { IsStateOf unit.now state.new }
    ensures rows { state.new.rows ≡ state.old.rows }
    ensures outbox { state.new.outbox ≡ state.old.outbox }
    ensures kept { state.new.kept ≡ state.old.kept }
    ensures cost { steps.new ≡ steps.old + 2 }
{
    let cell = CellName::Prop(property, owner);
    let name = name_of(state, owner);
    let Some(value) = other_value(alloc, state, cell, globals, uri, name, steps)? else {
        return Ok(());
    };
    state.set(cell, value, changed)
}

/// The person's name, where the owner is a person.
fn name_of(state: &State, owner: Owner) -> Option<&Id>
    requires { IsOwnerAmong (length state.now.rows) owner }
    ensures { option_copied result ≡ name_of (persons_of state.now.rows) owner }
{
    match owner {
        Owner::Person(person) => Some(state.roster().name(person)),
        Owner::Run => None,
    }
}

/// The key's value in the store, where the cell has another.
fn other_value<L: Ledger>(
    alloc: Global,
    state: &State,
    cell: CellName,
    globals: &Globals,
    uri: &Text,
    person: Option<&Id>,
    steps: &mut Steps<L>,
) -> Result<Option<Option<Value>>, NoMemory>
    requires { IsReadable globals.now (key_given uri.now person) }
    ensures same { result ≡ Ok None → (seen_of state.now).value cell
        ≡ value_at globals.now (key_given uri.now person.entry) }
    ensures other { IfOk result (λ other. IfSome other (λ value. held value
        ≡ value_at globals.now (key_given uri.now person.entry))) }
    ensures writable { OnOk result (IsWritable globals.now (key_given uri.now person.entry)
        (value_at globals.now (key_given uri.now person.entry))) }
    ensures cost { steps.new ≡ steps.old + 2 }
{
    let value = read_key(globals, uri, person, steps);
    if are_one(state.get(cell, steps), value) {
        return Ok(None);
    }
    Ok(Some(copy_of(alloc, value)?))
}
