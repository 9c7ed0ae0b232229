//! A run takes in the store's values.
ghost use Rattle.std.specs.Prelude.{◌≡◌, ◌≤◌, ◌+◌, ◌*◌, OnOk};
ghost use Rattle.ld_firing.specs.RunSystem.{IsSoundRun};
ghost use Rattle.ld_firing.specs.Telling.{Tells};
ghost use Rattle.ld_globals.specs.Answers.{key_given};
ghost use Rattle.ld_refs.specs.Checks.{IsValid};
ghost use Rattle.ld_state.specs.StateView.{IsStateOf, run_of};
ghost use Rattle.ld_sharing.specs.Current.{IsCurrentAsOf, written_count};
ghost use Rattle.ld_sharing.specs.Fitting.{HasFittingGlobals, TakesFitting};
ghost use Rattle.ld_sharing.specs.Globals.{taking_in};
ghost use Rattle.ld_sharing.specs.StoreView.{Serves, values_of};
ghost use Rattle.ld_sharing.specs.Taken.{HasTaken, is_cell_of_key};
ghost use Rattle.ld_sharing.specs.Told.{TellsOnly, TellsTaken};

use crate::finding::find_cell;
use crate::taken_value::take_value;
use ld_base::{Id, NoMemory, Steps, Text};
use ld_globals::Globals;
use ld_rules::PreparedUnit;
use ld_state::State;
use std::alloc::Global;
use std::sync::ledger::Ledger;

/// Gives each cell of a global property, of the run and of each person, the store's value, where
/// the run has the store's values as of the stamp: only the keys that were written since are looked
/// at. The slots of the cells that get another value are told, and no others. After running out of memory the
/// state is another one with the same savepoint. (docs/MEANING.md, "A command")
pub fn take_in<L: Ledger>(
    alloc: Global,
    unit: &PreparedUnit,
    state: &mut State,
    globals: &Globals,
    stamp: u64,
    changed: &mut Vec<u32>,
    steps: &mut Steps<L>,
) -> Result<(), NoMemory>
    requires own { IsStateOf unit.now state.old }
    requires sound { IsSoundRun unit.now (run_of state.old) }
    requires fitting { HasFittingGlobals unit.now (run_of state.old) }
    requires serves { Serves globals.now unit.now }
    requires current { IsCurrentAsOf unit.now (run_of state.old) stamp globals.now }
    ensures run { OnOk result (run_of state.new
        ≡ taking_in unit.now (values_of globals.now) (run_of state.old)) }
    ensures fitting { OnOk result
        (TakesFitting unit.now (values_of globals.now) (run_of state.old).persons) }
    ensures told { OnOk result (Tells unit.now (run_of state.old) (run_of state.new)
        changed.old.items changed.new.items) }
    ensures only { OnOk result (TellsOnly unit.now (run_of state.old) (run_of state.new)
        changed.old.items changed.new.items) }
    ensures own { IsStateOf unit.now state.new }
    ensures rows { state.new.rows ≡ state.old.rows }
    ensures outbox { state.new.outbox ≡ state.old.outbox }
    ensures kept { state.new.kept ≡ state.old.kept }
    ensures cost { steps.new ≤ steps.old + 3 * written_count globals.now stamp }
{
    for (uri, person) in globals.changed_since(stamp, steps) {
        take_key(alloc, unit, uri, person, state, globals, changed, steps)?;
    }
    Ok(())
}

/// Gives the run's cell for the key, if it has one, the store's value, and tells its slot where that
/// is another one.
fn take_key<L: Ledger>(
    alloc: Global,
    unit: &PreparedUnit,
    uri: &Text,
    person: Option<&Id>,
    state: &mut State,
    globals: &Globals,
    changed: &mut Vec<u32>,
    steps: &mut Steps<L>,
) -> Result<(), NoMemory>
    requires valid { IsValid unit.now }
    requires own { IsStateOf unit.now state.old }
    requires serves { Serves globals.now unit.now }
    ensures taken { OnOk result (HasTaken unit.now (values_of globals.now)
        (is_cell_of_key unit.now (run_of state.old).persons (key_given uri.now person.entry))
        (run_of state.old) (run_of state.new)) }
    ensures told { OnOk result (Tells unit.now (run_of state.old) (run_of state.new)
        changed.old.items changed.new.items) }
    ensures only { OnOk result (TellsTaken unit.now (values_of globals.now)
        (run_of state.old).persons (run_of state.old) (run_of state.new)
        changed.old.items changed.new.items) }
    ensures own { IsStateOf unit.now state.new }
    ensures rows { state.new.rows ≡ state.old.rows }
    ensures outbox { state.new.outbox ≡ state.old.outbox }
    ensures kept { state.new.kept ≡ state.old.kept }
    ensures cost { steps.new ≤ steps.old + 2 }
{
    let Some(found) = find_cell(unit, state, uri, person)? else {
        return Ok(());
    };
    let (property, owner) = found;
    take_value(
        alloc, unit, property, owner, uri, state, globals, changed, steps,
    )
}
