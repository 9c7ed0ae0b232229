//! Who acts where a site fires.
ghost use Rattle.std.specs.Prelude.{◌≡◌, length, option_map, true, false, OnOk};
ghost use Rattle.ld_base.specs.declared.fired.Fired.{Fired};
ghost use Rattle.ld_names.specs.Names.{names_of};
ghost use Rattle.ld_value.specs.Datum.{datum_of};
ghost use Rattle.ld_state.specs.StateView.{IsStateOf, is_following};
ghost use Rattle.ld_firing.specs.ActionCells.{has_slot};
ghost use Rattle.ld_firing.specs.Actions.{with_write};
ghost use Rattle.ld_firing.specs.Progress.{Does, progress_of};

use ld_base::NoMemory;
use ld_model::{CellName, Owner, Unit};
use ld_names::Names;
use ld_state::State;
use ld_value::Value;
use std::alloc::Global;

/// An owner who acts in the runs of a unit: the run, or one person.
#[derive(Drop)]
pub(crate) struct Actor<'a> {
    pub(crate) alloc: Global,
    pub(crate) unit: &'a Unit,
    /// The names of the unit.
    pub(crate) names: &'a Names,
    pub(crate) owner: Owner,
    ghost named: { names.now ≡ names_of unit.now },
}

impl<'a> Actor<'a> {
    /// Gives the cell this value or none, and tells its slot where that changed its value.
    pub(crate) fn write(
        &self,
        cell: CellName,
        value: Option<Value>,
        state: &mut State,
        changed: &mut Vec<u32>,
    ) -> Result<(), NoMemory>
        requires own { IsStateOf self.now.unit.now state.old }
        requires there { has_slot self.now.unit.now (length state.old.rows) cell ≡ true }
        requires plain { is_following cell ≡ false }
        ensures does { (fired : Fired) → OnOk result (Does self.now.unit.now
            (progress_of state.old changed.old.items fired)
            (progress_of state.new changed.new.items fired)
            (λ doing. with_write doing cell (option_map datum_of value))) }
        ensures own { IsStateOf self.now.unit.now state.new }
        ensures rows { state.new.rows ≡ state.old.rows }
        ensures kept { state.new.kept ≡ state.old.kept }
    {
        state.set(cell, value, changed)
    }
}
