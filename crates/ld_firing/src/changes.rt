//! Changes of properties.
ghost use Rattle.std.specs.Prelude.{◌≡◌, ◌+◌, ◌*◌, ◌≤◌, ◌<◌, flat_map, fold, length, map, IfOk, IfSome, OnOk, option_map};
ghost use Rattle.ld_base.specs.Maybe.{◌>>=◌ as ◌then◌};
ghost use Rattle.ld_base.specs.Numbers.{numbers_below};
ghost use Rattle.ld_expr.specs.Lookup.{is_some_and, property_number, property_of};
ghost use Rattle.ld_expr.specs.Owners.{fits_property, of_person};
ghost use Rattle.ld_expr.specs.Terms.{term_value};
ghost use Rattle.ld_value.specs.Datum.{datum_of};
ghost use Rattle.ld_state.specs.RunState.{seen_in};
ghost use Rattle.ld_state.specs.StateView.{IsStateOf, run_of};
ghost use Rattle.ld_firing.specs.ActionCells.{HasSlots, all_change_cells, change_cells};
ghost use Rattle.ld_firing.specs.Actions.{change_for, do_change, holder_named, if_fitting, owners_of_change};
ghost use Rattle.ld_firing.specs.Costs.{term_leaves};
ghost use Rattle.ld_firing.specs.Progress.{Does, progress_of};

use crate::actor::Actor;
use ld_base::{Fired, Id, NoMemory, PersonNo, PropNo, Steps};
use ld_expr::{Scope, cell_of_property};
use ld_model::{Change, Owner, View};
use ld_names::{Holder, Named};
use ld_state::State;
use ld_value::Value;
use ld_value::fits::fits;
use std::sync::ledger::Ledger;

impl<'a> Actor<'a> {
    /// Makes the change: for each person where the run changes what each person has, else for the
    /// owner.
    pub(crate) fn do_change<L: Ledger>(
        &self,
        change: &Change,
        state: &mut State,
        changed: &mut Vec<u32>,
        fired: &mut Fired,
        steps: &mut Steps<L>,
    ) -> Result<(), NoMemory>
        requires own { IsStateOf self.now.unit.now state.old }
        requires cells { HasSlots self.now.unit.now (length state.old.rows)
            (all_change_cells self.now.unit.now (length state.old.rows) self.now.owner change.now) }
        ensures does { OnOk result (Does self.now.unit.now
            (progress_of state.old changed.old.items fired.old)
            (progress_of state.new changed.new.items fired.new)
            (λ doing. do_change self.now.unit.now self.now.owner doing change.now)) }
        ensures own { IsStateOf self.now.unit.now state.new }
        ensures rows { state.new.rows ≡ state.old.rows }
        ensures kept { state.new.kept ≡ state.old.kept }
        ensures cost { steps.new ≤ steps.old + (term_leaves change.now.value + 2)
            * length (owners_of_change (holder_named self.now.unit.now change.now.property)
            (length state.old.rows) self.now.owner) }
    {
        let owner = self.owner;
        match self.holder(&change.property) {
            Holder::Run => self.change_for(change, owner, state, changed, fired, steps),
            Holder::Persons => match owner {
                Owner::Run => self.change_for_everyone(change, state, changed, fired, steps),
                Owner::Person(_) => self.change_for(change, owner, state, changed, fired, steps),
            },
        }
    }

    /// Makes the change for each person.
    fn change_for_everyone<L: Ledger>(
        &self,
        change: &Change,
        state: &mut State,
        changed: &mut Vec<u32>,
        fired: &mut Fired,
        steps: &mut Steps<L>,
    ) -> Result<(), NoMemory>
        requires own { IsStateOf self.now.unit.now state.old }
        requires cells { HasSlots self.now.unit.now (length state.old.rows)
            (flat_map (change_cells self.now.unit.now change.now)
            (map of_person (numbers_below (length state.old.rows)))) }
        ensures does { OnOk result (Does self.now.unit.now
            (progress_of state.old changed.old.items fired.old)
            (progress_of state.new changed.new.items fired.new)
            (λ doing. fold (change_for self.now.unit.now change.now) doing
            (map of_person (numbers_below (length state.old.rows))))) }
        ensures own { IsStateOf self.now.unit.now state.new }
        ensures rows { state.new.rows ≡ state.old.rows }
        ensures kept { state.new.kept ≡ state.old.kept }
        ensures cost { steps.new ≤ steps.old
            + (term_leaves change.now.value + 2) * length state.old.rows }
    {
        for number in 0..state.persons() {
            let person = Owner::Person(PersonNo(number));
            self.change_for(change, person, state, changed, fired, steps)?;
        }
        Ok(())
    }

    /// Makes the change for the owner. Where the new value does not fit, all stays, and the change
    /// is rejected.
    fn change_for<L: Ledger>(
        &self,
        change: &Change,
        owner: Owner,
        state: &mut State,
        changed: &mut Vec<u32>,
        fired: &mut Fired,
        steps: &mut Steps<L>,
    ) -> Result<(), NoMemory>
        requires own { IsStateOf self.now.unit.now state.old }
        requires cells { HasSlots self.now.unit.now (length state.old.rows)
            (change_cells self.now.unit.now change.now owner) }
        ensures does { OnOk result (Does self.now.unit.now
            (progress_of state.old changed.old.items fired.old)
            (progress_of state.new changed.new.items fired.new)
            (λ doing. change_for self.now.unit.now change.now doing owner)) }
        ensures own { IsStateOf self.now.unit.now state.new }
        ensures rows { state.new.rows ≡ state.old.rows }
        ensures kept { state.new.kept ≡ state.old.kept }
        ensures cost { steps.new ≤ steps.old + term_leaves change.now.value }
    {
        let Some(cell) = cell_of_property(self.unit, self.names, owner, &change.property) else {
            return reject(fired);
        };
        let Some(value) = self.new_value(change, owner, state, steps)? else {
            return reject(fired);
        };
        self.write(cell, Some(value), state, changed)
    }

    /// The value that the change gives to the owner; None where it has none that fits the property.
    fn new_value<L: Ledger>(
        &self,
        change: &Change,
        owner: Owner,
        state: &State,
        steps: &mut Steps<L>,
    ) -> Result<Option<Value>, NoMemory>
        requires own { IsStateOf self.now.unit.now state.now }
        ensures value { IfOk result
            (λ value. option_map datum_of value ≡ (term_value self.now.unit.now
            (seen_in self.now.unit.now (run_of state.now)) owner change.now.value
            then if_fitting self.now.unit.now change.now.property)) }
        ensures cost { steps.new ≤ steps.old + term_leaves change.now.value }
    {
        let scope = Scope {
            unit: self.unit,
            names: self.names,
            view: state,
        };
        let Some(value) = scope.value_of(self.alloc, owner, &change.value, steps)? else {
            return Ok(None);
        };
        if !self.fits(&change.property, &value) {
            return Ok(None);
        }
        Ok(Some(value))
    }

    /// Whether the value fits the property that the identifier names.
    fn fits(&self, id: &Id, value: &Value) -> bool
        ensures { result ≡ is_some_and (λ property. fits_property property (datum_of value.now))
            (property_of self.now.unit.now id.now) }
    {
        let Some(number) = self.property_number(id) else {
            return false;
        };
        let property = &self.unit.properties.as_slice()[number.0 as usize];
        fits(property.datatype, self.names.limits(number), value)
    }

    /// Who has values of the property that the identifier names; where it names none, no person has
    /// one.
    fn holder(&self, id: &Id) -> Holder
        ensures { result ≡ holder_named self.now.unit.now id.now }
    {
        let Some(number) = self.property_number(id) else {
            return Holder::Run;
        };
        Holder::of(
            self.unit,
            &self.unit.properties.as_slice()[number.0 as usize],
        )
    }

    /// The number of the property that the identifier names.
    fn property_number(&self, id: &Id) -> Option<PropNo>
        ensures number { option_map (λ number. number.0) result
            ≡ property_number self.now.unit.now id.now }
        ensures within { IfSome result (λ number.
            number.0 < length self.now.unit.now.properties) }
    {
        match self.names.number(id)? {
            Named::Prop(number) => Some(number),
            Named::Role(_) | Named::Thing(_) | Named::Unit => None,
        }
    }
}

/// Counts a change that was rejected.
fn reject(fired: &mut Fired) -> Result<(), NoMemory>
    ensures rejected { OnOk result (fired.new.rejected ≡ fired.old.rejected + 1) }
    ensures sent { fired.new.sent ≡ fired.old.sent }
{
    let Some(rejected) = fired.rejected.checked_add(1) else {
        return Err(NoMemory);
    };
    fired.rejected = rejected;
    Ok(())
}
