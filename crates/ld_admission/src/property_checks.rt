//! The checks of properties.
#![tactic(auto, using(crate::proofs::NamedParts::cell_there, crate::proofs::NamedParts::has_property, crate::proofs::NamedParts::limits_are))]

ghost use Rattle.std.specs.Prelude.{◌≡◌, ◌+◌, ◌<◌, ◌≤◌, length, true, Some, Ok, IfOk, IfErr, slice_get};
ghost use Rattle.ld_expr.specs.Membership.{is_member_of};
ghost use Rattle.ld_admission.specs.AdmittedView.{HasPropertyCell};
ghost use Rattle.ld_admission.specs.Checks.{fitting_value, may_write, own_cell, the_property};
ghost use Rattle.ld_admission.specs.Found.{numbered_property};
ghost use Rattle.ld_admission.specs.RefusalView.{RefusesWith, answer_of};
ghost use Rattle.ld_state.specs.RunState.{seen_in};
ghost use Rattle.ld_state.specs.StateView.{run_of};
ghost use Rattle.ld_value.specs.Datum.{datum_of};
ghost use Rattle.ld_value.specs.Values.{is_value};

use crate::checker::Checker;
use crate::refusal::Refusal;
use ld_base::{Id, PersonNo, PlainText, PropNo, Steps};
use ld_expr::property_cell_of;
use ld_model::{CellName, Owner, Property};
use ld_names::Named;
use ld_value::fits::fits;
use ld_value::{Value, ValueFault, read_value};
use std::alloc::Global;
use std::sync::ledger::Ledger;

impl<'a, 's> Checker<'a, 's> {
    /// The property of this identifier, and its number.
    pub(crate) fn the_property(&self, id: &Id) -> Result<(PropNo, &'a Property), Refusal<'a>>
        ensures found { answer_of (λ found. numbered_property found.0.0 found.1.now) result
            ≡ the_property self.now.unit.now id.now }
        ensures there { IfOk result (λ found.
            slice_get self.now.unit.now.properties found.0.0 ≡ Some found.1.now) }
    {
        let Some(Named::Prop(number)) = self.unit.names().number(id) else {
            return Err(Refusal::UnknownProperty);
        };
        match self.unit.unit().properties.get(number.0 as usize) {
            Some(property) => Ok((number, property)),
            None => Err(Refusal::UnknownProperty),
        }
    }

    /// The cell of the property, which has this number, for the person.
    pub(crate) fn own_cell(&self, person: PersonNo, number: PropNo, property: &Property) -> CellName
        requires person { person.0 < length self.now.state.now.rows }
        requires there { slice_get self.now.unit.now.properties number.0 ≡ Some property.now }
        ensures cell { result ≡ own_cell self.now.unit.now person.0
            (numbered_property number.0 property.now) }
        ensures possible { HasPropertyCell self.now.unit.now (run_of self.now.state.now) result }
    {
        property_cell_of(self.unit.unit(), Owner::Person(person), number, property)
    }

    /// The value of the text as one of the property's. Memory is wanted where it is a text.
    pub(crate) fn fitting_value(
        &self,
        alloc: Global,
        number: PropNo,
        property: &Property,
        text: &PlainText,
    ) -> Result<Value, Refusal<'a>>
        requires { slice_get self.now.unit.now.properties number.0 ≡ Some property.now }
        ensures value { IfOk result (λ value.
            fitting_value property.now text.now ≡ Ok (datum_of value)) }
        ensures sort { IfOk result (λ value.
            is_value property.now.datatype (datum_of value) ≡ true) }
        ensures refused { IfErr result (RefusesWith (fitting_value property.now text.now)) }
    {
        let value = match read_value(alloc, property.datatype, text.as_str()) {
            Ok(value) => value,
            Err(ValueFault::BadValue) => return Err(Refusal::BadValue),
            Err(ValueFault::NoMemory) => return Err(Refusal::NoMemory),
        };
        if !fits(property.datatype, self.unit.names().limits(number), &value) {
            return Err(Refusal::BadValue);
        }
        Ok(value)
    }

    /// Passes where the property is no role's, or the person is a member of its role.
    pub(crate) fn may_write<L: Ledger>(
        &self,
        person: PersonNo,
        property: &Property,
        steps: &mut Steps<L>,
    ) -> Result<(), Refusal<'a>>
        ensures passed { answer_of (λ _. tt) result ≡ may_write self.now.unit.now
            (run_of self.now.state.now) person.0 property.now }
        ensures cost { steps.new ≤ steps.old + 1 }
    {
        let Some(role) = &property.role else {
            return Ok(());
        };
        if self.is_member_of(role, person, steps) {
            return Ok(());
        }
        Err(Refusal::NotAllowed)
    }

    /// Whether the person is a member of the role.
    fn is_member_of<L: Ledger>(&self, role: &Id, person: PersonNo, steps: &mut Steps<L>) -> bool
        ensures value { result ≡ is_member_of self.now.unit.now
            (seen_in self.now.unit.now (run_of self.now.state.now)) role.now person.0 }
        ensures cost { steps.new ≤ steps.old + 1 }
    {
        self.unit
            .scope(self.state)
            .is_member_of(person, role, steps)
    }
}
