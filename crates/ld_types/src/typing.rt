//! The types that places want.
#![tactic(auto, unfolding(crate::specs::Typing::change_faults), using(ld_json::proofs::First::first_of_both))]

ghost use Rattle.std.specs.Prelude.{◌≡◌, [], IfErr, OnOk, option_copied};
ghost use Rattle.ld_json.specs.Fault.{SaysFirst};
ghost use Rattle.ld_walk.specs.PartView.{typed_of};
ghost use Rattle.ld_json.specs.declared.code.Code.TheVariants.{BadType};
ghost use Rattle.ld_types.specs.Faults.{fault_if};
ghost use Rattle.ld_types.specs.Types.{is_person's, type_named};
ghost use Rattle.ld_types.specs.Typing.{change_faults, is_no_value_of, is_other_type, typed_faults};
ghost use Rattle.ld_types.specs.TypingView.{find_by};

use crate::literals::is_no_value;
use crate::properties::check_property;
use crate::types::ValueType;
use ld_base::{Id, PlainText};
use ld_json::{Code, ReadFault};
use ld_model::{Property, Term, Unit};
use ld_names::{Named, Names};
use ld_walk::{Spot, Typed};
use std::alloc::Global;

/// What the properties of a unit are, which has these names: so terms, tests and changes have
/// types.
#[derive(Clone, Copy)]
pub struct Typing<'a> {
    pub unit: &'a Unit,
    pub names: &'a Names,
}

impl<'a> Typing<'a> {
    /// That what stands at the place has the right types: the first place that breaks a rule is
    /// named `bad-type`. (docs/FORMATS.md, "Types")
    pub fn check_typed(
        &self,
        alloc: Global,
        at: &Spot<'_>,
        typed: Typed<'_>,
    ) -> Result<(), ReadFault>
        ensures faultless { OnOk result
            (typed_faults (find_by self.now) at.now (typed_of typed.entry) ≡ []) }
        ensures first { IfErr result
            (SaysFirst (typed_faults (find_by self.now) at.now (typed_of typed.entry))) }
    {
        match typed {
            Typed::Declared(property) => check_property(alloc, at, property),
            Typed::ValueOf(id, text) => self.check_value(alloc, at, id, text),
            Typed::OfRun(id) => {
                if self.is_persons(id) {
                    return Err(at.fault(alloc, Code::BadType));
                }
                Ok(())
            }
            Typed::Changed(by_run, property, value) => {
                self.check_change(alloc, at, by_run, property, value)
            }
            Typed::Tested(test) => self.check_test(alloc, at, test),
        }
    }

    /// That the text is a value of the property.
    fn check_value(
        &self,
        alloc: Global,
        at: &Spot<'_>,
        id: &Id,
        text: &PlainText,
    ) -> Result<(), ReadFault>
        ensures faultless { OnOk result
            (fault_if (is_no_value_of (find_by self.now id.now) text.now) BadType at.now ≡ []) }
        ensures first { IfErr result
            (SaysFirst
            (fault_if (is_no_value_of (find_by self.now id.now) text.now) BadType at.now)) }
    {
        let Some(property) = self.property(id) else {
            return Ok(());
        };
        if is_no_value(alloc, property.datatype, text)? {
            return Err(at.fault(alloc, Code::BadType));
        }
        Ok(())
    }

    /// That the property gets a value of its own type, and that the term has no fault.
    fn check_change(
        &self,
        alloc: Global,
        at: &Spot<'_>,
        by_run: bool,
        property: &Id,
        value: &Term,
    ) -> Result<(), ReadFault>
        ensures faultless { OnOk result
            (change_faults (find_by self.now) at.now by_run property.now value.now ≡ []) }
        ensures first { IfErr result
            (SaysFirst (change_faults (find_by self.now) at.now by_run property.now value.now)) }
    {
        if is_other_type(self.type_named(property), self.term_type(alloc, value)?) {
            return Err(at.fault(alloc, Code::BadType));
        }
        let of_run = by_run && !self.is_persons(property);
        self.check_term(alloc, &at.member("value"), of_run, value)?;
        Ok(())
    }

    /// The property that the identifier names.
    fn property(&self, id: &Id) -> Option<&'a Property>
        ensures { option_copied result ≡ find_by self.now id.now }
    {
        match self.names.number(id)? {
            Named::Prop(number) => self.unit.properties.get(number.0 as usize),
            Named::Unit | Named::Role(_) | Named::Thing(_) => None,
        }
    }

    /// The type of the property that the identifier names.
    pub(crate) fn type_named(&self, id: &Id) -> Option<ValueType>
        ensures { result ≡ type_named (find_by self.now) id.now }
    {
        let property = self.property(id)?;
        Some(ValueType::of(property.datatype))
    }

    /// Whether the identifier names a property of which each person has a value.
    pub(crate) fn is_persons(&self, id: &Id) -> bool
        ensures { result ≡ is_person's (find_by self.now id.now) }
    {
        match self.property(id) {
            Some(property) => property.kind.is_personal(),
            None => false,
        }
    }
}

/// Whether a property gets a value of another type.
fn is_other_type(property: Option<ValueType>, value: Option<ValueType>) -> bool
    ensures { result ≡ is_other_type property value }
{
    match (property, value) {
        (Some(property), Some(value)) => !property.is(value),
        _ => false,
    }
}
