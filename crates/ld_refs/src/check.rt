//! The checks of a whole unit.
#![tactic(auto, unfolding(crate::specs::Checks::check_faults), using(crate::proofs::Distinct::distinct, ld_json::proofs::First::first_of_both))]

ghost use Rattle.std.specs.Prelude.{◌≡◌, ◌≤◌, [], true, IfErr, IfOk, OnOk, length};
ghost use Rattle.ld_formats.specs.Units.{is_well_formed};
ghost use Rattle.ld_json.specs.Fault.{SaysFirst};
ghost use Rattle.ld_names.specs.Identifiers.{HasDistinctIdentifiers};
ghost use Rattle.ld_names.specs.Names.{names_of};
ghost use Rattle.ld_names.specs.Rules.{rules_of};
ghost use Rattle.ld_refs.specs.Checks.{IsValid, check_faults, leaves_of};

use crate::stages::{check_amounts, check_meaning, check_texts};
use ld_json::ReadFault;
use ld_model::Unit;
use ld_names::Names;
use ld_parts::Listing;
use std::alloc::Global;
use std::marker::Model;

/// A valid unit: each member has its form, and no check finds a fault in it.
/// Beside it stand its names and the number of the leaves of its expressions.
pub struct Checked {
    unit: Unit,
    names: Names,
    leaves: u32,
}

// By hand, so that a function which lets one go calls this and is not proved over each field again.
impl Drop for Checked {
    fn drop(self) {
        let Self {
            unit: _,
            names: _,
            leaves: _,
        } = self;
    }
}

impl Model for Checked {
    ghost use Rattle.std.specs.Prelude.{◌≡◌, ◌≤◌, length};
    ghost use Rattle.std.specs.Coded.{codes};
    ghost use Rattle.ld_model.specs.ExpressionCodes.{coded_term, coded_test};
    ghost use Rattle.ld_names.specs.Identifiers.{HasDistinctIdentifiers};
    ghost use Rattle.ld_names.specs.Names.{names_of};
    ghost use Rattle.ld_names.specs.Rules.{rules_of};
    ghost use Rattle.ld_refs.specs.Checks.{CheckedUnit, IsValid, leaves_of};

    ghost Value = { CheckedUnit };

    ghost coded = { Prim.hlevel (codes, coded_term, coded_test) };

    ghost view = { λ s. record {
      unit = s.unit;
      names = s.names;
      leaves = s.leaves;
    } };

    ghost invariant = { λ s. IsValid s.unit × HasDistinctIdentifiers s.unit
        × (s.names ≡ names_of s.unit) × (length (rules_of s.unit) ≤ 600) × (s.leaves ≡ leaves_of s.unit) };
}

impl Checked {
    /// The valid unit. It takes no memory.
    pub fn unit(&self) -> &Unit
        ensures unit { result.now ≡ self.now.unit }
        ensures valid { IsValid result.now }
        ensures distinct { HasDistinctIdentifiers result.now }
    {
        &self.unit
    }

    /// The names of the unit. It takes no memory.
    pub fn names(&self) -> &Names
        ensures { result.now ≡ names_of self.now.unit }
    {
        &self.names
    }

    /// The number of the unit's rules. It takes no memory.
    pub fn rules(&self) -> u32
        ensures { result ≡ length (rules_of self.now.unit) }
    {
        self.names.rules().len() as u32
    }

    /// The number of leaves of the unit's expressions. It takes no memory.
    pub fn leaves(&self) -> u32
        ensures { result ≡ leaves_of self.now.unit }
    {
        self.leaves
    }

    /// The valid unit and its names. It takes no memory.
    pub fn into_parts(self) -> (Unit, Names)
        ensures unit { result.0 ≡ self.unit }
        ensures names { result.1 ≡ names_of self.unit }
        ensures few_rules { length (rules_of self.unit) ≤ 600 }
        ensures valid { IsValid result.0 }
        ensures distinct { HasDistinctIdentifiers result.0 }
    {
        let Checked {
            unit,
            names,
            leaves: _,
        } = self;
        (unit, names)
    }
}

/// The unit with its names, or its first fault, check by check. On a refusal the unit is dropped.
/// (docs/FORMATS.md, "Order of faults")
pub fn check(alloc: Global, unit: Unit) -> Result<Checked, ReadFault>
    requires { is_well_formed unit ≡ true }
    ensures unit { IfOk result (λ checked. checked.unit ≡ unit) }
    ensures valid { OnOk result (IsValid unit) }
    ensures first { IfErr result (SaysFirst (check_faults unit)) }
{
    match check_all(alloc, &unit) {
        Ok((names, leaves)) => Ok(Checked {
            unit,
            names,
            leaves,
        }),
        Err(fault) => Err(fault),
    }
}

/// The names of the unit and the number of its leaves, or its first fault.
fn check_all(alloc: Global, unit: &Unit) -> Result<(Names, u32), ReadFault>
    ensures names { IfOk result (λ both. both.0 ≡ names_of unit.now) }
    ensures few_rules { OnOk result (length (rules_of unit.now) ≤ 600) }
    ensures leaves { IfOk result (λ both. both.1 ≡ leaves_of unit.now) }
    ensures distinct { OnOk result (HasDistinctIdentifiers unit.now) }
    ensures faultless { OnOk result (check_faults unit.now ≡ []) }
    ensures first { IfErr result (SaysFirst (check_faults unit.now)) }
{
    let listing = Listing::of(alloc, unit)?;
    check_texts(alloc, &listing)?;
    let names = Names::of(alloc, unit, &listing)?;
    let graphs = check_meaning(alloc, unit, &names, &listing)?;
    let leaves = check_amounts(alloc, unit, &names, &graphs, &listing)?;
    Ok((names, leaves))
}
