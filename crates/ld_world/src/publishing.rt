//! Units by their identifiers.
ghost use Rattle.std.specs.Prelude.{◌≡◌, [], map, find, option_map, option_copied, IfErr, OnOk};
ghost use Rattle.std.specs.Str.{bytes_eq};
ghost use Rattle.ld_json.specs.Fault.{Says, SaysFirst};
ghost use Rattle.ld_world.specs.Published.{repeated_unit, repeats_unit};
ghost use Rattle.ld_world.specs.World.{unit_named};

use ld_base::{Id, Text};
use ld_json::{Code, Fault, FileNo, ReadFault};
use ld_model::Unit;
use ld_rules::PreparedUnit;
use std::alloc::Global;
use std::rc::Rc;

/// That no other unit has the identifier of the unit.
pub(crate) fn check_identifier(
    alloc: Global,
    units: &[Rc<PreparedUnit>],
    unit: &Unit,
) -> Result<(), ReadFault>
    ensures faultless { OnOk result
        (repeats_unit (map (λ other. other.value) units.now) unit.now ≡ []) }
    ensures first { IfErr result
        (SaysFirst (repeats_unit (map (λ other. other.value) units.now) unit.now)) }
{
    if let Some(_) = find_unit(units, &unit.identifier) {
        return Err(repeated_unit(alloc));
    }
    Ok(())
}

/// The refusal that an earlier unit has the identifier, or `NoMemory`.
fn repeated_unit(alloc: Global) -> ReadFault
    ensures { Says repeated_unit result }
{
    match Text::of(alloc, "/identifier") {
        Ok(place) => ReadFault::Refused(Fault {
            file: FileNo::Unit,
            place,
            code: Code::RepeatedUnit,
        }),
        Err(_) => ReadFault::NoMemory,
    }
}

/// The published unit of this identifier. It takes time as the number of units, and no memory.
pub(crate) fn find_unit<'a>(units: &'a [Rc<PreparedUnit>], id: &Id) -> Option<&'a Rc<PreparedUnit>>
    ensures { option_map (λ unit. unit.value) (option_copied result)
        ≡ unit_named (map (λ unit. unit.value) units.now) id.now }
{
    first_named(units, id)
}

/// The first of the units that has the identifier.
fn first_named<'a>(units: &'a [Rc<PreparedUnit>], id: &Id) -> Option<&'a Rc<PreparedUnit>>
    ensures { option_copied result
        ≡ find (λ unit. bytes_eq unit.value.identifier id.now) units.now }
{
    units.iter().find(|unit| has_identifier(unit, id))
}

/// Whether the unit has the identifier.
fn has_identifier(unit: &PreparedUnit, id: &Id) -> bool
    ensures { result ≡ bytes_eq unit.now.identifier id.now }
{
    unit.unit().identifier == *id
}
