//! The run's cell for a key of the store.
ghost use Rattle.std.specs.Prelude.{◌≡◌, option_copied, option_map, IfOk};
ghost use Rattle.ld_expr.specs.Seen.{property_cell};
ghost use Rattle.ld_model.specs.Counting.{number_where};
ghost use Rattle.ld_roles.specs.Kept.{persons_of};
ghost use Rattle.ld_sharing.specs.Globals.{cell_of_key, has_uri};
ghost use Rattle.ld_sharing.specs.Readable.{owner_named};

use ld_base::{Id, NoMemory, PropNo, Text, number};
use ld_model::{Owner, Property};
use ld_rules::PreparedUnit;
use ld_state::State;

/// The run's cell for the key, as its property and its owner; None where the run has none. It takes
/// time as the number of properties, and no memory; the only error is a number out of range.
pub(crate) fn find_cell(
    unit: &PreparedUnit,
    state: &State,
    uri: &Text,
    person: Option<&Id>,
) -> Result<Option<(PropNo, Owner)>, NoMemory>
    ensures { IfOk result (λ found. option_map (λ one. property_cell one.0.0 one.1) found
        ≡ cell_of_key unit.now (persons_of state.now.rows) uri.now.bytes
        (option_copied person.entry)) }
{
    let Some(property) = find_property(unit, uri, person.is_some())? else {
        return Ok(None);
    };
    let Some(owner) = find_owner(state, person) else {
        return Ok(None);
    };
    Ok(Some((property, owner)))
}

/// The property that has the uri, as one of persons or as one of the run; None where there is none.
fn find_property(
    unit: &PreparedUnit,
    uri: &Text,
    personal: bool,
) -> Result<Option<PropNo>, NoMemory>
    ensures { IfOk result (λ found. option_map (λ property. property.0) found
        ≡ number_where (has_uri uri.now.bytes personal) unit.now.properties) }
{
    let properties = unit.unit().properties.as_slice();
    match first_with(properties, uri, personal) {
        Some(index) => Ok(Some(PropNo(number(index)?))),
        None => Ok(None),
    }
}

/// The place of the first of the properties that has the uri, as one of persons or as one of the
/// run.
fn first_with(properties: &[Property], uri: &Text, personal: bool) -> Option<usize>
    ensures { result ≡ number_where (has_uri uri.now.bytes personal) properties.now }
{
    properties
        .iter()
        .position(|property| has_uri(property, uri, personal))
}

/// Whether the property has the uri, as one of persons or as one of the run.
fn has_uri(property: &Property, uri: &Text, personal: bool) -> bool
    ensures { result ≡ has_uri uri.now.bytes personal property.now }
{
    if property.kind.is_personal() != personal {
        return false;
    }
    match &property.uri {
        Some(own) => uri.as_str() == own.as_str(),
        None => false,
    }
}

/// The run where no name is given, or the person of the name; None where nobody has it.
fn find_owner(state: &State, person: Option<&Id>) -> Option<Owner>
    ensures { result ≡ owner_named (persons_of state.now.rows) (option_copied person.entry) }
{
    match person {
        Some(name) => Some(Owner::Person(state.roster().person(name)?)),
        None => Some(Owner::Run),
    }
}
