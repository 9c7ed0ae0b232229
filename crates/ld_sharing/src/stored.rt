//! What the store holds of a unit's global properties when a run is made or a person joins.
ghost use Rattle.std.specs.Prelude.{◌≡◌, ◌<◌, ◌≤◌, ◌+◌, length, is_some, option_copied, slice_get, IfOk, OnOk, if◌then◌else◌};
ghost use Rattle.ld_cells.specs.Stored.{cells_of, held};
ghost use Rattle.ld_expr.specs.Lookup.{is_some_and};
ghost use Rattle.ld_model.specs.Properties.{is_personal};
ghost use Rattle.ld_state.specs.Beginnings.{stored_for};
ghost use Rattle.ld_value.specs.Datum.{same_truth};
ghost use Rattle.ld_sharing.specs.Fitting.{BeginsFitting};
ghost use Rattle.ld_sharing.specs.Readable.{FitsStored, IsShared, IsStoredOf};
ghost use Rattle.ld_sharing.specs.StoreView.{Serves, is_shared, shared_count, values_of};

use crate::reading::{copy_of, read_key};
use ld_base::{Id, NoMemory, PropNo, Steps, Text, number};
use ld_globals::Globals;
use ld_model::PropertyKind;
use ld_rules::PreparedUnit;
use ld_value::Value;
use std::alloc::Global;
use std::sync::ledger::Ledger;

/// What the store holds of each global property: where each person has a value of it, for the
/// person of this name. One key is read for each such property. The only error is out of memory.
pub fn stored_values<L: Ledger>(
    alloc: Global,
    unit: &PreparedUnit,
    globals: &Globals,
    person: Option<&Id>,
    steps: &mut Steps<L>,
) -> Result<Vec<Option<Value>>, NoMemory>
    requires serves { Serves globals.now unit.now }
    ensures values { IfOk result (λ stored. cells_of stored.items
        ≡ stored_for (values_of globals.now) (option_copied person.entry) unit.now.properties) }
    ensures fitting { OnOk result
        (BeginsFitting unit.now (values_of globals.now) (option_copied person.entry)) }
    ensures cost { steps.new ≤ steps.old
        + shared_count unit.now (is_some (option_copied person.entry)) }
{
    let count = unit.unit().properties.len();
    let mut stored = Vec::with_capacity(alloc, count)?;
    for index in 0..count {
        let property = PropNo(number(index)?);
        stored.push(stored_value(alloc, unit, property, globals, person, steps)?)?;
    }
    Ok(stored)
}

/// What the store holds of the property, if it is a global one: where each person has a value of
/// it, for the person of this name.
fn stored_value<L: Ledger>(
    alloc: Global,
    unit: &PreparedUnit,
    property: PropNo,
    globals: &Globals,
    person: Option<&Id>,
    steps: &mut Steps<L>,
) -> Result<Option<Value>, NoMemory>
    requires serves { Serves globals.now unit.now }
    requires there { property.0 < length unit.now.properties }
    ensures value { IfOk result (λ value. IsStoredOf unit.now (values_of globals.now)
        (option_copied person.entry) property.0 (held value)) }
    ensures fitting { OnOk result (FitsStored unit.now (values_of globals.now)
        (option_copied person.entry) property.0) }
    ensures cost { steps.new ≤ steps.old
        + (if is_some_and (is_shared (is_some (option_copied person.entry)))
        (slice_get unit.now.properties property.0) then 1 else 0) }
{
    let Some(uri) = unit.uri(property) else {
        return Ok(None);
    };
    let kind = unit.unit().properties.as_slice()[property.0 as usize].kind;
    if !is_for(kind, person) {
        return Ok(None);
    }
    shared_value(alloc, unit, property, uri, globals, person, steps)
}

/// What the store holds of the global property, which has a value for the person of this name, or
/// one for all where no name is given.
fn shared_value<L: Ledger>(
    alloc: Global,
    unit: &PreparedUnit,
    property: PropNo,
    uri: &Text,
    globals: &Globals,
    person: Option<&Id>,
    steps: &mut Steps<L>,
) -> Result<Option<Value>, NoMemory>
    requires shared { IsShared unit.now globals.now property.0 uri.now.bytes
        (is_some (option_copied person)) }
    ensures value { IfOk result (λ value. IsStoredOf unit.now (values_of globals.now)
        (option_copied person.entry) property.0 (held value)) }
    ensures fitting { OnOk result (FitsStored unit.now (values_of globals.now)
        (option_copied person.entry) property.0) }
    ensures cost { steps.new ≡ steps.old + 1 }
{
    copy_of(alloc, read_key(globals, uri, person, steps))
}

/// Whether a property of the kind has a value for the person, or one for all where no name is
/// given.
fn is_for(kind: PropertyKind, person: Option<&Id>) -> bool
    ensures { result ≡ same_truth (is_personal kind) (is_some (option_copied person.entry)) }
{
    match person {
        Some(_) => kind.is_personal(),
        None => !kind.is_personal(),
    }
}
