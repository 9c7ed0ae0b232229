//! How the properties of a unit that have a uri are declared.
ghost use Rattle.std.specs.Prelude.{◌≡◌, ◌<◌, ◌++◌, Some, length, map, option_map, slice_get, IfOk, OnOk};
ghost use Rattle.ld_globals.specs.Declarations.{declaration_of};
ghost use Rattle.ld_globals.specs.Kept.{pairs_of};
ghost use Rattle.ld_sharing.specs.StoreView.{declaration_by, kind_declared};
ghost use Rattle.ld_value.specs.Datum.{datum_of};
ghost use Rattle.ld_value.specs.Values.{restrictions_of};
ghost use Rattle.ld_world.specs.Declaring.{pairs_at, pairs_by};

use ld_base::{NoMemory, PropNo, Text, number};
use ld_globals::{Declared, DeclaredList, GlobalKind};
use ld_model::PropertyKind;
use ld_rules::PreparedUnit;
use ld_value::{Limits, Value, ValueList};
use std::alloc::Global;

/// Each uri of the unit's properties, with how it is declared. The only error is out of memory.
pub(crate) fn declarations_of(alloc: Global, unit: &PreparedUnit) -> Result<DeclaredList, NoMemory>
    ensures { IfOk result (λ list. pairs_of list ≡ pairs_by unit.now.properties) }
{
    let mut list = DeclaredList::new(alloc);
    let count = unit.unit().properties.len();
    let mut n = 0;
    while n < count {
        push_declaration(alloc, unit, PropNo(number(n)?), &mut list)?;
        n += 1;
    }
    Ok(list)
}

/// Appends the property's uri, if it has one, with how it is declared.
fn push_declaration(
    alloc: Global,
    unit: &PreparedUnit,
    property: PropNo,
    list: &mut DeclaredList,
) -> Result<(), NoMemory>
    requires { property.0 < length unit.now.properties }
    ensures { OnOk result (pairs_of list.new
        ≡ pairs_of list.old ++ pairs_at unit.now.properties property.0) }
{
    let Some(uri) = unit.uri(property) else {
        return Ok(());
    };
    let uri = Text::of(alloc, uri.as_str())?;
    let declared = declared_by(alloc, unit, property)?;
    list.push((uri, declared))
}

/// How the uri of the property is declared.
fn declared_by(alloc: Global, unit: &PreparedUnit, property: PropNo) -> Result<Declared, NoMemory>
    requires { property.0 < length unit.now.properties }
    ensures { IfOk result (λ declared. Some (declaration_of declared)
        ≡ option_map declaration_by (slice_get unit.now.properties property.0)) }
{
    let names = unit.names();
    let limits = copy_limits(alloc, names.limits(property))?;
    let initial = copy_of(alloc, names.initial(property))?;
    let Some(property) = unit.unit().properties.get(property.0 as usize) else {
        unreachable!();
    };
    Ok(Declared {
        kind: kind_of(property.kind),
        datatype: property.datatype,
        limits,
        initial,
    })
}

/// Whether each person has a value of a property of the kind.
fn kind_of(kind: PropertyKind) -> GlobalKind
    ensures { result ≡ kind_declared kind }
{
    match kind {
        PropertyKind::LocPers | PropertyKind::GlobPers => GlobalKind::GlobPers,
        PropertyKind::Loc | PropertyKind::LocRole | PropertyKind::Glob => GlobalKind::Glob,
    }
}

/// The same restrictions once more.
fn copy_limits(alloc: Global, limits: &Limits) -> Result<Limits, NoMemory>
    ensures { IfOk result (λ copy. restrictions_of copy ≡ restrictions_of limits.now) }
{
    let least = copy_of(alloc, limits.least.as_ref())?;
    let most = copy_of(alloc, limits.most.as_ref())?;
    let one_of = copy_all(alloc, limits.one_of.as_slice())?;
    Ok(Limits {
        least,
        most,
        min_length: limits.min_length,
        max_length: limits.max_length,
        one_of,
    })
}

/// The same values once more.
fn copy_all(alloc: Global, values: &[Value]) -> Result<ValueList, NoMemory>
    ensures { IfOk result (λ copies. map datum_of copies ≡ map datum_of values.now) }
{
    let mut copies = ValueList::new(alloc);
    for value in values {
        copies.push(value.copy(alloc)?)?;
    }
    Ok(copies)
}

/// The same value once more, if there is one.
fn copy_of(alloc: Global, value: Option<&Value>) -> Result<Option<Value>, NoMemory>
    ensures { IfOk result (λ copy. option_map datum_of copy
        ≡ option_map (λ found. datum_of found.now) value.entry) }
{
    match value {
        Some(value) => Ok(Some(value.copy(alloc)?)),
        None => Ok(None),
    }
}
