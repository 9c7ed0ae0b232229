//! Trees of things that have value texts, which are printed as their values are.
ghost use Rattle.std.specs.Prelude.{◌≡◌, IfOk, OnOk, map, option_map};
ghost use Rattle.serde_json.specs.Data.{Data, array, put as with_member};
ghost use Rattle.serde_json.specs.View.{view, items_of, items_view, members_view};
ghost use Rattle.ld_canon.specs.Canonical.{Kinds, kinds_of};
ghost use Rattle.ld_prints.specs.Lists.{array_of, array_unless_none};
ghost use Rattle.ld_prints.specs.Rows.{put_if};

use ld_base::{Items, NoMemory};
use ld_model::Property;
use serde_json::{Map, Value, put};
use std::alloc::Global;

/// A way to print such things. The type that implements it is a name alone, and has no values of use.
pub(crate) trait PrintsCanonical {
    type Of;

    ghost print: { Self.Of → Data };

    /// The thing with each value text as its value is printed, by the datatypes of the properties.
    ghost canonical: { Kinds → Self.Of → Self.Of };

    /// The tree of the thing so.
    fn tree(alloc: Global, properties: &[Property], value: &Self::Of) -> Result<Value, NoMemory>
        ensures { IfOk result (λ tree.
            view tree ≡ print (canonical (kinds_of properties.now) value.now)) };
}

/// A member that has to be there.
pub(crate) fn needed<P: PrintsCanonical>(
    alloc: Global,
    properties: &[Property],
    name: &str,
    value: &P::Of,
    members: &mut Map<String, Value>,
) -> Result<(), NoMemory>
    ensures { OnOk result (members_view members.new.entries
        ≡ with_member name.now (P.print (P.canonical (kinds_of properties.now) value.now))
        (members_view members.old.entries)) }
{
    let tree = P::tree(alloc, properties, value)?;
    put(members, alloc, name, tree)?;
    Ok(())
}

/// A member that may be absent.
pub(crate) fn optional<P: PrintsCanonical>(
    alloc: Global,
    properties: &[Property],
    name: &str,
    value: &Option<P::Of>,
    members: &mut Map<String, Value>,
) -> Result<(), NoMemory>
    ensures { OnOk result (members_view members.new.entries
        ≡ put_if name.now (option_map P.print (option_map (P.canonical (kinds_of properties.now)) value.now))
        (members_view members.old.entries)) }
{
    match value {
        Some(value) => needed::<P>(alloc, properties, name, value, members),
        None => Ok(()),
    }
}

/// The list at the member of this name.
pub(crate) fn needed_list<P: PrintsCanonical>(
    alloc: Global,
    properties: &[Property],
    name: &str,
    values: &Items<P::Of>,
    members: &mut Map<String, Value>,
) -> Result<(), NoMemory>
    ensures { OnOk result (members_view members.new.entries
        ≡ with_member name.now (array_of P.print (map (P.canonical (kinds_of properties.now)) values.now))
        (members_view members.old.entries)) }
{
    let trees = trees_of::<P>(alloc, properties, values.as_slice())?;
    put(members, alloc, name, Value::from(trees))?;
    Ok(())
}

/// The list at the member of this name; an empty one is left out.
pub(crate) fn list<P: PrintsCanonical>(
    alloc: Global,
    properties: &[Property],
    name: &str,
    values: &Items<P::Of>,
    members: &mut Map<String, Value>,
) -> Result<(), NoMemory>
    ensures { OnOk result (members_view members.new.entries
        ≡ put_if name.now (array_unless_none P.print (map (P.canonical (kinds_of properties.now)) values.now))
        (members_view members.old.entries)) }
{
    if values.is_empty() {
        return Ok(());
    }
    needed_list::<P>(alloc, properties, name, values, members)
}

/// The trees of things.
fn trees_of<P: PrintsCanonical>(
    alloc: Global,
    properties: &[Property],
    values: &[P::Of],
) -> Result<Vec<Value>, NoMemory>
    ensures { IfOk result (λ trees.
        map view trees.items ≡ map P.print (map (P.canonical (kinds_of properties.now)) values.now)) }
{
    let mut trees = Vec::new(alloc);
    for value in values {
        let tree = P::tree(alloc, properties, value)?;
        trees.push(tree)?;
    }
    Ok(trees)
}
