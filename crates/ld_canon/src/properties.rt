//! Properties and what restricts their values.
#![tactic(auto, unfolding(crate::specs::Properties::property, crate::specs::Properties::restrictions))]

ghost use Rattle.std.specs.Prelude.{◌≡◌, IfOk, OnOk, Some, map, option_map, codes};
ghost use Rattle.serde_json.specs.Data.{string, put as with_member};
ghost use Rattle.serde_json.specs.View.{view, members_view};
ghost use Rattle.ld_canon.specs.Canonical.{canonical_text, canonical_restrictions, canonical_property};
ghost use Rattle.ld_prints.specs.Lists.{array_unless_none};
ghost use Rattle.ld_canon.specs.Properties.{restrictions, kind_word, datatype, role_by, uri_by, property};
ghost use Rattle.ld_prints.specs.Objects.{given_tree};
ghost use Rattle.ld_prints.specs.Rows.{members_into, put_if};

use crate::canonical::PrintsCanonical;
use crate::texts::value_text;
use ld_base::{Id, Items, NoMemory, PlainText};
use ld_model::{Property, PropertyKind, Restrictions};
use ld_prints::members::{needed, object_tree, optional};
use ld_prints::prints::Prints;
use ld_prints::values::{IdTree, NumberTree, TitleTree, UriTree, text_tree};
use ld_value::Kind;
use serde_json::{Map, Value, put};
use std::alloc::Global;

/// The text at the member of this name, as its value of the datatype is printed.
fn put_text(
    alloc: Global,
    kind: Kind,
    name: &str,
    text: &Option<PlainText>,
    members: &mut Map<String, Value>,
) -> Result<(), NoMemory>
    ensures { OnOk result (members_view members.new.entries
        ≡ put_if name.now (option_map string (option_map (canonical_text kind) text.now))
        (members_view members.old.entries)) }
{
    let Some(text) = text else {
        return Ok(());
    };
    let tree = value_text(alloc, kind, text.as_str())?;
    put(members, alloc, name, tree)?;
    Ok(())
}

/// The texts at the member of this name, as their values are printed; an empty list is left out.
fn put_texts(
    alloc: Global,
    kind: Kind,
    name: &str,
    texts: &Items<PlainText>,
    members: &mut Map<String, Value>,
) -> Result<(), NoMemory>
    ensures { OnOk result (members_view members.new.entries
        ≡ put_if name.now (array_unless_none string (map (canonical_text kind) texts.now))
        (members_view members.old.entries)) }
{
    if texts.is_empty() {
        return Ok(());
    }
    let trees = trees_of_texts(alloc, kind, texts.as_slice())?;
    put(members, alloc, name, Value::from(trees))?;
    Ok(())
}

/// The trees of the texts.
fn trees_of_texts(alloc: Global, kind: Kind, texts: &[PlainText]) -> Result<Vec<Value>, NoMemory>
    ensures { IfOk result (λ trees.
        map view trees.items ≡ map string (map (canonical_text kind) texts.now)) }
{
    let mut trees = Vec::new(alloc);
    for text in texts {
        let tree = value_text(alloc, kind, text.as_str())?;
        trees.push(tree)?;
    }
    Ok(trees)
}

/// What the values of a property of the datatype have to keep to.
fn restrictions_tree(alloc: Global, kind: Kind, value: &Restrictions) -> Result<Value, NoMemory>
    ensures { IfOk result (λ tree.
        view tree ≡ restrictions.print (canonical_restrictions kind value.now)) }
{
    let mut members = Map::new(alloc);
    put_text(
        alloc,
        kind,
        "minInclusive",
        &value.min_inclusive,
        &mut members,
    )?;
    put_text(
        alloc,
        kind,
        "maxInclusive",
        &value.max_inclusive,
        &mut members,
    )?;
    optional::<NumberTree<0, 4096>>(alloc, "minLength", &value.min_length, &mut members)?;
    optional::<NumberTree<0, 4096>>(alloc, "maxLength", &value.max_length, &mut members)?;
    put_texts(alloc, kind, "enumeration", &value.enumeration, &mut members)?;
    Ok(object_tree(members))
}

/// The restrictions, if there are any.
fn put_restrictions(
    alloc: Global,
    kind: Kind,
    value: &Option<Restrictions>,
    members: &mut Map<String, Value>,
) -> Result<(), NoMemory>
    ensures { OnOk result (members_view members.new.entries
        ≡ put_if (codes "restrictions") (option_map restrictions.print (option_map (canonical_restrictions kind) value.now))
        (members_view members.old.entries)) }
{
    let Some(value) = value else {
        return Ok(());
    };
    let tree = restrictions_tree(alloc, kind, value)?;
    put(members, alloc, "restrictions", tree)?;
    Ok(())
}

/// The kind of a property.
pub(crate) struct KindTree;

impl Prints for KindTree {
    type Of = PropertyKind;

    ghost printed = { kind_word };

    fn tree(alloc: Global, value: &PropertyKind) -> Result<Value, NoMemory> {
        let word = match value {
            PropertyKind::Loc => "loc",
            PropertyKind::LocPers => "locpers",
            PropertyKind::LocRole => "locrole",
            PropertyKind::GlobPers => "globpers",
            PropertyKind::Glob => "glob",
        };
        text_tree(alloc, word)
    }
}

/// A datatype.
pub(crate) struct DatatypeTree;

impl Prints for DatatypeTree {
    type Of = Kind;

    ghost printed = { datatype };

    fn tree(alloc: Global, value: &Kind) -> Result<Value, NoMemory> {
        let word = match value {
            Kind::String => "string",
            Kind::Text => "text",
            Kind::Uri => "uri",
            Kind::Boolean => "boolean",
            Kind::Integer => "integer",
            Kind::Datetime => "datetime",
            Kind::Duration => "duration",
        };
        text_tree(alloc, word)
    }
}

/// A value that is there where another property has none.
fn put_present<P: Prints>(
    alloc: Global,
    name: &str,
    value: &Option<P::Of>,
    members: &mut Map<String, Value>,
) -> Result<(), NoMemory>
    ensures { OnOk result (members_view members.new.entries
        ≡ with_member name.now (given_tree P.printed.print value.now) (members_view members.old.entries)) }
{
    let tree = match value {
        Some(value) => P::tree(alloc, value)?,
        // No document has this.
        None => Value::Null,
    };
    put(members, alloc, name, tree)?;
    Ok(())
}

/// Puts in the role, where the property is a role's.
fn put_role(
    alloc: Global,
    kind: PropertyKind,
    role: &Option<Id>,
    members: &mut Map<String, Value>,
) -> Result<(), NoMemory>
    ensures { OnOk result (members_view members.new.entries
        ≡ members_into (members_view members.old.entries) ((role_by (Some kind)).rows role.now)) }
{
    match kind {
        PropertyKind::LocRole => put_present::<IdTree>(alloc, "role", role, members),
        PropertyKind::Loc | PropertyKind::LocPers | PropertyKind::GlobPers | PropertyKind::Glob =>
            Ok(()),
    }
}

/// Puts in the shared name, where the property is one of all runs.
fn put_uri(
    alloc: Global,
    kind: PropertyKind,
    uri: &Option<PlainText>,
    members: &mut Map<String, Value>,
) -> Result<(), NoMemory>
    ensures { OnOk result (members_view members.new.entries
        ≡ members_into (members_view members.old.entries) ((uri_by (Some kind)).rows uri.now)) }
{
    match kind {
        PropertyKind::Glob | PropertyKind::GlobPers => put_present::<UriTree>(
            alloc, "uri", uri, members,
        ),
        PropertyKind::Loc | PropertyKind::LocPers | PropertyKind::LocRole => Ok(()),
    }
}

/// A property.
pub(crate) struct PropertyTree;

impl PrintsCanonical for PropertyTree {
    type Of = Property;

    ghost print = { property.print };

    ghost canonical = { λ _. canonical_property };

    fn tree(alloc: Global, _properties: &[Property], value: &Property) -> Result<Value, NoMemory> {
        let mut members = Map::new(alloc);
        needed::<IdTree>(alloc, "identifier", &value.identifier, &mut members)?;
        needed::<KindTree>(alloc, "kind", &value.kind, &mut members)?;
        needed::<DatatypeTree>(alloc, "datatype", &value.datatype, &mut members)?;
        optional::<TitleTree>(alloc, "title", &value.title, &mut members)?;
        put_role(alloc, value.kind, &value.role, &mut members)?;
        put_uri(alloc, value.kind, &value.uri, &mut members)?;
        put_text(
            alloc,
            value.datatype,
            "initial",
            &value.initial,
            &mut members,
        )?;
        put_restrictions(alloc, value.datatype, &value.restrictions, &mut members)?;
        Ok(object_tree(members))
    }
}
