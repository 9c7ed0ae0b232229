//! Properties.
#![tactic(auto, unfolding(ld_formats::specs::Properties::owner_and_values, ld_formats::specs::Properties::property, ld_formats::specs::Properties::property_by), using(ld_json::proofs::First::says_more))]

ghost use Rattle.std.specs.Prelude.{◌≡◌, IfOk};
ghost use Rattle.ld_formats.specs.Properties.{datatype, owner_and_values, property, property_by, property_kind, property_members, property_words, role_by, uri_by};
ghost use Rattle.ld_json.specs.Access.{IsObject};
ghost use Rattle.ld_model.specs.declared.property.PropertyKind.TheVariants.{Loc, LocRole, Glob};
ghost use Rattle.ld_shape.specs.Objects.{only_members, present};
ghost use Rattle.ld_shape.specs.Reading.{GivesOrSays};
ghost use Rattle.ld_shape.specs.Words.{one_of};

use crate::completions::ValueText;
use crate::restrictions::RestrictionsShape;
use ld_base::{Id, NoMemory, PlainText};
use ld_json::{Code, Node, ReadFault};
use ld_model::{Property, PropertyKind, Restrictions};
use ld_shape::{Identifier, Reads, Title, Uri, known_at, needed_at, optional_at};
use ld_value::Kind;
use std::alloc::Global;
use std::marker::PhantomData;

/// The kind of a property.
pub struct PropertyWord;

impl Reads for PropertyWord {
    type Value = PropertyKind;

    ghost shape = { one_of property_words };

    fn read(alloc: Global, node: &Node<'_, '_>) -> Result<PropertyKind, ReadFault> {
        match node.text(alloc)? {
            "loc" => Ok(PropertyKind::Loc),
            "locpers" => Ok(PropertyKind::LocPers),
            "locrole" => Ok(PropertyKind::LocRole),
            "globpers" => Ok(PropertyKind::GlobPers),
            "glob" => Ok(PropertyKind::Glob),
            _ => Err(node.fault(alloc, Code::WrongShape)),
        }
    }
}

/// A datatype.
pub struct DatatypeWord;

impl Reads for DatatypeWord {
    type Value = Kind;

    ghost shape = { datatype };

    fn read(alloc: Global, node: &Node<'_, '_>) -> Result<Kind, ReadFault> {
        match node.text(alloc)? {
            "string" => Ok(Kind::String),
            "text" => Ok(Kind::Text),
            "uri" => Ok(Kind::Uri),
            "boolean" => Ok(Kind::Boolean),
            "integer" => Ok(Kind::Integer),
            "datetime" => Ok(Kind::Datetime),
            "duration" => Ok(Kind::Duration),
            "real" | "file" | "other" => Err(node.fault(alloc, Code::NotInProfile)),
            _ => Err(node.fault(alloc, Code::WrongShape)),
        }
    }
}

/// A value that is always there.
struct Present<R>(PhantomData<R>);

impl<R: Reads> Reads for Present<R> {
    type Value = Option<R::Value>;

    ghost shape = { present R.shape };

    fn read(alloc: Global, node: &Node<'_, '_>) -> Result<Option<R::Value>, ReadFault> {
        let value = R::read(alloc, node)?;
        Ok(Some(value))
    }
}

/// A property.
pub struct PropertyShape;

impl Reads for PropertyShape {
    type Value = Property;

    ghost shape = { property };

    fn read(alloc: Global, node: &Node<'_, '_>) -> Result<Property, ReadFault> {
        let kind = kind_of(alloc, node)?;
        read_property_of(alloc, node, kind)
    }
}

/// The kind of the property at the node, if it is one of the five.
fn kind_of(alloc: Global, node: &Node<'_, '_>) -> Result<Option<PropertyKind>, NoMemory>
    ensures { IfOk result (λ kind. kind ≡ property_kind node.now) }
{
    if !node.is_object() {
        return Ok(None);
    }
    known_at::<PropertyWord>(alloc, node, "kind")
}

/// A property, whose members are those of this kind.
fn read_property_of(
    alloc: Global,
    node: &Node<'_, '_>,
    kind: Option<PropertyKind>,
) -> Result<Property, ReadFault>
    ensures { GivesOrSays ((property_by kind).reading node.now) result }
{
    only_of_kind(alloc, node, kind)?;
    let identifier = needed_at::<Identifier>(alloc, node, "identifier")?;
    let own = needed_at::<PropertyWord>(alloc, node, "kind")?;
    let datatype = needed_at::<DatatypeWord>(alloc, node, "datatype")?;
    let title = optional_at::<Title>(alloc, node, "title")?;
    let (role, (uri, (initial, restrictions))) = owner_and_values_at(alloc, node, kind)?;
    Ok(Property {
        identifier,
        kind: own,
        datatype,
        title,
        role,
        uri,
        initial,
        restrictions,
    })
}

/// That the node is an object, and its members are those of a property of this kind.
fn only_of_kind(
    alloc: Global,
    node: &Node<'_, '_>,
    kind: Option<PropertyKind>,
) -> Result<(), ReadFault>
    ensures object { IfOk result (λ _. IsObject node.now) }
    ensures only { GivesOrSays (only_members (property_members kind) node.now) result }
{
    match kind {
        None => only_unknown(alloc, node),
        Some(PropertyKind::LocRole) => only_of_role(alloc, node),
        Some(PropertyKind::Loc) => only_of_runs(alloc, node),
        Some(PropertyKind::LocPers) => only_of_runs(alloc, node),
        Some(PropertyKind::Glob) => only_shared(alloc, node),
        Some(PropertyKind::GlobPers) => only_shared(alloc, node),
    }
}

/// That the members are those of a property of any kind.
fn only_unknown(alloc: Global, node: &Node<'_, '_>) -> Result<(), ReadFault>
    ensures object { IfOk result (λ _. IsObject node.now) }
    ensures only { GivesOrSays (only_members (property_members None) node.now) result }
{
    node.only(
        alloc,
        &[
            "identifier",
            "kind",
            "datatype",
            "title",
            "role",
            "uri",
            "initial",
            "restrictions",
        ],
    )
}

/// That the members are those of a role's property.
fn only_of_role(alloc: Global, node: &Node<'_, '_>) -> Result<(), ReadFault>
    ensures object { IfOk result (λ _. IsObject node.now) }
    ensures only { GivesOrSays (only_members (property_members (Some LocRole)) node.now) result }
{
    node.only(
        alloc,
        &[
            "identifier",
            "kind",
            "datatype",
            "title",
            "role",
            "initial",
            "restrictions",
        ],
    )
}

/// That the members are those of a property of each run, or of each person in each run.
fn only_of_runs(alloc: Global, node: &Node<'_, '_>) -> Result<(), ReadFault>
    ensures object { IfOk result (λ _. IsObject node.now) }
    ensures only { GivesOrSays (only_members (property_members (Some Loc)) node.now) result }
{
    node.only(
        alloc,
        &[
            "identifier",
            "kind",
            "datatype",
            "title",
            "initial",
            "restrictions",
        ],
    )
}

/// That the members are those of a property that all runs share.
fn only_shared(alloc: Global, node: &Node<'_, '_>) -> Result<(), ReadFault>
    ensures object { IfOk result (λ _. IsObject node.now) }
    ensures only { GivesOrSays (only_members (property_members (Some Glob)) node.now) result }
{
    node.only(
        alloc,
        &[
            "identifier",
            "kind",
            "datatype",
            "title",
            "uri",
            "initial",
            "restrictions",
        ],
    )
}

/// Whose the property is, how it begins, and what restricts it.
fn owner_and_values_at(
    alloc: Global,
    node: &Node<'_, '_>,
    kind: Option<PropertyKind>,
) -> Result<
    (
        Option<Id>,
        (Option<PlainText>, (Option<PlainText>, Option<Restrictions>)),
    ),
    ReadFault,
>
    requires { IsObject node.now }
    ensures { GivesOrSays ((owner_and_values kind).shape.reading node.now) result }
{
    let role = role_at(alloc, node, kind)?;
    let uri = uri_at(alloc, node, kind)?;
    let initial = optional_at::<ValueText>(alloc, node, "initial")?;
    let restrictions = optional_at::<RestrictionsShape>(alloc, node, "restrictions")?;
    Ok((role, (uri, (initial, restrictions))))
}

/// The role of a property of this kind.
fn role_at(
    alloc: Global,
    node: &Node<'_, '_>,
    kind: Option<PropertyKind>,
) -> Result<Option<Id>, ReadFault>
    requires { IsObject node.now }
    ensures { GivesOrSays ((role_by kind).shape.reading node.now) result }
{
    match kind {
        None => optional_at::<Identifier>(alloc, node, "role"),
        Some(PropertyKind::LocRole) => needed_at::<Present<Identifier>>(alloc, node, "role"),
        Some(_) => Ok(None),
    }
}

/// The name that a property of this kind has in all runs.
fn uri_at(
    alloc: Global,
    node: &Node<'_, '_>,
    kind: Option<PropertyKind>,
) -> Result<Option<PlainText>, ReadFault>
    requires { IsObject node.now }
    ensures { GivesOrSays ((uri_by kind).shape.reading node.now) result }
{
    match kind {
        None => optional_at::<Uri>(alloc, node, "uri"),
        Some(PropertyKind::Glob | PropertyKind::GlobPers) => {
            needed_at::<Present<Uri>>(alloc, node, "uri")
        }
        Some(_) => Ok(None),
    }
}
