//! Structures of activities.
#![tactic(auto, unfolding(ld_formats::specs::Structures::content_by, ld_formats::specs::Structures::from_one, ld_formats::specs::Structures::structure, ld_formats::specs::Structures::structure_by, ld_shape::specs::Forms::number_within), using(crate::proofs::StructureNames::content_names, ld_json::proofs::First::says_more))]

ghost use Rattle.std.specs.Prelude.{◌≡◌, Some, OnOk, IfOk};
ghost use Rattle.ld_formats.specs.Structures.{structure_words, structure_kind, count_of, children_count, from_one, some_selected, selected_by, content_by, structure_members, structure_by, structure};
ghost use Rattle.ld_json.specs.Access.{IsObject};
ghost use Rattle.ld_shape.specs.Forms.{number};
ghost use Rattle.ld_shape.specs.Objects.{only_members};
ghost use Rattle.ld_shape.specs.Reading.{GivesOrSays};
ghost use Rattle.ld_shape.specs.Words.{one_of};

use ld_base::NoMemory;
use ld_json::{Code, Node, ReadFault};
use ld_model::{ReferenceList, Structure, StructureKind};
use ld_shape::{
    Flag, Identifier, ListOf, Reads, Title, absent_at, default_at, known_at, list_at, needed_at,
    optional_at,
};
use std::alloc::Global;

/// The kind of a structure.
pub struct StructureWord;

impl Reads for StructureWord {
    type Value = StructureKind;

    ghost shape = { one_of structure_words };

    fn read(alloc: Global, node: &Node<'_, '_>) -> Result<StructureKind, ReadFault> {
        match node.text(alloc)? {
            "sequence" => Ok(StructureKind::Sequence),
            "selection" => Ok(StructureKind::Selection),
            _ => Err(node.fault(alloc, Code::WrongShape)),
        }
    }
}

/// A structure.
pub struct StructureShape;

impl Reads for StructureShape {
    type Value = Structure;

    ghost shape = { structure };

    fn read(alloc: Global, node: &Node<'_, '_>) -> Result<Structure, ReadFault> {
        let key = key_of(alloc, node)?;
        read_of_key(alloc, node, key)
    }
}

/// What decides about the number of children to be done: the kind of a structure, and the number of
/// its children, if there is a list of them.
type Key = (StructureKind, Option<usize>);

/// What the node tells of its kind and its children. What is none of the two kinds counts as a
/// selection.
fn key_of(alloc: Global, node: &Node<'_, '_>) -> Result<Key, NoMemory>
    ensures { IfOk result (λ key. key ≡ (structure_kind node.now, children_count node.now)) }
{
    if !node.is_object() {
        return Ok((StructureKind::Selection, None));
    }
    let known = known_at::<StructureWord>(alloc, node, "kind")?;
    let count = count_children(alloc, node)?;
    Ok((known.unwrap_or(StructureKind::Selection), count))
}

/// The number of children, if there is a list of them.
fn count_children(alloc: Global, node: &Node<'_, '_>) -> Result<Option<usize>, NoMemory>
    requires { IsObject node.now }
    ensures { IfOk result (λ count. count ≡ children_count node.now) }
{
    let Some(children) = node.optional("children") else {
        return Ok(None);
    };
    count_if_list(alloc, &children)
}

/// The number of elements, if the node is a list.
fn count_if_list(alloc: Global, node: &Node<'_, '_>) -> Result<Option<usize>, NoMemory>
    ensures { IfOk result (λ count. count ≡ count_of node.now) }
{
    match node.count(alloc) {
        Ok(count) => Ok(Some(count)),
        Err(ReadFault::Refused(_)) => Ok(None),
        Err(ReadFault::NoMemory) => Err(NoMemory),
    }
}

/// A structure of this kind, with this number of children.
fn read_of_key(alloc: Global, node: &Node<'_, '_>, key: Key) -> Result<Structure, ReadFault>
    ensures { GivesOrSays ((structure_by key).reading node.now) result }
{
    only_structure(alloc, node, key)?;
    let identifier = needed_at::<Identifier>(alloc, node, "identifier")?;
    let kind = needed_at::<StructureWord>(alloc, node, "kind")?;
    let title = optional_at::<Title>(alloc, node, "title")?;
    let visible = default_at::<Flag>(alloc, node, "visible", true)?;
    let (number_to_select, (environments, (children, _))) = content_at(alloc, node, key)?;
    Ok(Structure {
        identifier,
        kind,
        title,
        visible,
        number_to_select,
        environments,
        children,
    })
}

/// That the node is an object without members but those of a structure, which are the same in all
/// kinds.
fn only_structure(alloc: Global, node: &Node<'_, '_>, key: Key) -> Result<(), ReadFault>
    ensures object { OnOk result (IsObject node.now) }
    ensures only { GivesOrSays (only_members (structure_members key) node.now) result }
{
    node.only(
        alloc,
        &[
            "identifier",
            "kind",
            "title",
            "visible",
            "number-to-select",
            "environments",
            "children",
            "sort",
            "unit-of-learning-href",
        ],
    )?;
    Ok(())
}

/// What a structure is made of: the number to be done, environments, children, and two members that
/// are left out.
type Content = (Option<u32>, (ReferenceList, (ReferenceList, ((), ()))));

/// The members of a structure that follow those which say how it is shown, for this kind and number
/// of children.
fn content_at(alloc: Global, node: &Node<'_, '_>, key: Key) -> Result<Content, ReadFault>
    requires { IsObject node.now }
    ensures { GivesOrSays ((content_by key).shape.reading node.now) result }
{
    let selected = selected_at(alloc, node, key)?;
    let environments = list_at::<Identifier>(alloc, node, "environments")?;
    let children = needed_at::<ListOf<Identifier, 1>>(alloc, node, "children")?;
    absent_at(alloc, node, "sort")?;
    absent_at(alloc, node, "unit-of-learning-href")?;
    Ok((selected, (environments, (children, ((), ())))))
}

/// The number of children to be done, from 1 to their number where there is a list of them. In a
/// sequence it is `not-in-profile`, whatever it holds.
fn selected_at(alloc: Global, node: &Node<'_, '_>, key: Key) -> Result<Option<u32>, ReadFault>
    requires { IsObject node.now }
    ensures { GivesOrSays ((selected_by key).shape.reading node.now) result }
{
    match key {
        (StructureKind::Sequence, _) => {
            absent_at(alloc, node, "number-to-select")?;
            Ok(None)
        }
        (StructureKind::Selection, None) => {
            optional_at::<FromOne>(alloc, node, "number-to-select")?;
            Ok(None)
        }
        (StructureKind::Selection, Some(count)) => selected_among(alloc, node, count),
    }
}

/// The number of children to be done, of `count`.
fn selected_among(
    alloc: Global,
    node: &Node<'_, '_>,
    count: usize,
) -> Result<Option<u32>, ReadFault>
    requires { IsObject node.now }
    ensures { GivesOrSays ((some_selected (Some count)).shape.reading node.now) result }
{
    let Some(member) = node.optional("number-to-select") else {
        return Ok(None);
    };
    let number = number_up_to(alloc, &member, count)?;
    Ok(Some(number))
}

/// The whole number from 1 to `most` that the node is. One that doesn't fit 32 bits is answered as
/// out of memory, since no machine holds so long a list.
fn number_up_to(alloc: Global, node: &Node<'_, '_>, most: usize) -> Result<u32, ReadFault>
    ensures { GivesOrSays ((number 1 most).reading node.now) result }
{
    let number = node.whole(alloc)?;
    if number < 1 {
        return Err(node.fault(alloc, Code::WrongShape));
    }
    if number > most as u64 {
        return Err(node.fault(alloc, Code::WrongShape));
    }
    match u32::try_from(number) {
        Ok(number) => Ok(number),
        Err(_) => Err(ReadFault::NoMemory),
    }
}

/// A whole number from 1 on.
pub struct FromOne;

impl Reads for FromOne {
    type Value = u64;

    ghost shape = { from_one };

    fn read(alloc: Global, node: &Node<'_, '_>) -> Result<u64, ReadFault> {
        let number = node.whole(alloc)?;
        if number < 1 {
            return Err(node.fault(alloc, Code::WrongShape));
        }
        Ok(number)
    }
}
