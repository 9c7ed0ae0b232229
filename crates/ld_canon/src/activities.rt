//! Activities and structures of them.
#![tactic(auto, unfolding(crate::specs::Activities::activity, crate::specs::Structures::structure))]

ghost use Rattle.std.specs.Prelude.{◌≡◌, OnOk, option_map, codes};
ghost use Rattle.serde_json.specs.View.{members_view};
ghost use Rattle.ld_canon.specs.Activities.{activity, about_members, is_learning, supports_by, kind_word as activity_word};
ghost use Rattle.ld_canon.specs.Canonical.{canonical_activity};
ghost use Rattle.ld_canon.specs.Structures.{structure, kind_word as structure_word, selected_tree};
ghost use Rattle.ld_prints.specs.Rows.{members_into, put_if};

use crate::canonical::PrintsCanonical;
use crate::completions::put_ending;
use crate::items::ItemTree;
use ld_base::NoMemory;
use ld_model::{Activity, ActivityKind, Property, ReferenceList, Structure, StructureKind};
use ld_prints::lists::{ListTree, list};
use ld_prints::members::{needed, object_tree, optional, unless};
use ld_prints::prints::Prints;
use ld_prints::values::{FlagTree, IdTree, NumberTree, TitleTree, text_tree};
use serde_json::{Map, Value, put};
use std::alloc::Global;

/// The kind of an activity.
pub(crate) struct ActivityWordTree;

impl Prints for ActivityWordTree {
    type Of = ActivityKind;

    ghost printed = { activity_word };

    fn tree(alloc: Global, value: &ActivityKind) -> Result<Value, NoMemory> {
        let word = match value {
            ActivityKind::Learning => "learning",
            ActivityKind::Support => "support",
        };
        text_tree(alloc, word)
    }
}

/// Whether the activity is one of learning.
fn is_learning(kind: ActivityKind) -> bool
    ensures { result ≡ is_learning kind }
{
    match kind {
        ActivityKind::Learning => true,
        ActivityKind::Support => false,
    }
}

/// Puts in what is told of the activity before what it is for.
fn put_about(
    alloc: Global,
    value: &Activity,
    members: &mut Map<String, Value>,
) -> Result<(), NoMemory>
    ensures { OnOk result (members_view members.new.entries
        ≡ members_into (members_view members.old.entries)
        (about_members.rows (value.now.identifier, (value.now.kind, (value.now.title, value.now.visible))))) }
{
    needed::<IdTree>(alloc, "identifier", &value.identifier, members)?;
    let is_learning = is_learning(value.kind);
    unless::<ActivityWordTree>(alloc, "kind", is_learning, &value.kind, members)?;
    optional::<TitleTree>(alloc, "title", &value.title, members)?;
    unless::<FlagTree>(alloc, "visible", value.visible, &value.visible, members)
}

/// Puts in the roles whose members are supported; a learning activity has none.
fn put_supports(
    alloc: Global,
    kind: ActivityKind,
    supports: &ReferenceList,
    members: &mut Map<String, Value>,
) -> Result<(), NoMemory>
    ensures { OnOk result (members_view members.new.entries
        ≡ members_into (members_view members.old.entries) ((supports_by kind).rows supports.now)) }
{
    match kind {
        ActivityKind::Learning => Ok(()),
        ActivityKind::Support => list::<IdTree>(alloc, "supports", supports, members),
    }
}

/// An activity.
pub(crate) struct ActivityTree;

impl PrintsCanonical for ActivityTree {
    type Of = Activity;

    ghost print = { activity.print };

    ghost canonical = { canonical_activity };

    fn tree(alloc: Global, properties: &[Property], value: &Activity) -> Result<Value, NoMemory> {
        let mut members = Map::new(alloc);
        put_about(alloc, value, &mut members)?;
        list::<ItemTree>(
            alloc,
            "learning-objectives",
            &value.learning_objectives,
            &mut members,
        )?;
        list::<ItemTree>(alloc, "prerequisites", &value.prerequisites, &mut members)?;
        put_supports(alloc, value.kind, &value.supports, &mut members)?;
        list::<IdTree>(alloc, "environments", &value.environments, &mut members)?;
        list::<ItemTree>(alloc, "items", &value.items, &mut members)?;
        put_ending(
            alloc,
            properties,
            &value.complete,
            &value.on_completion,
            &mut members,
        )?;
        Ok(object_tree(members))
    }
}

/// The kind of a structure.
pub(crate) struct StructureWordTree;

impl Prints for StructureWordTree {
    type Of = StructureKind;

    ghost printed = { structure_word };

    fn tree(alloc: Global, value: &StructureKind) -> Result<Value, NoMemory> {
        let word = match value {
            StructureKind::Sequence => "sequence",
            StructureKind::Selection => "selection",
        };
        text_tree(alloc, word)
    }
}

/// Puts in the number of children to be done.
fn put_selected(
    alloc: Global,
    kind: StructureKind,
    selected: &Option<u32>,
    members: &mut Map<String, Value>,
) -> Result<(), NoMemory>
    ensures { OnOk result (members_view members.new.entries
        ≡ put_if (codes "number-to-select") (option_map (selected_tree kind) selected.now)
        (members_view members.old.entries)) }
{
    let Some(count) = selected else {
        return Ok(());
    };
    let tree = match kind {
        StructureKind::Selection => Value::from(*count),
        // No document has this: the member is left out of this engine.
        StructureKind::Sequence => Value::Null,
    };
    put(members, alloc, "number-to-select", tree)?;
    Ok(())
}

/// A structure.
pub(crate) struct StructureTree;

impl Prints for StructureTree {
    type Of = Structure;

    ghost printed = { structure };

    fn tree(alloc: Global, value: &Structure) -> Result<Value, NoMemory> {
        let mut members = Map::new(alloc);
        needed::<IdTree>(alloc, "identifier", &value.identifier, &mut members)?;
        needed::<StructureWordTree>(alloc, "kind", &value.kind, &mut members)?;
        optional::<TitleTree>(alloc, "title", &value.title, &mut members)?;
        unless::<FlagTree>(
            alloc,
            "visible",
            value.visible,
            &value.visible,
            &mut members,
        )?;
        put_selected(alloc, value.kind, &value.number_to_select, &mut members)?;
        list::<IdTree>(alloc, "environments", &value.environments, &mut members)?;
        needed::<ListTree<IdTree>>(alloc, "children", &value.children, &mut members)?;
        Ok(object_tree(members))
    }
}
