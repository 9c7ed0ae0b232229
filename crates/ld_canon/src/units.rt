//! The documents of a unit.
#![tactic(auto)]

ghost use Rattle.std.specs.Prelude.{◌≡◌, true, map, option_map, IfOk, OnOk};
ghost use Rattle.serde_json.specs.View.{view, members_view};
ghost use Rattle.ld_canon.specs.Canonical.{canonical as canonical_unit, canonical_property, canonical_condition, canonical_activity, canonical_method, kinds_of};
ghost use Rattle.ld_canon.specs.Conditions.{conditions_document};
ghost use Rattle.ld_canon.specs.Documents.{AreCanonical, StandFor, canonical_documents};
ghost use Rattle.ld_canon.specs.Environments.{environments_document};
ghost use Rattle.ld_canon.specs.Properties.{properties_document};
ghost use Rattle.ld_canon.specs.Structures.{activities_document};
ghost use Rattle.ld_canon.specs.Units.{level_word, level_word_of, content_members, head, unless_empty};
ghost use Rattle.ld_formats.specs.Units.{level_words, head_and_conditions, is_well_formed};
ghost use Rattle.ld_prints.specs.Forms.{one_of};
ghost use Rattle.ld_prints.specs.Rows.{members_into};

use crate::activities::{ActivityTree, StructureTree};
use crate::canonical::{self, PrintsCanonical};
use crate::conditions::ConditionTree;
use crate::environments::EnvironmentTree;
use crate::items::ItemTree;
use crate::methods::MethodTree;
use crate::properties::PropertyTree;
use crate::roles::roles_tree;
use ld_base::NoMemory;
use ld_json::{Doc, Docs};
use ld_model::{
    ActivityList, ConditionList, EnvironmentList, Level, Property, PropertyList, StructureList,
    Unit,
};
use ld_prints::lists::list;
use ld_prints::members::{needed, object_tree, optional, unless};
use ld_prints::prints::Prints;
use ld_prints::values::{IdTree, NumberTree, TextTree, TitleTree, text_tree};
use serde_json::{Map, Value};
use std::alloc::Global;

/// A level.
pub(crate) struct LevelTree;

impl Prints for LevelTree {
    type Of = Level;

    ghost printed = { one_of level_words level_word level_word_of };

    fn tree(alloc: Global, value: &Level) -> Result<Value, NoMemory> {
        let word = match value {
            Level::A => "A",
            Level::B => "B",
            Level::C => "C",
        };
        text_tree(alloc, word)
    }
}

/// The canonical documents of a unit: of all documents that stand for it, those that leave out what
/// need not be said, and have each value text as its value is printed. Those of `examples/first` are
/// shown in docs/FORMATS.md, "Canonical documents". The only error is out of memory.
#[tactic(auto, unfolding(crate::specs::Canonical::canonical, crate::specs::Units::documents_of))]
pub fn documents<'a>(alloc: Global, unit: &Unit) -> Result<Docs<'a>, NoMemory>
    ensures documents { IfOk result (λ docs. docs ≡ canonical_documents unit.now) }
    ensures stand { OnOk result (is_well_formed unit.now ≡ true
        → StandFor (canonical_documents unit.now) unit.now) }
    ensures canonical { OnOk result (is_well_formed unit.now ≡ true
        → AreCanonical (canonical_documents unit.now)) }
{
    let roles = roles_tree(alloc, &unit.roles)?;
    let properties = properties_tree(alloc, &unit.properties)?;
    let environments = environments_tree(alloc, &unit.environments)?;
    let activities = activities_tree(
        alloc,
        unit.properties.as_slice(),
        &unit.activities,
        &unit.structures,
    )?;
    let head = head_tree(alloc, unit)?;
    let conditions = conditions_tree(alloc, unit.properties.as_slice(), &unit.conditions)?;
    Ok(Docs {
        roles: Some(Doc::of(roles)),
        properties: doc_of(properties),
        environments: doc_of(environments),
        activities: Some(Doc::of(activities)),
        unit: Some(Doc::of(head)),
        conditions: doc_of(conditions),
    })
}

/// The document of the tree, if there is one.
fn doc_of<'a>(tree: Option<Value>) -> Option<Doc<'a>>
    ensures { result ≡ option_map view tree }
{
    let tree = tree?;
    Some(Doc::of(tree))
}

/// The tree of the unit's own document.
#[tactic(auto, unfolding(crate::specs::Canonical::canonical, crate::specs::Units::format, crate::specs::Units::head))]
fn head_tree(alloc: Global, unit: &Unit) -> Result<Value, NoMemory>
    ensures { IfOk result (λ tree.
        view tree ≡ head.print (head_and_conditions (canonical_unit unit.now)).0) }
{
    let mut members = Map::new(alloc);
    needed::<NumberTree<1, 1>>(alloc, "format", &unit.format, &mut members)?;
    needed::<IdTree>(alloc, "identifier", &unit.identifier, &mut members)?;
    needed::<LevelTree>(alloc, "level", &unit.level, &mut members)?;
    put_content(alloc, unit, &mut members)?;
    Ok(object_tree(members))
}

/// Puts in the members behind the level.
fn put_content(alloc: Global, unit: &Unit, members: &mut Map<String, Value>) -> Result<(), NoMemory>
    ensures { OnOk result (members_view members.new.entries
        ≡ members_into (members_view members.old.entries)
        (content_members.rows (
          unit.now.title,
          (
            unit.now.turns,
            (
              unit.now.metadata,
              (
                unit.now.learning_objectives,
                (unit.now.prerequisites, canonical_method (kinds_of unit.now.properties) unit.now.method),
              ),
            ),
          ),
        ))) }
{
    optional::<TitleTree>(alloc, "title", &unit.title, members)?;
    unless::<NumberTree<1, 256>>(alloc, "turns", unit.turns == 64, &unit.turns, members)?;
    optional::<TextTree<0, 4096>>(alloc, "metadata", &unit.metadata, members)?;
    list::<ItemTree>(
        alloc,
        "learning-objectives",
        &unit.learning_objectives,
        members,
    )?;
    list::<ItemTree>(alloc, "prerequisites", &unit.prerequisites, members)?;
    let properties = unit.properties.as_slice();
    canonical::needed::<MethodTree>(alloc, properties, "method", &unit.method, members)?;
    Ok(())
}

/// The tree of the document of properties, if there are any.
#[tactic(auto, unfolding(crate::specs::Properties::properties_document))]
fn properties_tree(alloc: Global, properties: &PropertyList) -> Result<Option<Value>, NoMemory>
    ensures { IfOk result (λ tree. option_map view tree
        ≡ unless_empty properties_document.print (map canonical_property properties.now)) }
{
    if properties.is_empty() {
        return Ok(None);
    }
    let mut members = Map::new(alloc);
    canonical::list::<PropertyTree>(
        alloc,
        properties.as_slice(),
        "properties",
        properties,
        &mut members,
    )?;
    Ok(Some(object_tree(members)))
}

/// The tree of the document of environments, if there are any.
#[tactic(auto, unfolding(crate::specs::Environments::environments_document))]
fn environments_tree(
    alloc: Global,
    environments: &EnvironmentList,
) -> Result<Option<Value>, NoMemory>
    ensures { IfOk result (λ tree. option_map view tree
        ≡ unless_empty environments_document.print environments.now) }
{
    if environments.is_empty() {
        return Ok(None);
    }
    let mut members = Map::new(alloc);
    list::<EnvironmentTree>(alloc, "environments", environments, &mut members)?;
    Ok(Some(object_tree(members)))
}

/// The tree of the document of activities and structures.
#[tactic(auto, unfolding(crate::specs::Structures::activities_document))]
fn activities_tree(
    alloc: Global,
    properties: &[Property],
    activities: &ActivityList,
    structures: &StructureList,
) -> Result<Value, NoMemory>
    ensures { IfOk result (λ tree. view tree ≡ activities_document.print
        (map (canonical_activity (kinds_of properties.now)) activities.now, structures.now)) }
{
    let mut members = Map::new(alloc);
    canonical::list::<ActivityTree>(alloc, properties, "activities", activities, &mut members)?;
    list::<StructureTree>(alloc, "structures", structures, &mut members)?;
    Ok(object_tree(members))
}

/// The tree of the document of conditions, if there are any.
#[tactic(auto, unfolding(crate::specs::Conditions::conditions_document))]
fn conditions_tree(
    alloc: Global,
    properties: &[Property],
    conditions: &ConditionList,
) -> Result<Option<Value>, NoMemory>
    ensures { IfOk result (λ tree. option_map view tree
        ≡ unless_empty conditions_document.print (map canonical_condition conditions.now)) }
{
    if conditions.is_empty() {
        return Ok(None);
    }
    let mut members = Map::new(alloc);
    canonical::list::<ConditionTree>(alloc, properties, "conditions", conditions, &mut members)?;
    Ok(Some(object_tree(members)))
}
