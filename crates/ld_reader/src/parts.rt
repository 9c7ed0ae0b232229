//! The documents of roles, properties, environments and activities, and the parts of a unit that
//! they tell.
#![tactic(auto, unfolding(ld_formats::specs::Environments::environments_document, ld_formats::specs::Properties::properties_document, ld_formats::specs::Roles::roles_document, ld_formats::specs::Structures::activities_document, ld_formats::specs::Units::parts), using(crate::proofs::AnswersFormed::answers_formed, ld_json::proofs::First::says_more))]

ghost use Rattle.std.specs.Prelude.{◌≡◌, true, IfOk};
ghost use Rattle.ld_formats.specs.Environments.{environments_document};
ghost use Rattle.ld_formats.specs.Properties.{properties_document};
ghost use Rattle.ld_formats.specs.Roles.{roles_document};
ghost use Rattle.ld_formats.specs.Structures.{activities_document};
ghost use Rattle.ld_formats.specs.Units.{parts};
ghost use Rattle.ld_shape.specs.Reading.{GivesOrSays};

use crate::activities::ActivityShape;
use crate::environments::EnvironmentShape;
use crate::properties::PropertyShape;
use crate::roles::RoleShape;
use crate::structures::StructureShape;
use ld_base::Items;
use ld_json::{Docs, FileNo, Node, ReadFault};
use ld_model::{ActivityList, EnvironmentList, Parts, PropertyList, RoleList, StructureList};
use ld_shape::{ListOf, Reads, list_at, needed_at, read_document_or, read_required};
use std::alloc::Global;

/// The document of roles.
pub struct RolesDocument;

impl Reads for RolesDocument {
    type Value = RoleList;

    ghost shape = { roles_document };

    fn read(alloc: Global, node: &Node<'_, '_>) -> Result<RoleList, ReadFault> {
        node.only(alloc, &["roles"])?;
        needed_at::<ListOf<RoleShape, 1>>(alloc, node, "roles")
    }
}

/// The document of properties.
pub struct PropertiesDocument;

impl Reads for PropertiesDocument {
    type Value = PropertyList;

    ghost shape = { properties_document };

    fn read(alloc: Global, node: &Node<'_, '_>) -> Result<PropertyList, ReadFault> {
        node.only(alloc, &["properties"])?;
        list_at::<PropertyShape>(alloc, node, "properties")
    }
}

/// The document of environments.
pub struct EnvironmentsDocument;

impl Reads for EnvironmentsDocument {
    type Value = EnvironmentList;

    ghost shape = { environments_document };

    fn read(alloc: Global, node: &Node<'_, '_>) -> Result<EnvironmentList, ReadFault> {
        node.only(alloc, &["environments"])?;
        list_at::<EnvironmentShape>(alloc, node, "environments")
    }
}

/// The document of activities and structures.
pub struct ActivitiesDocument;

impl Reads for ActivitiesDocument {
    type Value = (ActivityList, StructureList);

    ghost shape = { activities_document };

    fn read(
        alloc: Global,
        node: &Node<'_, '_>,
    ) -> Result<(ActivityList, StructureList), ReadFault> {
        node.only(alloc, &["activities", "structures"])?;
        let activities = list_at::<ActivityShape>(alloc, node, "activities")?;
        let structures = list_at::<StructureShape>(alloc, node, "structures")?;
        Ok((activities, structures))
    }
}

/// The roles, properties, environments, activities and structures of the documents, each member of
/// which has its form. (docs/FORMATS.md, "Documents")
///
/// # Errors
/// The first fault of shape of these documents, in the order of the files, and `NoMemory`.
pub fn read_parts(alloc: Global, docs: &Docs<'_>) -> Result<Parts, ReadFault>
    ensures answer { GivesOrSays (parts.reading docs.now) result }
    ensures formed { IfOk result (λ read. parts.has_form read ≡ true) }
{
    read_documents(alloc, docs)
}

/// What the documents tell, document by document. Those of properties and of environments may be
/// absent: then there are none.
fn read_documents(alloc: Global, docs: &Docs<'_>) -> Result<Parts, ReadFault>
    ensures { GivesOrSays (parts.reading docs.now) result }
{
    let roles = read_required::<RolesDocument>(alloc, docs, FileNo::Roles)?;
    let properties = read_document_or::<PropertiesDocument>(
        alloc,
        docs,
        FileNo::Properties,
        Items::new(alloc),
    )?;
    let environments = read_document_or::<EnvironmentsDocument>(
        alloc,
        docs,
        FileNo::Environments,
        Items::new(alloc),
    )?;
    let (activities, structures) = read_required::<ActivitiesDocument>(
        alloc,
        docs,
        FileNo::Activities,
    )?;
    Ok(Parts {
        roles,
        properties,
        environments,
        activities,
        structures,
    })
}
