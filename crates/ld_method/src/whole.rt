//! The whole unit of its documents.
#![tactic(auto, unfolding(ld_formats::specs::Units::method_documents), using(crate::proofs::Formed::answers_formed, crate::proofs::Formed::stands_for_one, ld_json::proofs::First::says_more))]

ghost use Rattle.std.specs.Prelude.{◌≡◌, true, [], Some, IfOk};
ghost use Rattle.ld_formats.specs.Units.{parts as parts_shape, method_with, unit as unit_shape, is_well_formed, unit_from};
ghost use Rattle.ld_model.specs.declared.unit.Unit.{Unit};
ghost use Rattle.ld_shape.specs.Reading.{GivesOrSays};

use crate::conditions::ConditionsDocument;
use crate::unit::{Head, HeadShape};
use ld_base::Items;
use ld_json::{Docs, FileNo, ReadFault};
use ld_model::{ConditionList, Parts, Unit};
use ld_shape::{read_document_or, read_required};
use std::alloc::Global;
use std::mem::replace;

/// The unit of these documents, with the parts that were read from them. On a refusal the parts are
/// dropped. (docs/FORMATS.md, "Faults of shape")
pub fn read_method(alloc: Global, docs: &Docs<'_>, parts: Parts) -> Result<Unit, ReadFault>
    requires { (parts_shape.reading docs.now).value ≡ Some parts }
    ensures answer { GivesOrSays ((method_with parts).reading docs.now) result }
    ensures formed { IfOk result (λ unit. is_well_formed unit ≡ true) }
{
    read_with(alloc, docs, parts)
}

/// The unit of these parts, and of what its own document and that of the conditions tell.
fn read_with(alloc: Global, docs: &Docs<'_>, parts: Parts) -> Result<Unit, ReadFault>
    ensures { GivesOrSays ((method_with parts).reading docs.now) result }
{
    let head = read_required::<HeadShape>(alloc, docs, FileNo::Unit)?;
    let conditions = read_document_or::<ConditionsDocument>(
        alloc,
        docs,
        FileNo::Conditions,
        Items::new(alloc),
    )?;
    Ok(unit_with(alloc, parts, head, conditions))
}

/// The unit of these parts, and of what was read besides.
fn unit_with(alloc: Global, parts: Parts, head: Head, conditions: ConditionList) -> Unit
    ensures { result ≡ unit_from parts (head, conditions) }
{
    let mut parts = parts;
    let Head {
        format,
        identifier,
        level,
        title,
        turns,
        metadata,
        learning_objectives,
        prerequisites,
        method,
    } = head;
    Unit {
        format,
        identifier,
        level,
        title,
        turns,
        metadata,
        learning_objectives,
        prerequisites,
        roles: replace(&mut parts.roles, Items::new(alloc)),
        properties: replace(&mut parts.properties, Items::new(alloc)),
        environments: replace(&mut parts.environments, Items::new(alloc)),
        activities: replace(&mut parts.activities, Items::new(alloc)),
        structures: replace(&mut parts.structures, Items::new(alloc)),
        method,
        conditions,
    }
}

/// Documents without a fault of shape stand for a unit, which is well-formed. The body is empty:
/// the law is about what the readers are held to, and holds for all documents.
pub fn documents_without_a_fault_stand_for_a_unit(docs: &Docs<'_>)
    ensures { (unit_shape.reading docs.now).faults ≡ [] → (unit : Unit)
        × ((unit_shape.reading docs.now).value ≡ Some unit) × (is_well_formed unit ≡ true) }
{}
