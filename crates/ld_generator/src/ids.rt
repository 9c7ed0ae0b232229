//! Identifiers of the generator's unit.
#![tactic(auto, unfolding(ld_base::specs::Identifier::begins_identifier, ld_base::specs::Identifier::continues_identifier))]

ghost use Rattle.std.specs.Prelude.{◌≡◌, ◌∷◌, [], true, IfOk};
ghost use Rattle.ld_base.specs.Identifier.{has_identifier_form};
ghost use Rattle.ld_generator.specs.GeneratedUnit.{activity_name};

use itoa::Buffer;
use ld_base::{Id, Items, NoMemory, Text};
use ld_model::ReferenceList;
use std::alloc::Global;

/// The identifier of the text.
pub(crate) fn id_of(alloc: Global, text: &str) -> Result<Id, NoMemory>
    requires { has_identifier_form text.now ≡ true }
    ensures { IfOk result (λ id. id ≡ text.now) }
{
    match Id::from_text(alloc, text)? {
        Some(id) => Ok(id),
        None => unreachable!(),
    }
}

/// The identifier of the activity of this number.
#[tactic(auto, using(crate::proofs::Naming::is_activity_name))]
pub(crate) fn activity_id(alloc: Global, number: u8) -> Result<Id, NoMemory>
    ensures { IfOk result (λ id. id ≡ activity_name number) }
{
    let mut text = Text::of(alloc, "a")?;
    text.push(Buffer::new().format(number))?;
    id_of(alloc, text.as_str())
}

/// The list of one reference.
pub(crate) fn one_reference(alloc: Global, text: &str) -> Result<ReferenceList, NoMemory>
    requires { has_identifier_form text.now ≡ true }
    ensures { IfOk result (λ references. references ≡ text.now ∷ []) }
{
    let mut references = Items::new(alloc);
    references.push(id_of(alloc, text)?)?;
    Ok(references)
}
