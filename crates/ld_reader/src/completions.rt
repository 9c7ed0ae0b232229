//! When an activity is completed, and what an activity, an act, a play and the unit have in common
//! there.
#![tactic(auto, unfolding(ld_formats::specs::Completions::activity_completion, ld_formats::specs::Completions::common_cases, ld_formats::specs::Completions::value_set), using(ld_json::proofs::First::says_more))]

ghost use Rattle.ld_formats.specs.Cases.{value_text};
ghost use Rattle.ld_formats.specs.Completions.{value_set, activity_completion, common_cases};
ghost use Rattle.ld_json.specs.Access.{IsObject};
ghost use Rattle.ld_shape.specs.Reading.{GivesOrSays};
ghost use Rattle.ld_shape.specs.Soles.{chosen};

use ld_base::{Id, PlainText};
use ld_json::{Code, Node, ReadFault};
use ld_model::Completion;
use ld_shape::{Identifier, Reads, Seconds, True, needed_at, optional_at};
use std::alloc::Global;

/// The text of a value.
pub struct ValueText;

impl Reads for ValueText {
    type Value = PlainText;

    ghost shape = { value_text };

    fn read(alloc: Global, node: &Node<'_, '_>) -> Result<PlainText, ReadFault> {
        let text = node.text(alloc)?;
        let own = PlainText::of(alloc, text)?;
        Ok(own)
    }
}

/// A property, and the text of the value that it is to have, if just one will do.
pub struct ValueSet;

impl Reads for ValueSet {
    type Value = (Id, Option<PlainText>);

    ghost shape = { value_set };

    fn read(alloc: Global, node: &Node<'_, '_>) -> Result<(Id, Option<PlainText>), ReadFault> {
        node.only(alloc, &["property", "value"])?;
        let property = needed_at::<Identifier>(alloc, node, "property")?;
        let value = optional_at::<ValueText>(alloc, node, "value")?;
        Ok((property, value))
    }
}

/// When an activity is completed.
pub struct ActivityCompletion;

impl Reads for ActivityCompletion {
    type Value = Completion;

    ghost shape = { activity_completion };

    fn read(alloc: Global, node: &Node<'_, '_>) -> Result<Completion, ReadFault> {
        match node.sole(alloc)? {
            "user-choice" => {
                needed_at::<True>(alloc, node, "user-choice")?;
                Ok(Completion::UserChoice)
            }
            name => read_common(alloc, node, name),
        }
    }
}

/// When a thing is completed, of whose object the only member has this name, if it is one that all
/// things may have.
pub fn read_common(alloc: Global, node: &Node<'_, '_>, name: &str) -> Result<Completion, ReadFault>
    requires { IsObject node.now }
    ensures { GivesOrSays (chosen common_cases node.now name.now) result }
{
    match name {
        "time-limit" => {
            let seconds = needed_at::<Seconds>(alloc, node, "time-limit")?;
            Ok(Completion::TimeLimit(seconds))
        }
        "when-property-value-is-set" => {
            let (property, value) = needed_at::<ValueSet>(
                alloc,
                node,
                "when-property-value-is-set",
            )?;
            Ok(Completion::WhenPropertyValueIsSet(property, value))
        }
        _ => Err(node.fault(alloc, Code::UnknownMember)),
    }
}
