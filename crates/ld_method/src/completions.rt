//! When acts, plays and the unit are completed.
#![tactic(auto, unfolding(ld_formats::specs::Completions::act_completion, ld_formats::specs::Completions::ending, ld_formats::specs::Completions::play_completion, ld_formats::specs::Completions::unit_completion), using(ld_json::proofs::First::says_more))]

ghost use Rattle.ld_formats.specs.Completions.{act_completion, play_completion, unit_completion, ending};
ghost use Rattle.ld_json.specs.Access.{IsObject};
ghost use Rattle.ld_shape.specs.Reading.{GivesOrSays};

use crate::test_forms::MembersTest;
use ld_json::{Node, ReadFault};
use ld_model::{Completion, OnCompletion};
use ld_reader::{Follows, read_common};
use ld_shape::{Identifier, ListOf, Reads, True, needed_at, optional_at};
use std::alloc::Global;

/// When an act is completed.
pub struct ActCompletion;

impl Reads for ActCompletion {
    type Value = Completion;

    ghost shape = { act_completion };

    fn read(alloc: Global, node: &Node<'_, '_>) -> Result<Completion, ReadFault> {
        match node.sole(alloc)? {
            "when-role-part-completed" => {
                let parts = needed_at::<ListOf<Identifier, 1>>(
                    alloc,
                    node,
                    "when-role-part-completed",
                )?;
                Ok(Completion::WhenRolePartCompleted(parts))
            }
            "when-condition-true" => {
                let (role, test) = needed_at::<MembersTest>(alloc, node, "when-condition-true")?;
                Ok(Completion::WhenConditionTrue(role, test))
            }
            name => read_common(alloc, node, name),
        }
    }
}

/// When a play is completed.
pub struct PlayCompletion;

impl Reads for PlayCompletion {
    type Value = Completion;

    ghost shape = { play_completion };

    fn read(alloc: Global, node: &Node<'_, '_>) -> Result<Completion, ReadFault> {
        match node.sole(alloc)? {
            "when-last-act-completed" => {
                needed_at::<True>(alloc, node, "when-last-act-completed")?;
                Ok(Completion::WhenLastActCompleted)
            }
            name => read_common(alloc, node, name),
        }
    }
}

/// When the unit is completed.
pub struct UnitCompletion;

impl Reads for UnitCompletion {
    type Value = Completion;

    ghost shape = { unit_completion };

    fn read(alloc: Global, node: &Node<'_, '_>) -> Result<Completion, ReadFault> {
        match node.sole(alloc)? {
            "when-play-completed" => {
                let plays = needed_at::<ListOf<Identifier, 1>>(alloc, node, "when-play-completed")?;
                Ok(Completion::WhenPlayCompleted(plays))
            }
            name => read_common(alloc, node, name),
        }
    }
}

/// When the thing is completed, as `C` reads it, and what follows; both may be absent.
pub fn ending_at<C: Reads<Value = Completion>>(
    alloc: Global,
    node: &Node<'_, '_>,
) -> Result<(Option<Completion>, Option<OnCompletion>), ReadFault>
    requires { IsObject node.now }
    ensures { GivesOrSays ((ending C.shape).shape.reading node.now) result }
{
    let complete = optional_at::<C>(alloc, node, "complete")?;
    let on_completion = optional_at::<Follows>(alloc, node, "on-completion")?;
    Ok((complete, on_completion))
}
