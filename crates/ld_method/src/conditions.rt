//! Conditions and what they do.
#![tactic(auto, unfolding(ld_formats::specs::Conditions::action, ld_formats::specs::Conditions::condition, ld_formats::specs::Conditions::conditions_document), using(ld_json::proofs::First::says_more))]

ghost use Rattle.ld_formats.specs.Conditions.{action, condition, conditions_document};

use crate::test_forms::TestShape;
use ld_json::{Code, Node, ReadFault};
use ld_model::{Action, Condition, ConditionList};
use ld_reader::{ChangeShape, NoticeShape};
use ld_shape::{Identifier, ListOf, Reads, list_at, needed_at};
use std::alloc::Global;

/// What a condition does.
pub struct ActionShape;

impl Reads for ActionShape {
    type Value = Action;

    ghost shape = { action };

    fn read(alloc: Global, node: &Node<'_, '_>) -> Result<Action, ReadFault> {
        match node.sole(alloc)? {
            "show" => {
                let things = needed_at::<ListOf<Identifier, 1>>(alloc, node, "show")?;
                Ok(Action::Show(things))
            }
            "hide" => {
                let things = needed_at::<ListOf<Identifier, 1>>(alloc, node, "hide")?;
                Ok(Action::Hide(things))
            }
            "change" => {
                let change = needed_at::<ChangeShape>(alloc, node, "change")?;
                Ok(Action::Change(change))
            }
            "notify" => {
                let notice = needed_at::<NoticeShape>(alloc, node, "notify")?;
                Ok(Action::Notify(notice))
            }
            _ => Err(node.fault(alloc, Code::UnknownMember)),
        }
    }
}

/// A condition.
pub struct ConditionShape;

impl Reads for ConditionShape {
    type Value = Condition;

    ghost shape = { condition };

    fn read(alloc: Global, node: &Node<'_, '_>) -> Result<Condition, ReadFault> {
        node.only(alloc, &["if", "then", "else"])?;
        Ok(Condition {
            test: needed_at::<TestShape>(alloc, node, "if")?,
            yes: needed_at::<ListOf<ActionShape, 1>>(alloc, node, "then")?,
            no: list_at::<ActionShape>(alloc, node, "else")?,
        })
    }
}

/// The document of conditions.
pub struct ConditionsDocument;

impl Reads for ConditionsDocument {
    type Value = ConditionList;

    ghost shape = { conditions_document };

    fn read(alloc: Global, node: &Node<'_, '_>) -> Result<ConditionList, ReadFault> {
        node.only(alloc, &["conditions"])?;
        list_at::<ConditionShape>(alloc, node, "conditions")
    }
}
