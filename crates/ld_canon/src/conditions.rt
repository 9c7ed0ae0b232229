//! Conditions and what they do.
#![tactic(auto, unfolding(crate::specs::Conditions::condition, crate::specs::Conditions::conditions_document))]

ghost use Rattle.std.specs.Prelude.{◌≡◌, IfOk, map};
ghost use Rattle.serde_json.specs.View.{view};
ghost use Rattle.ld_canon.specs.Canonical.{canonical_action, canonical_condition};
ghost use Rattle.ld_canon.specs.Conditions.{action_tree, condition, conditions_document};

use crate::canonical::{PrintsCanonical, list, needed_list};
use crate::changes::{ChangeTree, NoticeTree};
use crate::soles::sole;
use crate::test_trees::tree_of_test;
use ld_base::NoMemory;
use ld_model::{Action, Condition, ConditionList, Property};
use ld_prints::lists::ListTree;
use ld_prints::members::object_tree;
use ld_prints::prints::Prints;
use ld_prints::values::IdTree;
use serde_json::{Map, Value, put};
use std::alloc::Global;

/// What a condition does.
pub(crate) struct ActionTree;

impl PrintsCanonical for ActionTree {
    type Of = Action;

    ghost print = { action_tree };

    ghost canonical = { λ _. canonical_action };

    fn tree(alloc: Global, properties: &[Property], value: &Action) -> Result<Value, NoMemory> {
        match value {
            Action::Show(things) => {
                let tree = ListTree::<IdTree>::tree(alloc, things)?;
                sole(alloc, "show", tree)
            }
            Action::Hide(things) => {
                let tree = ListTree::<IdTree>::tree(alloc, things)?;
                sole(alloc, "hide", tree)
            }
            Action::Change(change) => {
                let tree = ChangeTree::tree(alloc, properties, change)?;
                sole(alloc, "change", tree)
            }
            Action::Notify(notice) => {
                let tree = NoticeTree::tree(alloc, notice)?;
                sole(alloc, "notify", tree)
            }
        }
    }
}

/// A condition.
pub(crate) struct ConditionTree;

impl PrintsCanonical for ConditionTree {
    type Of = Condition;

    ghost print = { condition.print };

    ghost canonical = { λ _. canonical_condition };

    fn tree(alloc: Global, properties: &[Property], value: &Condition) -> Result<Value, NoMemory> {
        let mut members = Map::new(alloc);
        let test = tree_of_test(alloc, &value.test)?;
        put(&mut members, alloc, "if", test)?;
        needed_list::<ActionTree>(alloc, properties, "then", &value.yes, &mut members)?;
        list::<ActionTree>(alloc, properties, "else", &value.no, &mut members)?;
        Ok(object_tree(members))
    }
}
