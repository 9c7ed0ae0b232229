//! When things are completed.
#![tactic(auto, unfolding(crate::specs::Completions::value_set))]

ghost use Rattle.std.specs.Prelude.{◌≡◌, IfOk, OnOk, ◌∷◌, [], option_map, codes};
ghost use Rattle.serde_json.specs.Data.{string};
ghost use Rattle.serde_json.specs.View.{view, members_view};
ghost use Rattle.ld_canon.specs.Canonical.{kinds_of, canonical_of, canonical_completion, canonical_follows};
ghost use Rattle.ld_canon.specs.Completions.{value_set, completion_tree};
ghost use Rattle.ld_canon.specs.Changes.{on_completion as follows};
ghost use Rattle.ld_prints.specs.Rows.{members_into};

use crate::canonical::{PrintsCanonical, optional};
use crate::changes::FollowsTree;
use crate::kinds::kind_of;
use crate::soles::{sole, sole_true};
use crate::test_trees::{members_tree, tree_of_test};
use crate::texts::{SpanTree, text_of_property};
use ld_base::{Id, NoMemory, PlainText};
use ld_model::{Completion, OnCompletion, Property};
use ld_prints::lists::ListTree;
use ld_prints::members::{needed, object_tree};
use ld_prints::prints::Prints;
use ld_prints::values::IdTree;
use serde_json::{Map, Value, put};
use std::alloc::Global;

/// When a thing is completed.
pub(crate) struct CompletionTree;

impl PrintsCanonical for CompletionTree {
    type Of = Completion;

    ghost print = { completion_tree };

    ghost canonical = { canonical_completion };

    fn tree(alloc: Global, properties: &[Property], value: &Completion) -> Result<Value, NoMemory> {
        match value {
            Completion::UserChoice => sole_true(alloc, "user-choice"),
            Completion::TimeLimit(span) => {
                let tree = SpanTree::tree(alloc, span)?;
                sole(alloc, "time-limit", tree)
            }
            Completion::WhenPropertyValueIsSet(property, value) => {
                let tree = value_set_tree(alloc, properties, property, value)?;
                sole(alloc, "when-property-value-is-set", tree)
            }
            Completion::WhenRolePartCompleted(parts) => {
                let tree = ListTree::<IdTree>::tree(alloc, parts)?;
                sole(alloc, "when-role-part-completed", tree)
            }
            Completion::WhenConditionTrue(role, test) => {
                let tree = tree_of_test(alloc, test)?;
                let tree = members_tree(alloc, role, tree)?;
                sole(alloc, "when-condition-true", tree)
            }
            Completion::WhenLastActCompleted => sole_true(alloc, "when-last-act-completed"),
            Completion::WhenPlayCompleted(plays) => {
                let tree = ListTree::<IdTree>::tree(alloc, plays)?;
                sole(alloc, "when-play-completed", tree)
            }
        }
    }
}

/// A property, and the value that it is to have, if just one will do.
fn value_set_tree(
    alloc: Global,
    properties: &[Property],
    property: &Id,
    value: &Option<PlainText>,
) -> Result<Value, NoMemory>
    ensures { IfOk result (λ tree. view tree ≡ value_set.print (
      property.now,
      option_map (canonical_of (kinds_of properties.now property.now)) value.now,
    )) }
{
    let mut members = Map::new(alloc);
    needed::<IdTree>(alloc, "property", property, &mut members)?;
    if let Some(text) = value {
        let kind = kind_of(properties, property);
        let tree = text_of_property(alloc, kind, text.as_str())?;
        put(&mut members, alloc, "value", tree)?;
    }
    Ok(object_tree(members))
}

/// When the thing is completed, and what follows.
pub(crate) fn put_ending(
    alloc: Global,
    properties: &[Property],
    complete: &Option<Completion>,
    on_completion: &Option<OnCompletion>,
    members: &mut Map<String, Value>,
) -> Result<(), NoMemory>
    ensures { OnOk result (members_view members.new.entries
        ≡ members_into (members_view members.old.entries)
        ((
          codes "complete",
          option_map completion_tree
              (option_map (canonical_completion (kinds_of properties.now)) complete.now),
        )
        ∷ (codes "on-completion", option_map follows.print (option_map canonical_follows on_completion.now))
        ∷ [])) }
{
    optional::<CompletionTree>(alloc, properties, "complete", complete, members)?;
    optional::<FollowsTree>(alloc, properties, "on-completion", on_completion, members)
}
