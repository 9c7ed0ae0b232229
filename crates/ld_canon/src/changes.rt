//! What follows when something is completed.
#![tactic(auto, unfolding(crate::specs::Changes::change, crate::specs::Changes::notice, crate::specs::Changes::on_completion))]

ghost use Rattle.ld_canon.specs.Canonical.{canonical_change, canonical_follows};
ghost use Rattle.ld_canon.specs.Changes.{change, notice, on_completion};

use crate::canonical::{self, PrintsCanonical};
use crate::items::ItemTree;
use crate::terms::tree_of_term;
use ld_base::NoMemory;
use ld_model::{Change, Notice, OnCompletion, Property};
use ld_prints::lists::{ListTree, list};
use ld_prints::members::{needed, object_tree, optional};
use ld_prints::prints::Prints;
use ld_prints::values::{IdTree, TitleTree};
use serde_json::{Map, Value, put};
use std::alloc::Global;

/// A property gets the value of a term.
pub(crate) struct ChangeTree;

impl PrintsCanonical for ChangeTree {
    type Of = Change;

    ghost print = { change.print };

    ghost canonical = { λ _. canonical_change };

    fn tree(alloc: Global, _properties: &[Property], value: &Change) -> Result<Value, NoMemory> {
        let mut members = Map::new(alloc);
        needed::<IdTree>(alloc, "property", &value.property, &mut members)?;
        let tree = tree_of_term(alloc, &value.value)?;
        put(&mut members, alloc, "value", tree)?;
        Ok(object_tree(members))
    }
}

/// A notice to the members of roles.
pub(crate) struct NoticeTree;

impl Prints for NoticeTree {
    type Of = Notice;

    ghost printed = { notice };

    fn tree(alloc: Global, value: &Notice) -> Result<Value, NoMemory> {
        let mut members = Map::new(alloc);
        needed::<ListTree<IdTree>>(alloc, "roles", &value.roles, &mut members)?;
        optional::<TitleTree>(alloc, "subject", &value.subject, &mut members)?;
        optional::<IdTree>(alloc, "activity", &value.activity, &mut members)?;
        Ok(object_tree(members))
    }
}

/// What follows a completion.
pub(crate) struct FollowsTree;

impl PrintsCanonical for FollowsTree {
    type Of = OnCompletion;

    ghost print = { on_completion.print };

    ghost canonical = { λ _. canonical_follows };

    fn tree(
        alloc: Global,
        properties: &[Property],
        value: &OnCompletion,
    ) -> Result<Value, NoMemory> {
        let mut members = Map::new(alloc);
        list::<ItemTree>(alloc, "feedback", &value.feedback, &mut members)?;
        canonical::list::<ChangeTree>(alloc, properties, "change", &value.change, &mut members)?;
        list::<NoticeTree>(alloc, "notify", &value.notify, &mut members)?;
        Ok(object_tree(members))
    }
}
