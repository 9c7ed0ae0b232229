//! Items.
#![tactic(auto, unfolding(crate::specs::Items::item))]

ghost use Rattle.ld_canon.specs.Items.{item};

use ld_base::NoMemory;
use ld_model::Item;
use ld_prints::members::{needed, object_tree, optional, unless};
use ld_prints::prints::Prints;
use ld_prints::values::{FlagTree, HrefTree, IdTree, TitleTree};
use serde_json::{Map, Value};
use std::alloc::Global;

/// An item.
pub struct ItemTree;

impl Prints for ItemTree {
    type Of = Item;

    ghost printed = { item };

    fn tree(alloc: Global, value: &Item) -> Result<Value, NoMemory> {
        let mut members = Map::new(alloc);
        needed::<IdTree>(alloc, "identifier", &value.identifier, &mut members)?;
        needed::<HrefTree>(alloc, "href", &value.href, &mut members)?;
        optional::<TitleTree>(alloc, "title", &value.title, &mut members)?;
        unless::<FlagTree>(
            alloc,
            "visible",
            value.visible,
            &value.visible,
            &mut members,
        )?;
        Ok(object_tree(members))
    }
}
