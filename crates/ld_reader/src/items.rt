//! Items.
#![tactic(auto, unfolding(ld_formats::specs::Items::item), using(ld_json::proofs::First::says_more))]

ghost use Rattle.ld_formats.specs.Items.{item};

use ld_json::{Node, ReadFault};
use ld_model::Item;
use ld_shape::{Flag, Href, Identifier, Reads, Title, default_at, needed_at, optional_at};
use std::alloc::Global;

/// An item.
pub struct ItemShape;

impl Reads for ItemShape {
    type Value = Item;

    ghost shape = { item };

    fn read(alloc: Global, node: &Node<'_, '_>) -> Result<Item, ReadFault> {
        node.only(alloc, &["identifier", "href", "title", "visible"])?;
        Ok(Item {
            identifier: needed_at::<Identifier>(alloc, node, "identifier")?,
            href: needed_at::<Href>(alloc, node, "href")?,
            title: optional_at::<Title>(alloc, node, "title")?,
            visible: default_at::<Flag>(alloc, node, "visible", true)?,
        })
    }
}
