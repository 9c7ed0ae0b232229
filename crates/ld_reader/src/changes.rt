//! What follows when something is completed: items that are shown, changes and notices.
#![tactic(auto, unfolding(ld_formats::specs::Changes::change, ld_formats::specs::Changes::notice, ld_formats::specs::Changes::on_completion), using(ld_json::proofs::First::says_more))]

ghost use Rattle.ld_formats.specs.Changes.{change, notice, on_completion};
ghost use Rattle.ld_shape.specs.Reading.{GivesOrSays};

use crate::items::ItemShape;
use crate::terms::TermShape;
use ld_json::{Node, ReadFault};
use ld_model::{Change, Notice, OnCompletion};
use ld_shape::{Identifier, ListOf, Reads, Title, list_at, needed_at, optional_at};
use std::alloc::Global;

/// A change of a property.
pub struct ChangeShape;

impl Reads for ChangeShape {
    type Value = Change;

    ghost shape = { change };

    fn read(alloc: Global, node: &Node<'_, '_>) -> Result<Change, ReadFault> {
        node.only(alloc, &["property", "value"])?;
        Ok(Change {
            property: needed_at::<Identifier>(alloc, node, "property")?,
            value: needed_at::<TermShape>(alloc, node, "value")?,
        })
    }
}

/// A notice to the members of roles.
pub struct NoticeShape;

impl Reads for NoticeShape {
    type Value = Notice;

    ghost shape = { notice };

    fn read(alloc: Global, node: &Node<'_, '_>) -> Result<Notice, ReadFault> {
        node.only(alloc, &["roles", "subject", "activity"])?;
        Ok(Notice {
            roles: needed_at::<ListOf<Identifier, 1>>(alloc, node, "roles")?,
            subject: optional_at::<Title>(alloc, node, "subject")?,
            activity: optional_at::<Identifier>(alloc, node, "activity")?,
        })
    }
}

/// What follows a completion.
pub struct Follows;

impl Reads for Follows {
    type Value = OnCompletion;

    ghost shape = { on_completion };

    fn read(alloc: Global, node: &Node<'_, '_>) -> Result<OnCompletion, ReadFault> {
        node.only(alloc, &["feedback", "change", "notify"])?;
        Ok(OnCompletion {
            feedback: list_at::<ItemShape>(alloc, node, "feedback")?,
            change: list_at::<ChangeShape>(alloc, node, "change")?,
            notify: list_at::<NoticeShape>(alloc, node, "notify")?,
        })
    }
}

/// What follows a completion, as the node says, or its first fault. (docs/FORMATS.md, "Documents")
pub fn read_on_completion(alloc: Global, node: &Node<'_, '_>) -> Result<OnCompletion, ReadFault>
    ensures { GivesOrSays (on_completion.reading node.now) result }
{
    Follows::read(alloc, node)
}
