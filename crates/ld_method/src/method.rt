//! The method of a unit: plays, acts and role-parts.
#![tactic(auto, unfolding(ld_formats::specs::Completions::ending, ld_formats::specs::Methods::act, ld_formats::specs::Methods::method, ld_formats::specs::Methods::play, ld_formats::specs::Methods::part_in_act), using(ld_json::proofs::First::says_more))]

ghost use Rattle.ld_formats.specs.Methods.{part_in_act, act, play, method};

use crate::completions::{ActCompletion, PlayCompletion, UnitCompletion, ending_at};
use ld_json::{Node, ReadFault};
use ld_model::{Act, Method, Play, RolePart};
use ld_shape::{
    Flag, Identifier, ListOf, Reads, Title, absent_at, default_at, needed_at, optional_at,
};
use std::alloc::Global;

/// A role-part.
pub struct RolePartShape;

impl Reads for RolePartShape {
    type Value = RolePart;

    ghost shape = { part_in_act };

    fn read(alloc: Global, node: &Node<'_, '_>) -> Result<RolePart, ReadFault> {
        node.only(
            alloc,
            &[
                "identifier",
                "title",
                "role",
                "ref",
                "unit-of-learning-href",
            ],
        )?;
        let identifier = needed_at::<Identifier>(alloc, node, "identifier")?;
        let title = optional_at::<Title>(alloc, node, "title")?;
        let role = needed_at::<Identifier>(alloc, node, "role")?;
        let target = needed_at::<Identifier>(alloc, node, "ref")?;
        absent_at(alloc, node, "unit-of-learning-href")?;
        Ok(RolePart {
            identifier,
            title,
            role,
            target,
        })
    }
}

/// An act.
pub struct ActShape;

impl Reads for ActShape {
    type Value = Act;

    ghost shape = { act };

    fn read(alloc: Global, node: &Node<'_, '_>) -> Result<Act, ReadFault> {
        node.only(
            alloc,
            &[
                "identifier",
                "title",
                "role-parts",
                "complete",
                "on-completion",
            ],
        )?;
        let identifier = needed_at::<Identifier>(alloc, node, "identifier")?;
        let title = optional_at::<Title>(alloc, node, "title")?;
        let role_parts = needed_at::<ListOf<RolePartShape, 1>>(alloc, node, "role-parts")?;
        let (complete, on_completion) = ending_at::<ActCompletion>(alloc, node)?;
        Ok(Act {
            identifier,
            title,
            role_parts,
            complete,
            on_completion,
        })
    }
}

/// A play.
pub struct PlayShape;

impl Reads for PlayShape {
    type Value = Play;

    ghost shape = { play };

    fn read(alloc: Global, node: &Node<'_, '_>) -> Result<Play, ReadFault> {
        node.only(
            alloc,
            &[
                "identifier",
                "title",
                "visible",
                "acts",
                "complete",
                "on-completion",
            ],
        )?;
        let identifier = needed_at::<Identifier>(alloc, node, "identifier")?;
        let title = optional_at::<Title>(alloc, node, "title")?;
        let visible = default_at::<Flag>(alloc, node, "visible", true)?;
        let acts = needed_at::<ListOf<ActShape, 1>>(alloc, node, "acts")?;
        let (complete, on_completion) = ending_at::<PlayCompletion>(alloc, node)?;
        Ok(Play {
            identifier,
            title,
            visible,
            acts,
            complete,
            on_completion,
        })
    }
}

/// The method of a unit.
pub struct MethodShape;

impl Reads for MethodShape {
    type Value = Method;

    ghost shape = { method };

    fn read(alloc: Global, node: &Node<'_, '_>) -> Result<Method, ReadFault> {
        node.only(alloc, &["plays", "complete", "on-completion"])?;
        let plays = needed_at::<ListOf<PlayShape, 1>>(alloc, node, "plays")?;
        let (complete, on_completion) = ending_at::<UnitCompletion>(alloc, node)?;
        Ok(Method {
            plays,
            complete,
            on_completion,
        })
    }
}
