//! The method of a unit.
#![tactic(auto, unfolding(crate::specs::Methods::part_in_act, crate::specs::Methods::act, crate::specs::Methods::play, crate::specs::Methods::method))]

ghost use Rattle.ld_canon.specs.Canonical.{canonical_act, canonical_play, canonical_method};
ghost use Rattle.ld_canon.specs.Methods.{part_in_act, act, play, method};

use crate::canonical::{PrintsCanonical, needed_list};
use crate::completions::put_ending;
use ld_base::NoMemory;
use ld_model::{Act, Method, Play, Property, RolePart};
use ld_prints::lists::ListTree;
use ld_prints::members::{needed, object_tree, optional, unless};
use ld_prints::prints::Prints;
use ld_prints::values::{FlagTree, IdTree, TitleTree};
use serde_json::{Map, Value};
use std::alloc::Global;

/// What the members of a role do in an act, or see.
pub(crate) struct PartTree;

impl Prints for PartTree {
    type Of = RolePart;

    ghost printed = { part_in_act };

    fn tree(alloc: Global, value: &RolePart) -> Result<Value, NoMemory> {
        let mut members = Map::new(alloc);
        needed::<IdTree>(alloc, "identifier", &value.identifier, &mut members)?;
        optional::<TitleTree>(alloc, "title", &value.title, &mut members)?;
        needed::<IdTree>(alloc, "role", &value.role, &mut members)?;
        needed::<IdTree>(alloc, "ref", &value.target, &mut members)?;
        Ok(object_tree(members))
    }
}

/// An act.
pub(crate) struct ActTree;

impl PrintsCanonical for ActTree {
    type Of = Act;

    ghost print = { act.print };

    ghost canonical = { canonical_act };

    fn tree(alloc: Global, properties: &[Property], value: &Act) -> Result<Value, NoMemory> {
        let mut members = Map::new(alloc);
        needed::<IdTree>(alloc, "identifier", &value.identifier, &mut members)?;
        optional::<TitleTree>(alloc, "title", &value.title, &mut members)?;
        needed::<ListTree<PartTree>>(alloc, "role-parts", &value.role_parts, &mut members)?;
        put_ending(
            alloc,
            properties,
            &value.complete,
            &value.on_completion,
            &mut members,
        )?;
        Ok(object_tree(members))
    }
}

/// A play.
pub(crate) struct PlayTree;

impl PrintsCanonical for PlayTree {
    type Of = Play;

    ghost print = { play.print };

    ghost canonical = { canonical_play };

    fn tree(alloc: Global, properties: &[Property], value: &Play) -> Result<Value, NoMemory> {
        let mut members = Map::new(alloc);
        needed::<IdTree>(alloc, "identifier", &value.identifier, &mut members)?;
        optional::<TitleTree>(alloc, "title", &value.title, &mut members)?;
        unless::<FlagTree>(
            alloc,
            "visible",
            value.visible,
            &value.visible,
            &mut members,
        )?;
        needed_list::<ActTree>(alloc, properties, "acts", &value.acts, &mut members)?;
        put_ending(
            alloc,
            properties,
            &value.complete,
            &value.on_completion,
            &mut members,
        )?;
        Ok(object_tree(members))
    }
}

/// The method.
pub(crate) struct MethodTree;

impl PrintsCanonical for MethodTree {
    type Of = Method;

    ghost print = { method.print };

    ghost canonical = { canonical_method };

    fn tree(alloc: Global, properties: &[Property], value: &Method) -> Result<Value, NoMemory> {
        let mut members = Map::new(alloc);
        needed_list::<PlayTree>(alloc, properties, "plays", &value.plays, &mut members)?;
        put_ending(
            alloc,
            properties,
            &value.complete,
            &value.on_completion,
            &mut members,
        )?;
        Ok(object_tree(members))
    }
}
