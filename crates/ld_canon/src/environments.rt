//! Environments, learning objects and services.
#![tactic(auto, unfolding(crate::specs::Environments::learning_object, crate::specs::Environments::service, crate::specs::Environments::environment))]

ghost use Rattle.ld_canon.specs.Environments.{learning_object, service_word, service_word_of, service, environment};
ghost use Rattle.ld_formats.specs.Environments.{service_words};
ghost use Rattle.ld_prints.specs.Forms.{one_of};

use crate::items::ItemTree;
use ld_base::NoMemory;
use ld_model::{Environment, LearningObject, Service, ServiceKind};
use ld_prints::lists::list;
use ld_prints::members::{needed, object_tree, optional, unless};
use ld_prints::prints::Prints;
use ld_prints::values::{FlagTree, IdTree, TitleTree, text_tree};
use serde_json::{Map, Value};
use std::alloc::Global;

/// A learning object.
pub struct LearningObjectTree;

impl Prints for LearningObjectTree {
    type Of = LearningObject;

    ghost printed = { learning_object };

    fn tree(alloc: Global, value: &LearningObject) -> Result<Value, NoMemory> {
        let mut members = Map::new(alloc);
        needed::<IdTree>(alloc, "identifier", &value.identifier, &mut members)?;
        optional::<TitleTree>(alloc, "title", &value.title, &mut members)?;
        unless::<FlagTree>(
            alloc,
            "visible",
            value.visible,
            &value.visible,
            &mut members,
        )?;
        list::<ItemTree>(alloc, "items", &value.items, &mut members)?;
        Ok(object_tree(members))
    }
}

/// The kind of a service.
pub struct ServiceWordTree;

impl Prints for ServiceWordTree {
    type Of = ServiceKind;

    ghost printed = { one_of service_words service_word service_word_of };

    fn tree(alloc: Global, value: &ServiceKind) -> Result<Value, NoMemory> {
        let word = match value {
            ServiceKind::SendMail => "send-mail",
            ServiceKind::Conference => "conference",
            ServiceKind::Monitor => "monitor",
            ServiceKind::IndexSearch => "index-search",
        };
        text_tree(alloc, word)
    }
}

/// A service.
pub struct ServiceTree;

impl Prints for ServiceTree {
    type Of = Service;

    ghost printed = { service };

    fn tree(alloc: Global, value: &Service) -> Result<Value, NoMemory> {
        let mut members = Map::new(alloc);
        needed::<IdTree>(alloc, "identifier", &value.identifier, &mut members)?;
        needed::<ServiceWordTree>(alloc, "kind", &value.kind, &mut members)?;
        optional::<TitleTree>(alloc, "title", &value.title, &mut members)?;
        unless::<FlagTree>(
            alloc,
            "visible",
            value.visible,
            &value.visible,
            &mut members,
        )?;
        Ok(object_tree(members))
    }
}

/// An environment.
pub struct EnvironmentTree;

impl Prints for EnvironmentTree {
    type Of = Environment;

    ghost printed = { environment };

    fn tree(alloc: Global, value: &Environment) -> Result<Value, NoMemory> {
        let mut members = Map::new(alloc);
        needed::<IdTree>(alloc, "identifier", &value.identifier, &mut members)?;
        optional::<TitleTree>(alloc, "title", &value.title, &mut members)?;
        unless::<FlagTree>(
            alloc,
            "visible",
            value.visible,
            &value.visible,
            &mut members,
        )?;
        list::<LearningObjectTree>(
            alloc,
            "learning-objects",
            &value.learning_objects,
            &mut members,
        )?;
        list::<ServiceTree>(alloc, "services", &value.services, &mut members)?;
        list::<IdTree>(alloc, "environments", &value.environments, &mut members)?;
        Ok(object_tree(members))
    }
}
