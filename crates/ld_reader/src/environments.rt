//! Environments, and the learning objects and services in them.
#![tactic(auto, unfolding(ld_formats::specs::Environments::environment, ld_formats::specs::Environments::learning_object, ld_formats::specs::Environments::service), using(ld_json::proofs::First::says_more))]

ghost use Rattle.ld_formats.specs.Environments.{learning_object, service_words, service, environment};
ghost use Rattle.ld_shape.specs.Words.{one_of};

use crate::items::ItemShape;
use ld_json::{Code, Node, ReadFault};
use ld_model::{Environment, LearningObject, Service, ServiceKind};
use ld_shape::{Flag, Identifier, Reads, Title, default_at, list_at, needed_at, optional_at};
use std::alloc::Global;

/// A learning object.
pub struct ObjectShape;

impl Reads for ObjectShape {
    type Value = LearningObject;

    ghost shape = { learning_object };

    fn read(alloc: Global, node: &Node<'_, '_>) -> Result<LearningObject, ReadFault> {
        node.only(alloc, &["identifier", "title", "visible", "items"])?;
        Ok(LearningObject {
            identifier: needed_at::<Identifier>(alloc, node, "identifier")?,
            title: optional_at::<Title>(alloc, node, "title")?,
            visible: default_at::<Flag>(alloc, node, "visible", true)?,
            items: list_at::<ItemShape>(alloc, node, "items")?,
        })
    }
}

/// The kind of a service.
pub struct ServiceWord;

impl Reads for ServiceWord {
    type Value = ServiceKind;

    ghost shape = { one_of service_words };

    fn read(alloc: Global, node: &Node<'_, '_>) -> Result<ServiceKind, ReadFault> {
        match node.text(alloc)? {
            "send-mail" => Ok(ServiceKind::SendMail),
            "conference" => Ok(ServiceKind::Conference),
            "monitor" => Ok(ServiceKind::Monitor),
            "index-search" => Ok(ServiceKind::IndexSearch),
            _ => Err(node.fault(alloc, Code::WrongShape)),
        }
    }
}

/// A service.
pub struct ServiceShape;

impl Reads for ServiceShape {
    type Value = Service;

    ghost shape = { service };

    fn read(alloc: Global, node: &Node<'_, '_>) -> Result<Service, ReadFault> {
        node.only(alloc, &["identifier", "kind", "title", "visible"])?;
        Ok(Service {
            identifier: needed_at::<Identifier>(alloc, node, "identifier")?,
            kind: needed_at::<ServiceWord>(alloc, node, "kind")?,
            title: optional_at::<Title>(alloc, node, "title")?,
            visible: default_at::<Flag>(alloc, node, "visible", true)?,
        })
    }
}

/// An environment.
pub struct EnvironmentShape;

impl Reads for EnvironmentShape {
    type Value = Environment;

    ghost shape = { environment };

    fn read(alloc: Global, node: &Node<'_, '_>) -> Result<Environment, ReadFault> {
        node.only(
            alloc,
            &[
                "identifier",
                "title",
                "visible",
                "learning-objects",
                "services",
                "environments",
            ],
        )?;
        Ok(Environment {
            identifier: needed_at::<Identifier>(alloc, node, "identifier")?,
            title: optional_at::<Title>(alloc, node, "title")?,
            visible: default_at::<Flag>(alloc, node, "visible", true)?,
            learning_objects: list_at::<ObjectShape>(alloc, node, "learning-objects")?,
            services: list_at::<ServiceShape>(alloc, node, "services")?,
            environments: list_at::<Identifier>(alloc, node, "environments")?,
        })
    }
}
