//! Readers by shape.
ghost use Rattle.ld_shape.specs.Reading.{GivesOrSays};
ghost use Rattle.ld_shape.specs.Shapes.{Shape};

use ld_json::{Node, ReadFault};
use std::alloc::Global;

/// A way to read nodes. The type that implements it is a name alone, and has no values of use.
pub trait Reads {
    type Value: Drop;

    ghost shape: { Shape Self.Value };

    /// What the node stands for, or its first fault.
    fn read(alloc: Global, node: &Node<'_, '_>) -> Result<Self::Value, ReadFault>
        ensures { GivesOrSays (shape.reading node.now) result };
}
