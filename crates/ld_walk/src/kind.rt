//! What an identifier names, and what a reference may name.
ghost use Rattle.std.specs.Prelude.{◌≡◌};
ghost use Rattle.ld_walk.specs.Kinds.{allows};

use crate::place::Place;

/// What an identifier names: the unit, a role, a property, or a thing by its place.
#[derive(Clone, Copy, PartialEq, Eq)]
pub enum Kind {
    Unit,
    Role,
    Property,
    Thing(Place),
}

/// What a reference has to name.
#[derive(Clone, Copy, PartialEq, Eq)]
pub enum Wanted {
    Role,
    Property,
    Environment,
    Activity,
    /// What a structure has as a child: an activity or a structure.
    Child,
    /// What a role-part refers to: an activity, a structure or an environment.
    Target,
    /// A role-part of the act of this number in the play of this number.
    PartOf(u32, u32),
    Play,
    /// What is shown and hidden: a play, an activity, a structure, an environment, a learning
    /// object, a service or an item.
    Shown,
    /// What can be done: an activity, a structure, a role-part, an act, a play or the unit.
    Completable,
}
