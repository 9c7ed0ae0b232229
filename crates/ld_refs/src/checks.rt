//! The checks, each over the whole unit.
pub(crate) mod cycles;
pub(crate) mod each;
pub(crate) mod extents;
pub(crate) mod limits;
pub(crate) mod profile;
pub(crate) mod repeats;
pub(crate) mod sizes;
pub(crate) mod targets;
pub(crate) mod typing;
