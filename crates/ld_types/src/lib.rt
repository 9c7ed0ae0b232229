//! Which types the values, terms, tests and changes of a unit have, and whether they are those that
//! their places want. (docs/FORMATS.md, "Types")
#![tactic(auto)]

pub(crate) mod literals;
pub(crate) mod properties;
pub(crate) mod terms;
pub(crate) mod test_types;
pub(crate) mod types;
pub mod typing;

pub use typing::Typing;
