//! The canonical documents of a unit: the trees of its parts (docs/FORMATS.md, "Canonical documents").
#![tactic(auto)]

mod activities;
mod canonical;
mod changes;
mod completions;
mod conditions;
mod environments;
mod items;
mod kinds;
pub mod laws;
mod methods;
pub mod printing;
mod properties;
mod roles;
mod soles;
mod terms;
mod test_trees;
mod texts;
pub mod units;

pub use printing::canonical_text;
pub use units::documents;
