//! A walk through the documents of a unit: places, what stands there, and the listing of what
//! several objects have in common: items, references, terms, tests, changes and notices.
#![tactic(auto)]

pub mod changes;
pub mod items;
pub mod kind;
pub mod part;
pub mod place;
pub mod places;
pub mod spot;
pub mod terms;
pub mod test_parts;
pub mod walk;

pub use changes::{list_change, list_changes, list_notice, list_notices};
pub use items::{
    list_items, list_optional_reference, list_reference, list_references, list_shown, list_unshown,
};
pub use kind::{Kind, Wanted};
pub use part::{PartRow, Typed, What};
pub use place::Place;
pub use places::Places;
pub use spot::Spot;
pub use terms::list_plain_leaf;
pub use test_parts::list_test;
pub use walk::Walk;
