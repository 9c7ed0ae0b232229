//! Readers of the documents of roles, properties, environments and activities, by the descriptions
//! of their objects (crate `ld_formats`): what a node stands for, or its first fault. So
//! `read_parts` reads all four, and `read_term` and `read_on_completion` read what the method and
//! the conditions hold, too. (docs/FORMATS.md, "Documents")
#![tactic(auto, using(ld_json::proofs::First::says_more))]

pub mod activities;
pub mod changes;
pub mod completions;
pub mod environments;
pub mod items;
pub mod parts;
pub mod properties;
pub mod restrictions;
pub mod roles;
pub mod structures;
pub mod terms;

pub use changes::{ChangeShape, Follows, NoticeShape, read_on_completion};
pub use completions::{ActivityCompletion, read_common};
pub use items::ItemShape;
pub use parts::read_parts;
pub use terms::{TermShape, read_term};
