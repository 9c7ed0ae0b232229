//! Shapes of JSON nodes, and readers by shape.
//!
//! A shape tells once what a node stands for, which faults it has and which form all its values
//! keep to (`specs/Shapes.antt`); shapes of objects are put together from those of their members.
//!
//! ```
//! node.only(alloc, &["identifier", "title", "visible"])?;
//! Ok(Heading {
//!     identifier: needed_at::<Identifier>(alloc, node, "identifier")?,
//!     title: optional_at::<Title>(alloc, node, "title")?,
//!     visible: default_at::<Flag>(alloc, node, "visible", true)?,
//! })
//! ```
#![tactic(auto, using(ld_json::proofs::First::says_more))]

pub mod documents;
pub mod lists;
pub mod members;
pub mod reads;
pub mod texts;
pub mod values;

pub use documents::{read_document_or, read_required};
pub use lists::{ListBetween, ListOf, PairOf, count_from, count_two, list_at};
pub use members::{absent_at, default_at, known_at, known_or, needed_at, optional_at};
pub use reads::Reads;
pub use texts::{Href, Identifier, Seconds, Text, Title, Uri};
pub use values::{Flag, Number, True};
