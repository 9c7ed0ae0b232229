//! Documents in JSON whose parts know their places, and the faults that stand at these places.
//!
//! ```
//! let mut scratch = Scratch::new(alloc);
//! let doc = document(alloc, bytes, &mut scratch)?;
//! let root = doc.root(FileNo::Roles);
//! root.only(alloc, &["roles"])?;
//! let roles = root.member(alloc, "roles")?;
//! for index in 0..roles.count(alloc)? {
//!     let role = roles.item(index);
//!     role.only(alloc, &["identifier", "title"])?;
//!     let identifier = role.member(alloc, "identifier")?.text(alloc)?;
//! }
//! ```
//!
//! Contracts see a node as its file, its place and its tree. What may be wrong with it is a list of
//! faults, in the order in which they are looked for (`specs/Access.antt`). A
//! reader over nodes says `faultless` (it gives a value only where its list is empty) and `first`
//! (a refusal is the first of its list, or that memory ran out).
#![tactic(auto)]

mod built;
pub mod code;
pub mod doc;
pub mod docs;
pub mod fault;
pub mod file;
mod names;
pub mod node;
mod numbers;
pub mod place;
pub mod print;
mod read;
mod tree;

pub use code::Code;
pub use doc::{Doc, DocFault, document};
pub use docs::{Docs, Scratches};
pub use fault::{Fault, ReadFault};
pub use file::FileNo;
pub use node::Node;
pub use place::push_item;
pub use print::{is_plain, print_text};
