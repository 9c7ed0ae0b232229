//! The store of the values of global properties: which uris are declared and how, the value of each
//! key, and for each key the write that was its last, by a count of all writes.
#![tactic(auto)]

mod cell;
pub mod changes;
pub mod declared;
mod declaring;
pub mod faults;
mod finding;
mod given;
pub mod globals;
mod key_number;
mod reading;
mod recency;
mod writing;

pub use declared::{Declared, DeclaredList, GlobalKind};
pub use faults::{DeclareFault, GlobalFault, SetFault};
pub use globals::Globals;
