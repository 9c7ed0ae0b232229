//! Checks a unit that was read: that its identifiers differ, that its references name what they
//! should, that nothing reaches itself, that it keeps to its level, to types and to its limits; or
//! names the first fault.
//!
//! The checks and their order are those of docs/FORMATS.md, "Order of faults".
#![tactic(auto)]

pub mod check;
pub(crate) mod checks;
pub mod laws;
pub(crate) mod method;
pub(crate) mod stages;

pub use check::Checked;
