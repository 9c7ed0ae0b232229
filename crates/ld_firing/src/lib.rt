//! What follows when the rules of a unit fire, and what the settling of a run means.
#![tactic(auto)]

mod actions;
mod actor;
mod changes;
pub mod firing;
mod notices;

pub use firing::fire;
