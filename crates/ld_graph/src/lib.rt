//! A set of sites, a list of distinct slots, and a set of pairs of a slot and a site.
#![tactic(auto)]

pub mod dirty;
mod edge;
mod firsts;
pub mod graph;
mod level;
mod levels;
mod part;
pub mod readers;
pub mod slots;

pub use dirty::Dirty;
pub use graph::Graph;
pub use slots::SlotList;
