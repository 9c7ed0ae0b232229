//! What leads where in a graph: the first node that leads to itself, and what nodes expand to where
//! none does.
//!
//! Contracts see a graph as a list that has for each node, counted from 0, the nodes to which it
//! leads.
#![tactic(auto)]

pub mod cycles;
pub mod laws;
pub mod sizes;

pub use cycles::first_on_cycle;
pub use sizes::{GREATEST, expanded_sizes};
