//! The layers of a graph without cycles, and the first loop of one that has some; and what numbers
//! that rise tell of a settling: where a firing concerns only sites of greater numbers, a site
//! fires in no sweep later than its number.
//!
//! Contracts see a graph as a list that has for each node, counted from 0, the nodes to which it
//! leads.
#![tactic(auto)]

pub mod layers;
pub mod loops;
mod order;
pub mod sweeps;

pub use layers::layers_of;
pub use loops::first_loop;
