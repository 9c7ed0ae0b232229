//! Tests of the plain data structures on which a run stands.
#![tactic(auto)]

#[cfg(test)]
mod cells;
#[cfg(test)]
mod globals;
#[cfg(test)]
mod graph;
