//! What a ranking of a unit's rules says of the commands of its runs.
#![tactic(auto)]

pub mod laws;
