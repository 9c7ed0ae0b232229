//! What follows from what a run means, on which no code stands: laws of runs, for all units and
//! commands; whole histories, in which a run's replies depend on what the run met and on nothing
//! else; and worked courses, whose replies the checker computes from the definitions.
#![tactic(auto)]

pub mod acts;
pub mod alarms;
pub mod histories;
pub mod notices;
pub mod refusals;
pub mod runs;
pub mod sweeps;
pub mod trees;
pub mod worlds;
