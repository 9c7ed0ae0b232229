//! The world: published units, the store of global values and the runs that share it, and the lines
//! that are answered.
#![tactic(auto)]

mod declarations;
mod declaring;
mod global_lines;
mod publishing;
mod refusing;
mod runs;
pub mod world;

pub use ld_run::Reply;
pub use world::World;
