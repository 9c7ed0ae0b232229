//! A run that is made for measuring and for tests: a unit of forty activities, lines that a number
//! chooses for as many persons as are wanted, and what the replies to them come to.
//! (docs/GENERATOR.md)
#![tactic(auto)]

pub mod ask;
pub mod asks;
mod conditions;
mod ids;
mod lines;
pub mod play;
pub mod report;
pub mod tally;
pub mod unit;
pub mod validity;

pub use report::generated_line;
