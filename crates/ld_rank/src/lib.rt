//! Which rules of a unit feed which others, and the ranks that say in which sweeps each may fire,
//! or the loop that leaves it open. An author learns so, before any run, whether a run of the unit
//! can be refused for passing its budget. (docs/RANKS.md)
#![tactic(auto)]

mod edges;
mod expressions;
pub mod feeding;
mod finding;
pub mod laws;
mod lists;
mod lookers;
mod looks;
pub mod printing;
pub mod ranking;
pub mod ranks;
pub mod report;
mod sink;
mod writes;

pub use feeding::feeds;
pub use printing::{print_report, report_text, rule_name};
pub use ranking::is_ranking;
pub use ranks::rank;
pub use report::{RankList, Report, RuleLoop};
