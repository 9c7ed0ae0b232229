//! The next alarm of a run: when one of its sites is next due, if time alone goes on.
#![tactic(auto)]

pub mod run_alarm;

pub use run_alarm::{NOW_SLOT, next_alarm};
