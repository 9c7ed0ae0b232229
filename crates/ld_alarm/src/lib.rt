//! When the test of a site first differs from what it is, if time alone goes on.
//!
//! Between two moments that a rule speaks of, its test stays as it is: so only these moments, the
//! switches, are asked. (docs/MEANING.md, "The next alarm")
#![tactic(auto)]

mod at_moment;
pub mod later;
mod rule_switches;
pub mod site_alarm;
mod test_switches;

pub use later::earlier;
pub use site_alarm::alarm;
