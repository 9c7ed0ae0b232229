//! That what is shown of a run takes few steps: trees and reports, by the size of their unit.
#![tactic(auto)]

pub mod laws;
