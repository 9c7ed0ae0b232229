//! Systems of sites to settle, and what is seen when they are settled.
#![tactic(auto)]

pub mod lamps;
#[cfg(test)]
mod tests;
