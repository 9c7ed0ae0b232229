//! Tests of what no clause says of the floors of a run: that their calls succeed where there is
//! memory, and what comes out of them, told by hand.
#![tactic(auto)]

#[cfg(test)]
mod alike;
#[cfg(test)]
mod expressions;
#[cfg(test)]
mod roles;
#[cfg(test)]
mod rules;
#[cfg(test)]
mod state;
#[cfg(test)]
mod units;
