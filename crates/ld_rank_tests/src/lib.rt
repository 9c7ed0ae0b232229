//! Tests of what no clause says of ranks: that the calls succeed where there is memory, and what is
//! reported of units that are read from documents, worked out by hand.
#![tactic(auto)]

#[cfg(test)]
mod ranks;
#[cfg(test)]
mod units;
