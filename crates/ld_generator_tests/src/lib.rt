//! Tests of what no clause says of the generator: that there is a line where there is memory, and
//! that it is the one that was worked out by hand.
#![tactic(auto)]

#[cfg(test)]
mod lines;
