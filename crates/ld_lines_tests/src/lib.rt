//! Tests of ld_lines by examples from outside.
#![tactic(auto)]

#[cfg(test)]
mod commands;
#[cfg(test)]
mod pieces;
#[cfg(test)]
mod refusals;
