//! What no clause of `ld_model`, `ld_reader` and `ld_method` says: that documents
//! are read and named where there is memory, and what is read from them, told by hand. Which fault
//! is the first in which documents is shown by tests/first_faults.
#![tactic(auto)]

#[cfg(test)]
mod documents;
#[cfg(test)]
mod method;
#[cfg(test)]
mod model;
#[cfg(test)]
mod reader;
