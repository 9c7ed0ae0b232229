//! Tests of what no clause of `ld_words` says: that words are read where there is memory.
#![tactic(auto)]

#[cfg(test)]
mod forms;
