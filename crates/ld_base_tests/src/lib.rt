//! What no clause of `ld_base`, `ld_json` and `ld_value` says: that calls succeed where there is
//! memory, what the machine answers, and values that were worked out outside this program.
#![tactic(auto)]

#[cfg(test)]
mod base;
#[cfg(test)]
mod documents;
#[cfg(test)]
mod value;
