//! Tests of what no clause of `ld_refs` and `ld_top` says: that each call succeeds where there is
//! memory, and that a failed call of shelf, source, sink or disk ends the call of the program. Everything
//! runs over memory.
#![tactic(auto)]

#[cfg(test)]
mod calls;
#[cfg(test)]
mod folders;
#[cfg(test)]
mod keep;
#[cfg(test)]
mod refs;
#[cfg(test)]
mod reports;
#[cfg(test)]
mod several;
#[cfg(test)]
mod streams;
#[cfg(test)]
mod words;
