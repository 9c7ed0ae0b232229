//! Answering lines over a journal: first its lines are done again, then those of a source are
//! answered, and each that is done is kept before its reply is written.
#![tactic(auto)]

mod answering;
mod ending;
mod keep;
mod opening;

pub use ending::KeepEnding;
pub use keep::keep_lines;
