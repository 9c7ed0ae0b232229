//! All that the program `ld` does, over any shelf, source, sink and disk: it reads the documents of
//! units from folders, and prints a report on a unit, or publishes the units and answers lines of
//! commands, which it may keep in a journal.
//!
//! The promise is the contract of `ld_top` (`top.rt`). What the lines of a world of units are
//! answered stands in `ld_world`, below.
#![tactic(auto)]

pub mod ending;
mod generate;
mod keep_folders;
pub mod laws;
pub mod publish;
pub mod reader;
pub mod refusal;
mod replay;
mod replay_folders;
pub mod report;
mod sending;
pub mod top;
pub mod words;

pub use reader::folder::read_folder;
pub use top::{Status, ld_main, ld_top};
pub use words::given_words;
