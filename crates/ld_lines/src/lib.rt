//! The lines of a source, and which command each of them is.
#![tactic(auto)]

mod buffer;
pub mod command;
pub mod command_reader;
mod cut;
pub mod fault;
pub mod line;
pub mod lines;
pub mod next;
mod reader;
pub mod refusal;
pub mod stop;
mod verbs;
mod words;

pub use command::RunCommand;
pub use command_reader::CommandReader;
pub use fault::LineFault;
pub use line::Line;
pub use lines::{LINE_LIMIT, Lines};
pub use next::Next;
pub use refusal::refusal_word;
pub use stop::LineStop;
