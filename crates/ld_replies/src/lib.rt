//! What the replies to commands tell: refusals, values, trees, outboxes and reports.
#![tactic(auto)]

mod method_lines;
mod outbox;
mod printed;
mod refusal_text;
pub mod replies;
mod report;
mod role_lines;
pub mod telling;
pub mod value_text;

pub use replies::{push_done, push_next, push_refusal};
pub use telling::{refuse, say_no_memory, tell_refusal};
pub use value_text::push_value;
