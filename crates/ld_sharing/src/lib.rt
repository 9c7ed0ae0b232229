//! What a run takes from the store of global values, and what it gives back.
#![tactic(auto)]

mod finding;
pub mod giving;
mod reading;
pub mod stored;
mod taken_value;
pub mod taking;

pub use giving::{Write, give_back, prepare};
pub use stored::stored_values;
pub use taking::take_in;
