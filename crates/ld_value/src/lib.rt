//! Values of the seven datatypes of a property: reading them from texts, testing them against
//! restrictions, and printing them.
#![tactic(auto)]

mod digits;
mod draft;
pub mod duration;
pub mod fault;
pub mod fits;
pub mod forms;
mod integer;
pub mod kind;
pub mod limits;
pub mod moment;
mod moment_parts;
pub mod print;
pub mod read;
pub mod value;

pub use duration::{LONGEST_SPAN, read_duration};
pub use fault::ValueFault;
pub use forms::{MAX_TEXT, is_uri};
pub use kind::Kind;
pub use limits::{Limits, ValueList};
pub use moment::{FIRST_MOMENT, LAST_MOMENT, Moment, print_moment, read_moment};
pub use print::print_value;
pub use read::{read_scalar, read_value};
pub use value::{Value, same_value};
