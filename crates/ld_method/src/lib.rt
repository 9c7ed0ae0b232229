//! Readers of the method of a unit, of its conditions and their tests, by their descriptions in the
//! crate `ld_formats`; and with them the whole unit: `read_method` makes it of the parts that
//! `read_parts` of the crate `ld_reader` gave. (docs/FORMATS.md, "Documents")
#![tactic(auto, using(ld_json::proofs::First::says_more))]

pub mod completions;
pub mod conditions;
pub mod method;
pub mod test_forms;
pub mod unit;
pub mod whole;

pub use whole::read_method;
