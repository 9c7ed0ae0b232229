//! The words of a call: which of the program's forms they have, read with `clap`.
#![tactic(auto)]

pub mod form;
mod parse;

pub use form::{Form, form_of};
