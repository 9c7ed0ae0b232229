//! What is kept of a key.
use ld_value::Value;

/// The value of a key, and the number of the write that gave it, counted from 1.
#[derive(Drop)]
pub(crate) struct Cell {
    pub(crate) value: Option<Value>,
    pub(crate) number: u64,
}
