//! A write as it is recorded under a savepoint.
use ld_value::Value;

/// A write to a cell, and what the cell held before it.
#[derive(Drop)]
pub struct Change {
    pub slot: u32,
    pub before: Option<Value>,
}
