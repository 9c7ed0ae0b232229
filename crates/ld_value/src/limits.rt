//! The restrictions of a property.
use crate::value::Value;
use ld_base::Items;

/// A list of values.
pub type ValueList = Items<Value>;

/// The restrictions of a property as values. An absent one restricts nothing, nor does an empty
/// list.
#[derive(Drop)]
pub struct Limits {
    /// The least value that fits.
    pub least: Option<Value>,
    /// The greatest value that fits.
    pub most: Option<Value>,
    /// The least number of characters of a text that fits.
    pub min_length: Option<u32>,
    /// The greatest number of characters of a text that fits.
    pub max_length: Option<u32>,
    /// The values of which one has to be equal to the value.
    pub one_of: ValueList,
}
