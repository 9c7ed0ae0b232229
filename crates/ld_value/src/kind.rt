//! The datatypes of properties.

/// The datatype of a property, which tells which texts have a value and how values compare.
#[derive(Clone, Copy, PartialEq, Eq)]
pub enum Kind {
    String,
    Text,
    Uri,
    Boolean,
    Integer,
    Datetime,
    Duration,
}
