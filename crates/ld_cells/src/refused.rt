//! A value for which memory ran out.
use ld_base::NoMemory;
use ld_value::Value;

/// Memory ran out: nothing has changed, and this is what was not taken in.
#[derive(Drop)]
pub struct Refused(pub Option<Value>);

impl From<Refused> for NoMemory {
    /// Lets the value go.
    fn from(_refused: Refused) -> NoMemory {
        NoMemory
    }
}
