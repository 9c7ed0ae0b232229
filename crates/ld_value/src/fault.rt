//! What can keep a text from being read as a value.
ghost use Rattle.std.specs.Prelude.{◌≡◌};

use ld_base::NoMemory;

/// Why no value was read.
#[derive(Clone, Copy, Debug, PartialEq, Eq)]
pub enum ValueFault {
    /// The text has no value of the datatype.
    BadValue,
    /// The allocator gave no memory.
    NoMemory,
}

impl From<NoMemory> for ValueFault {
    ghost use Rattle.ld_value.specs.declared.fault.ValueFault.TheVariants.{NoMemory as WantOfMemory};

    ghost from_gives = { λ _ fault. fault ≡ WantOfMemory };

    fn from(_error: NoMemory) -> ValueFault {
        ValueFault::NoMemory
    }
}
