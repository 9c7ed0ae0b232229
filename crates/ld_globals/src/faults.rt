//! What a call of the store can be refused for.
ghost use Rattle.std.specs.Prelude.{◌≡◌};

use ld_base::NoMemory;

/// Why a list was not declared.
#[derive(Clone, Copy, Debug, PartialEq, Eq)]
pub enum DeclareFault {
    /// The uri at this place of the list, counted from 0, is declared with other contents.
    Differs(u32),
    /// The allocator gave no memory.
    NoMemory,
}

/// Why a key has no value to give.
#[derive(Clone, Copy, Debug, PartialEq, Eq)]
pub enum GlobalFault {
    /// The uri is not declared.
    UnknownGlobal,
    /// A person is given for a property with one value for all, or none for one with a value for
    /// each.
    NotAllowed,
}

/// Why a key was not set.
#[derive(Clone, Copy, Debug, PartialEq, Eq)]
pub enum SetFault {
    /// The uri is not declared.
    UnknownGlobal,
    /// The text has no value of the datatype, or one that does not fit the restrictions.
    BadValue,
    /// A person is given for a property with one value for all, or none for one with a value for
    /// each.
    NotAllowed,
    /// The allocator gave no memory.
    NoMemory,
}

impl From<NoMemory> for DeclareFault {
    ghost use Rattle.ld_globals.specs.declared.faults.DeclareFault.TheVariants.{NoMemory as WantOfMemory};

    ghost from_gives = { λ _ fault. fault ≡ WantOfMemory };

    fn from(_error: NoMemory) -> DeclareFault {
        DeclareFault::NoMemory
    }
}

impl From<NoMemory> for SetFault {
    ghost use Rattle.ld_globals.specs.declared.faults.SetFault.TheVariants.{NoMemory as WantOfMemory};

    ghost from_gives = { λ _ fault. fault ≡ WantOfMemory };

    fn from(_error: NoMemory) -> SetFault {
        SetFault::NoMemory
    }
}
