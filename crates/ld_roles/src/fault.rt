//! What a call of the roster can be refused for.
use ld_base::{NoMemory, RoleNo};

/// A role with fewer members than it needs.
#[derive(Clone, Copy, Debug, PartialEq, Eq)]
pub struct Short {
    pub role: RoleNo,
    /// How many members it has.
    pub count: u32,
    /// The least number of members.
    pub least: u32,
}

/// Why a person was not enrolled.
#[derive(Clone, Copy, Debug, PartialEq, Eq)]
pub enum EnrolFault {
    /// The run has a person of this name.
    PersonExists,
    /// The run has as many persons as it can have.
    RunFull,
    /// The allocator gave no memory.
    NoMemory,
}

/// Why a person was not given a role.
#[derive(Clone, Copy, Debug, PartialEq, Eq)]
pub enum AssignFault {
    /// The person holds the role.
    HoldsAlready,
    /// The role, or one that it stands within, has its greatest number of members.
    RoleFull,
    /// The person would be a member of two roles of which a person may be in one alone.
    RoleExclusive,
    /// The allocator gave no memory. The roster itself takes none to give a role.
    NoMemory,
}

/// Why a person did not drop a role.
#[derive(Clone, Copy, Debug, PartialEq, Eq)]
pub enum DropFault {
    /// The person does not hold the role.
    NotHeld,
    /// The role, or one that it stands within, would have too few members.
    RoleShort(Short),
}

impl From<NoMemory> for EnrolFault {
    ghost use Rattle.std.specs.Prelude.{◌≡◌};
    ghost use Rattle.ld_roles.specs.declared.fault.EnrolFault.TheVariants.{NoMemory as WantOfMemory};

    ghost from_gives = { λ _ fault. fault ≡ WantOfMemory };

    fn from(_error: NoMemory) -> EnrolFault {
        EnrolFault::NoMemory
    }
}
