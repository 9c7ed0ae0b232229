//! Why a line is refused.
ghost use Rattle.std.specs.Prelude.{◌≡◌};
ghost use Rattle.ld_admission.specs.RefusalView.{refusal_of};
ghost use Rattle.ld_admission.specs.Refusals.{refusal_number};

use ld_base::{Id, NoMemory};
use ld_value::Moment;

/// Why a line is refused, with what is printed of it. (docs/COMMANDS.md, "Refusals")
#[derive(Clone, Copy)]
pub enum Refusal<'a> {
    BadLine,
    UnknownUnit,
    RunExists,
    UnknownRun,
    /// The moment is before this last one of the run.
    MomentBack(Moment),
    NotStarted,
    StartedAlready,
    UnknownPerson,
    PersonExists,
    RunFull,
    UnknownRole,
    HoldsAlready,
    NotHeld,
    RoleFull,
    RoleExclusive,
    /// The role has, or would have, `count` members, and needs `least`.
    RoleShort {
        role: &'a Id,
        count: u32,
        least: u32,
    },
    UnknownActivity,
    NotByChoice,
    UnknownProperty,
    UnknownGlobal,
    BadValue,
    NotAllowed,
    TurnBudget,
    NotOpen,
    NoMemory,
}

impl From<NoMemory> for Refusal<'_> {
    ghost use Rattle.ld_admission.specs.declared.refusal.Refusal.TheVariants.{NoMemory as WantOfMemory};

    ghost from_gives = { λ _ refusal. refusal ≡ WantOfMemory };

    fn from(_: NoMemory) -> Self {
        Refusal::NoMemory
    }
}

impl Refusal<'_> {
    /// The number of the refusal.
    pub fn number(self) -> u8
        ensures { result ≡ refusal_number (refusal_of self.entry) }
    {
        match self {
            Refusal::BadLine => 1,
            Refusal::UnknownUnit => 2,
            Refusal::RunExists => 3,
            Refusal::UnknownRun => 4,
            Refusal::MomentBack(_) => 5,
            Refusal::NotStarted => 6,
            Refusal::StartedAlready => 7,
            Refusal::UnknownPerson => 8,
            Refusal::PersonExists => 9,
            Refusal::RunFull => 10,
            Refusal::UnknownRole => 11,
            Refusal::HoldsAlready => 12,
            Refusal::NotHeld => 13,
            Refusal::RoleFull => 14,
            Refusal::RoleExclusive => 15,
            Refusal::RoleShort { .. } => 16,
            Refusal::UnknownActivity => 17,
            Refusal::NotByChoice => 18,
            Refusal::UnknownProperty => 19,
            Refusal::UnknownGlobal => 20,
            Refusal::BadValue => 21,
            Refusal::NotAllowed => 22,
            Refusal::TurnBudget => 30,
            Refusal::NotOpen => 31,
            Refusal::NoMemory => 99,
        }
    }
}
