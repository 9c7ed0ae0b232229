//! Who has values of a property within a run.
ghost use Rattle.std.specs.Prelude.{◌≡◌};
ghost use Rattle.ld_names.specs.Holders.{holder_of, is_held_by_persons, is_held_by_run};

use ld_model::{Property, PropertyKind, Unit};

/// Who has values of a property: the run has one, or each person has one.
#[derive(Clone, Copy)]
pub enum Holder {
    Run,
    Persons,
}

impl Holder {
    /// Who has values of the property of the unit. A role's property is the run's, and so is what a
    /// run keeps of a value that all runs share. (docs/MEANING.md, "The state of a run")
    pub fn of(unit: &Unit, property: &Property) -> Holder
        ensures { result ≡ holder_of unit.now property.now }
    {
        match property.kind {
            PropertyKind::LocPers | PropertyKind::GlobPers => Holder::Persons,
            PropertyKind::Loc | PropertyKind::LocRole | PropertyKind::Glob => Holder::Run,
        }
    }

    /// Whether the run has a value.
    pub fn is_run(self) -> bool
        ensures { result ≡ is_held_by_run self }
    {
        match self {
            Holder::Run => true,
            Holder::Persons => false,
        }
    }

    /// Whether each person has a value.
    pub fn is_persons(self) -> bool
        ensures { result ≡ is_held_by_persons self }
    {
        match self {
            Holder::Run => false,
            Holder::Persons => true,
        }
    }
}
