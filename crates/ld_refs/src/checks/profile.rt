//! The checks of levels, and of what is left out.
ghost use Rattle.std.specs.Prelude.{◌≡◌};
ghost use Rattle.ld_walk.specs.PartView.{what_of};
ghost use Rattle.ld_refs.specs.Bounds.{is_above, is_left_out};

use crate::checks::each::PartCheck;
use ld_json::{Code, ReadFault};
use ld_model::Level;
use ld_walk::{Spot, What};
use std::alloc::Global;

/// That nothing has a higher level than this.
#[derive(Clone, Copy)]
pub(crate) struct Levels(pub(crate) Level);

impl PartCheck for Levels {
    ghost use Rattle.ld_refs.specs.Bounds.{level_faults_of};

    ghost faults = { λ s. level_faults_of s.0 };

    fn check(
        &self,
        alloc: Global,
        at: &Spot<'_>,
        level: Level,
        _what: What<'_>,
    ) -> Result<(), ReadFault> {
        if is_above(self.0, level) {
            return Err(at.fault(alloc, Code::AboveLevel));
        }
        Ok(())
    }
}

/// Whether the second level is higher than the first.
fn is_above(level: Level, other: Level) -> bool
    ensures { result ≡ is_above level other }
{
    match level {
        Level::A => other != Level::A,
        Level::B => other == Level::C,
        Level::C => false,
    }
}

/// That nothing stands there which this engine leaves out.
#[derive(Clone, Copy)]
pub(crate) struct Profile;

impl PartCheck for Profile {
    ghost use Rattle.ld_refs.specs.Bounds.{profile_faults_of};

    ghost faults = { λ s. profile_faults_of };

    fn check(
        &self,
        alloc: Global,
        at: &Spot<'_>,
        _level: Level,
        what: What<'_>,
    ) -> Result<(), ReadFault> {
        if is_left_out(what) {
            return Err(at.fault(alloc, Code::NotInProfile));
        }
        Ok(())
    }
}

/// Whether this engine leaves it out.
fn is_left_out(what: What<'_>) -> bool
    ensures { result ≡ is_left_out (what_of what.entry) }
{
    match what {
        What::Follows(completes) => !completes,
        What::LeftOut => true,
        _ => false,
    }
}
