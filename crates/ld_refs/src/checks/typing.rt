//! The check of types.
use crate::checks::each::PartCheck;
use ld_json::ReadFault;
use ld_model::Level;
use ld_types::Typing;
use ld_walk::{Spot, What};
use std::alloc::Global;

impl<'a> PartCheck for Typing<'a> {
    ghost use Rattle.ld_types.specs.Typing.{type_faults_of};
    ghost use Rattle.ld_types.specs.TypingView.{find_by};

    ghost faults = { λ s. type_faults_of (find_by s) };

    fn check(
        &self,
        alloc: Global,
        at: &Spot<'_>,
        _level: Level,
        what: What<'_>,
    ) -> Result<(), ReadFault> {
        match what {
            What::Types(typed) => self.check_typed(alloc, at, typed),
            _ => Ok(()),
        }
    }
}
