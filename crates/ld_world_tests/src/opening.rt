//! A run of one person in which the first act is open and nothing is done.
ghost use Rattle.std.specs.Prelude.{◌≡◌};

use ld_base::Steps;
use ld_model::{CellName, View};
use ld_value::Value;
use std::sync::ledger::Ledger;

/// A run of one person, where each mark has the one value and every other cell has the other.
#[derive(Drop)]
pub(crate) struct Opening {
    pub(crate) mark: Value,
    pub(crate) other: Value,
}

impl View for Opening {
    ghost use Rattle.std.specs.Prelude.{Some, if◌then◌else◌, true};
    ghost use Rattle.ld_rules.specs.LawWords.{is_mark};
    ghost use Rattle.ld_value.specs.Datum.{datum_of};

    ghost seen = { λ view. record {
      persons = 1;
      value = λ name. Some (if is_mark name then datum_of view.mark else datum_of view.other);
    } };

    fn persons(&self) -> u32 {
        1
    }

    fn get<L: Ledger>(&self, cell: CellName, steps: &mut Steps<L>) -> Option<&Value> {
        steps.tick();
        match cell {
            CellName::Mark(_, _) => Some(&self.mark),
            _ => Some(&self.other),
        }
    }
}
