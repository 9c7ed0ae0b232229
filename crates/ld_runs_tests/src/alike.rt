//! A run all of whose cells are alike.

use ld_base::Steps;
use ld_model::{CellName, View};
use ld_value::Value;
use std::sync::ledger::Ledger;

/// A view of one person in which each name of a cell has this value.
#[derive(Drop)]
pub(crate) struct Alike {
    pub(crate) value: Option<Value>,
}

impl View for Alike {
    ghost use Rattle.std.specs.Option.{option_map};
    ghost use Rattle.ld_value.specs.Datum.{datum_of};

    ghost seen = { λ view. record { persons = 1; value = λ _. option_map datum_of view.value } };

    fn persons(&self) -> u32 {
        1
    }

    fn get<L: Ledger>(&self, _cell: CellName, steps: &mut Steps<L>) -> Option<&Value> {
        steps.tick();
        self.value.as_ref()
    }
}
