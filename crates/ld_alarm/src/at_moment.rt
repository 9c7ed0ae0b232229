//! A run as it is seen where `Now` alone is put to another moment.
use ld_base::Steps;
use ld_model::{CellName, View};
use ld_value::Value;
use std::sync::ledger::Ledger;

/// What another view shows, but for the moment of the command.
#[derive(Drop)]
pub(crate) struct AtMoment<'a, V: View> {
    pub(crate) view: &'a V,
    pub(crate) now: Value,
}

impl<'a, V: View> View for AtMoment<'a, V> {
    ghost use Rattle.std.specs.Prelude.{Some};
    ghost use Rattle.ld_value.specs.Datum.{datum_of};
    ghost use Rattle.ld_model.specs.Cells.{put_cell};
    ghost use Rattle.ld_model.specs.declared.cell.CellName.TheVariants.{Now};

    ghost seen = { λ s. record {
      persons = (V.seen s.view.now).persons;
      value = put_cell (V.seen s.view.now).value Now (Some (datum_of s.now));
    } };

    fn persons(&self) -> u32 {
        self.view.persons()
    }

    fn get<L: Ledger>(&self, cell: CellName, steps: &mut Steps<L>) -> Option<&Value> {
        match cell {
            CellName::Now => {
                steps.tick();
                Some(&self.now)
            }
            _ => self.view.get(cell, steps),
        }
    }
}
