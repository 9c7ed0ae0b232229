//! A view of one cell.
ghost use Rattle.std.specs.Prelude.{◌≡◌, ◌<◌};
ghost use Rattle.ld_value.specs.Datum.{datum_of};
ghost use Rattle.ld_model.specs.Cells.{same_cell};
ghost use Rattle.ld_model.specs.declared.cell.CellName.TheVariants as names;

use ld_base::Steps;
use ld_model::{CellName, View};
use ld_value::Value;
use std::marker::Brand;
use std::sync::ledger::{Blank, Ledger};
use std::test::Fail;

/// A run whose only cell is the one named `Started`.
#[derive(Drop)]
struct OneCell {
    started: Option<Value>,
}

impl View for OneCell {
    ghost use Rattle.std.specs.Option.{option_map};
    ghost use Rattle.std.specs.Prelude.{None, if◌then◌else◌};

    ghost seen = { λ view. record {
      persons = 0;
      value = λ cell. if same_cell cell names.Started then option_map datum_of view.started
          else None;
    } };

    fn persons(&self) -> u32 {
        0
    }

    fn get<L: Ledger>(&self, cell: CellName, steps: &mut Steps<L>) -> Option<&Value> {
        steps.tick();
        match cell {
            CellName::Started => self.started.as_ref(),
            _ => None,
        }
    }
}

/// Whether the cell of the view has the number, and another one has no value.
fn has_number<L: Ledger>(number: i64, blank: Blank) -> bool
    requires name { blank.name ≡ L.name }
    requires parts { blank.parts ≡ L.parts }
    requires some { 0 < L.parts }
{
    let view = OneCell {
        started: Some(Value::Int(7)),
    };
    let mut steps = Steps::<L>::new(blank);
    let value = view.get(CellName::Started, &mut steps);
    let other = view.get(CellName::Now, &mut steps);
    matches!(value, Some(Value::Int(found)) if *found == number) && other.is_none()
}

#[test]
fn a_view_gives_the_value_of_its_cell(rt: HostRuntime) {
    assert!(rt; has_number::<Brand>(7, Blank::new(1)));
    assert!(rt; !has_number::<Brand>(8, Blank::new(1)));
}
