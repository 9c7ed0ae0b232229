//! The cells at which a rule looks, and those that it writes, as lists.
ghost use Rattle.std.specs.Prelude.{◌≡◌, IfOk, List, filter, true};
ghost use Rattle.ld_model.specs.declared.cell.CellName.{CellName as Cell};
ghost use Rattle.ld_rank.specs.Alone.{is_fed, looks_alone, writes_alone};
ghost use Rattle.ld_rank.specs.Telling.{listed_after};

use crate::looks::put_looks;
use crate::sink::CellSink;
use crate::writes::put_writes;
use ld_base::NoMemory;
use ld_model::CellName;
use ld_names::Rule;
use ld_rules::PreparedUnit;
use std::alloc::Global;

/// Lists the cells that it is told.
#[derive(Drop)]
struct CellList {
    cells: Vec<CellName>,
}

impl CellSink for CellList {
    type Stop = NoMemory;

    ghost Told = { List Cell };

    ghost told = { λ list. list.cells.items };

    ghost after = { listed_after };

    ghost can_fail = { true };

    fn put(&mut self, cell: CellName) -> Result<(), NoMemory> {
        self.cells.push(cell)?;
        Ok(())
    }
}

/// The cells at which the rule looks and that a firing may write, with repeats.
pub(crate) fn looks_of(
    alloc: Global,
    unit: &PreparedUnit,
    rule: Rule,
) -> Result<Vec<CellName>, NoMemory>
    ensures { IfOk result (λ cells. cells.items ≡ filter is_fed (looks_alone unit.now rule)) }
{
    let mut list = CellList {
        cells: Vec::new(alloc),
    };
    put_looks(unit, rule, &mut list)?;
    Ok(list.cells)
}

/// The cells that the rule writes beside its mark, and at which a rule may look, with repeats.
pub(crate) fn writes_of(
    alloc: Global,
    unit: &PreparedUnit,
    rule: Rule,
) -> Result<Vec<CellName>, NoMemory>
    ensures { IfOk result (λ cells. cells.items ≡ filter is_fed (writes_alone unit.now rule)) }
{
    let mut list = CellList {
        cells: Vec::new(alloc),
    };
    put_writes(unit, rule, &mut list)?;
    Ok(list.cells)
}
