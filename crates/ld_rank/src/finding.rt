//! Whether a rule looks at a cell, or at one that another rule writes, in a run of one person who
//! holds every role. It takes no memory.
ghost use Rattle.std.specs.Prelude.{◌≡◌, false, true};
ghost use Rattle.std.specs.List.{list_any};
ghost use Rattle.ld_model.specs.Cells.{same_cell};
ghost use Rattle.ld_model.specs.declared.cell.CellName.{CellName as Cell};
ghost use Rattle.ld_rank.specs.Alone.{is_fed, looks_alone, writes_alone};
ghost use Rattle.ld_rank.specs.Telling.{RuleAlone, awaited_after, sought_after};

use crate::looks::put_looks;
use crate::sink::CellSink;
use crate::writes::put_writes;
use ld_model::CellName;
use ld_names::Rule;
use ld_rules::PreparedUnit;

/// What was looked for is found.
#[derive(Drop)]
struct Found;

/// Looks for a cell, and stops there.
#[derive(Drop)]
struct Seeker {
    sought: CellName,
}

impl CellSink for Seeker {
    type Stop = Found;

    ghost Told = { Cell };

    ghost told = { λ seeker. seeker.sought };

    ghost after = { sought_after };

    ghost can_fail = { false };

    fn put(&mut self, cell: CellName) -> Result<(), Found> {
        if self.sought == cell {
            return Err(Found);
        }
        Ok(())
    }
}

/// Whether the rule looks at the cell.
pub(crate) fn looks_at(unit: &PreparedUnit, rule: Rule, cell: CellName) -> bool
    requires { is_fed cell ≡ true }
    ensures { result ≡ list_any (same_cell cell) (looks_alone unit.now rule) }
{
    match put_looks(unit, rule, &mut Seeker { sought: cell }) {
        Ok(()) => false,
        Err(Found) => true,
    }
}

/// Looks for a cell at which the rule looks, and stops there.
#[derive(Drop)]
struct Reader<'a> {
    unit: &'a PreparedUnit,
    rule: Rule,
}

impl CellSink for Reader<'_> {
    type Stop = Found;

    ghost Told = { RuleAlone };

    ghost told = { λ reader. record { unit = reader.unit.now; rule = reader.rule } };

    ghost after = { awaited_after };

    ghost can_fail = { false };

    fn put(&mut self, cell: CellName) -> Result<(), Found> {
        if looks_at(self.unit, self.rule, cell) {
            return Err(Found);
        }
        Ok(())
    }
}

/// Whether the second rule looks at a cell that the first writes beside its mark.
pub(crate) fn looks_at_writes(unit: &PreparedUnit, first: Rule, second: Rule) -> bool
    ensures { result ≡ list_any (λ cell. list_any (same_cell cell) (looks_alone unit.now second))
        (writes_alone unit.now first) }
{
    match put_writes(unit, first, &mut Reader { unit, rule: second }) {
        Ok(()) => false,
        Err(Found) => true,
    }
}
