//! Which rules look at which cells, in a run of one person who holds every role.
ghost use Rattle.std.specs.Prelude.{◌≡◌, ◌∷◌, ◌++◌, [], ◌&&◌, ◌||◌, ℕ, IfOk, OnOk, None, Some, cond, nat_eq, slice_get, true};
ghost use Rattle.std.specs.BTreeMap.{get};
ghost use Rattle.std.specs.List.{list_any};
ghost use Rattle.std.specs.Ordering.{is_eq};
ghost use Rattle.ld_model.specs.Cells.{same_cell};
ghost use Rattle.ld_model.specs.declared.cell.CellName.{CellName as Cell};
ghost use Rattle.ld_names.specs.Rules.{rules_of};
ghost use Rattle.ld_rank.specs.Alone.{is_fed};
ghost use Rattle.ld_rank.specs.Lookers.{AreLookers, cell_cmp, is_at, rule_looks_at, rules_at};

use crate::lists::looks_of;
use ld_base::NoMemory;
use ld_model::CellName;
use ld_names::Rule;
use ld_rules::PreparedUnit;
use std::alloc::Global;
use std::collections::BTreeMap;

/// For each cell the numbers of the rules that look at it.
#[derive(Drop)]
pub(crate) struct Lookers {
    by_cell: BTreeMap<CellName, Vec<usize>>,
}

/// Which rules of the unit look at which cells that a firing may write. Each cell at which a rule
/// looks is found once. The only error is out of memory.
pub(crate) fn lookers_of(alloc: Global, unit: &PreparedUnit) -> Result<Lookers, NoMemory>
    ensures { IfOk result (AreLookers unit.now) }
{
    let mut lookers = Lookers {
        by_cell: BTreeMap::new(alloc),
    };
    for number in 0..unit.rules().len() {
        lookers.add_rule(alloc, unit, number)?;
    }
    Ok(lookers)
}

impl Lookers {
    /// The numbers of the rules that look at the cell.
    pub(crate) fn at(&self, cell: CellName) -> &[usize]
        ensures { result.now ≡ rules_at self.now cell }
    {
        match self.by_cell.get(&cell) {
            Some(rules) => rules,
            None => &[],
        }
    }

    /// Notes the rule for each cell at which it looks. The only error is out of memory.
    fn add_rule(
        &mut self,
        alloc: Global,
        unit: &PreparedUnit,
        number: usize,
    ) -> Result<(), NoMemory>
        ensures { OnOk result ((q : Cell) (b : ℕ) → is_fed q ≡ true → is_at self.new q b
            ≡ (is_at self.old q b || (nat_eq number b && rule_looks_at unit.now number q))) }
    {
        let Some(rule) = unit.rules().get(number) else {
            return Ok(());
        };
        self.add_looks(alloc, unit, number, *rule)
    }

    /// The same, where this is the rule.
    fn add_looks(
        &mut self,
        alloc: Global,
        unit: &PreparedUnit,
        number: usize,
        rule: Rule,
    ) -> Result<(), NoMemory>
        requires { slice_get (rules_of unit.now) number ≡ Some rule }
        ensures { OnOk result ((q : Cell) (b : ℕ) → is_fed q ≡ true → is_at self.new q b
            ≡ (is_at self.old q b || (nat_eq number b && rule_looks_at unit.now number q))) }
    {
        let cells = looks_of(alloc, unit, rule)?;
        self.add_all(alloc, &cells, number)?;
        Ok(())
    }

    /// Notes the rule for each of the cells. The only error is out of memory.
    fn add_all(&mut self, alloc: Global, cells: &[CellName], rule: usize) -> Result<(), NoMemory>
        ensures { OnOk result ((q : Cell) (b : ℕ) → is_at self.new q b
            ≡ (is_at self.old q b || (nat_eq rule b && list_any (same_cell q) cells.now))) }
    {
        for cell in cells {
            self.add(alloc, *cell, rule)?;
        }
        Ok(())
    }

    /// Notes the rule for the cell. The only error is out of memory.
    fn add(&mut self, alloc: Global, cell: CellName, rule: usize) -> Result<(), NoMemory>
        ensures { OnOk result ((q : Cell) → rules_at self.new q
            ≡ rules_at self.old q ++ cond (same_cell q cell) (rule ∷ []) []) }
    {
        let mut rules = self.taken(alloc, cell);
        rules.push(rule)?;
        self.by_cell.insert(cell, rules)?;
        Ok(())
    }

    /// Takes out the rules that are noted for the cell.
    fn taken(&mut self, alloc: Global, cell: CellName) -> Vec<usize>
        ensures items { result.items ≡ rules_at self.old cell }
        ensures rest { (q : Cell) → get cell_cmp self.new.by_cell q
            ≡ cond (is_eq (cell_cmp cell q)) None (get cell_cmp self.old.by_cell q) }
    {
        match self.by_cell.remove(&cell) {
            Some(rules) => rules,
            None => Vec::new(alloc),
        }
    }
}
