//! The graph of a unit's rules: a node for each, and an edge where one feeds another.
ghost use Rattle.std.specs.Prelude.{◌≡◌, ◌∷◌, ◌++◌, [], ◌&&◌, ◌||◌, ◌<◌, ◌≤◌, ℕ, IfOk, OnOk, cond, false, filter, length, map, nat_eq, not, replicate, slice_get, Some};
ghost use Rattle.std.specs.List.{list_any};
ghost use Rattle.ld_base.specs.Numbers.{numbers_below};
ghost use Rattle.ld_names.specs.Rules.{rules_of};
ghost use Rattle.ld_rules.specs.SiteTests.{says_for_good, site_mark};
ghost use Rattle.ld_rank.specs.Alone.{feeds_between, site_alone};
ghost use Rattle.ld_rank.specs.Lookers.{AreLookers, is_at};
ghost use Rattle.ld_rank.specs.Rules.{IsGraphOf, IsRowOf, is_named};

use crate::feeding::mark_alone;
use crate::lists::writes_of;
use crate::lookers::{Lookers, lookers_of};
use ld_base::NoMemory;
use ld_model::CellName;
use ld_names::Rule;
use ld_rules::{PreparedUnit, says_for_good};
use std::alloc::Global;

/// For each rule those that it feeds, in order. What each rule looks at and writes is found once.
/// The only error is out of memory.
pub(crate) fn edges_of(alloc: Global, unit: &PreparedUnit) -> Result<Vec<Vec<usize>>, NoMemory>
    ensures graph { IfOk result (λ edges. IsGraphOf unit.now (map (λ next. next.items) edges.items)) }
    ensures few { IfOk result (λ edges. length edges.items ≤ 600) }
{
    let lookers = lookers_of(alloc, unit)?;
    let count = unit.rules().len();
    let mut edges = Vec::with_capacity(alloc, count)?;
    for rule in 0..count {
        edges.push(fed_by(alloc, unit, &lookers, rule)?)?;
    }
    Ok(edges)
}

/// The rules that the rule feeds, in order.
fn fed_by(
    alloc: Global,
    unit: &PreparedUnit,
    lookers: &Lookers,
    number: usize,
) -> Result<Vec<usize>, NoMemory>
    requires { AreLookers unit.now lookers.now }
    ensures { IfOk result (λ fed. fed.items
        ≡ filter (λ b. feeds_between unit.now number b)
        (numbers_below (length (rules_of unit.now)))) }
{
    let Some(rule) = unit.rules().get(number) else {
        return Ok(Vec::new(alloc));
    };
    let table = table_of(alloc, unit, lookers, number, *rule)?;
    let fed = numbers_of(alloc, &table)?;
    Ok(fed)
}

/// Of each rule whether the rule feeds it: whether it looks at its mark, where that counts, or at
/// another cell that it writes.
fn table_of(
    alloc: Global,
    unit: &PreparedUnit,
    lookers: &Lookers,
    number: usize,
    rule: Rule,
) -> Result<Vec<bool>, NoMemory>
    requires lookers { AreLookers unit.now lookers.now }
    requires at { slice_get (rules_of unit.now) number ≡ Some rule }
    requires few { number < 600 }
    ensures { IfOk result (λ table. IsRowOf unit.now number table.items) }
{
    let writes = writes_of(alloc, unit, rule)?;
    let mut table = vec![in alloc; false; unit.rules().len()]?;
    name_fed(lookers, number, rule, &writes, &mut table);
    Ok(table)
}

/// Names the rules that look at the mark of the rule, where it counts, or at one of the cells.
fn name_fed(lookers: &Lookers, number: usize, rule: Rule, cells: &[CellName], fed: &mut [bool])
    requires few { number < 600 }
    requires none { fed.old ≡ replicate (length fed.old) false }
    ensures each { length fed.new ≡ length fed.old }
    ensures value { (b : ℕ) → b < length fed.old → is_named fed.new b
        ≡ ((not (nat_eq number b && says_for_good rule)
        && is_at lookers.now (site_mark (site_alone number rule)) b)
        || list_any (λ cell. is_at lookers.now cell b) cells.now) }
{
    name_by_mark(lookers, number, rule, fed);
    name_by_cells(lookers, cells, fed);
}

/// Names the rules that look at the mark of the rule, where it counts.
fn name_by_mark(lookers: &Lookers, number: usize, rule: Rule, fed: &mut [bool])
    requires few { number < 600 }
    requires none { fed.old ≡ replicate (length fed.old) false }
    ensures each { length fed.new ≡ length fed.old }
    ensures value { (b : ℕ) → b < length fed.old → is_named fed.new b
        ≡ (not (nat_eq number b && says_for_good rule)
        && is_at lookers.now (site_mark (site_alone number rule)) b) }
{
    name_all(lookers.at(mark_alone(number, rule)), fed);
    if number < fed.len() && says_for_good(rule) {
        fed[number] = false;
    }
}

/// Names also the rules that look at one of the cells.
fn name_by_cells(lookers: &Lookers, cells: &[CellName], fed: &mut [bool])
    ensures each { length fed.new ≡ length fed.old }
    ensures value { (b : ℕ) → b < length fed.old → is_named fed.new b
        ≡ (is_named fed.old b || list_any (λ cell. is_at lookers.now cell b) cells.now) }
{
    for cell in cells {
        name_all(lookers.at(*cell), fed);
    }
}

/// Names also these rules.
fn name_all(rules: &[usize], fed: &mut [bool])
    ensures each { length fed.new ≡ length fed.old }
    ensures value { (b : ℕ) → b < length fed.old → is_named fed.new b
        ≡ (is_named fed.old b || list_any (λ rule. nat_eq rule b) rules.now) }
{
    for rule in rules {
        name(*rule, fed);
    }
}

/// Names also this rule.
fn name(rule: usize, fed: &mut [bool])
    ensures each { length fed.new ≡ length fed.old }
    ensures value { (b : ℕ) → b < length fed.old → is_named fed.new b
        ≡ (is_named fed.old b || nat_eq rule b) }
{
    if rule < fed.len() {
        fed[rule] = true;
    }
}

/// The numbers of the rules that are named, in order.
fn numbers_of(alloc: Global, fed: &[bool]) -> Result<Vec<usize>, NoMemory>
    ensures { IfOk result (λ numbers. numbers.items
        ≡ filter (λ b. is_named fed.now b) (numbers_below (length fed.now))) }
{
    let mut numbers = Vec::new(alloc);
    for rule in 0..fed.len() {
        push_if(&mut numbers, rule, fed[rule])?;
    }
    Ok(numbers)
}

/// Appends the rule, if so.
fn push_if(numbers: &mut Vec<usize>, rule: usize, so: bool) -> Result<(), NoMemory>
    ensures { OnOk result (numbers.new.items ≡ numbers.old.items ++ cond so (rule ∷ []) []) }
{
    if !so {
        return Ok(());
    }
    numbers.push(rule)?;
    Ok(())
}
