//! Whether one rule feeds another.
ghost use Rattle.std.specs.Prelude.{◌≡◌, ◌&&◌, ◌<◌, Some, nat_eq, slice_get};
ghost use Rattle.std.specs.List.{list_any};
ghost use Rattle.ld_model.specs.Cells.{same_cell};
ghost use Rattle.ld_names.specs.Rules.{rules_of};
ghost use Rattle.ld_rules.specs.SiteTests.{says_for_good, site_mark};
ghost use Rattle.ld_rank.specs.Alone.{feeds_between, feeds_by, looks_alone, site_alone};
ghost use Rattle.ld_rank.specs.Feeding.{mark_counts};

use crate::finding::{looks_at, looks_at_writes};
use ld_base::{PersonNo, RuleNo};
use ld_model::{CellName, Owner};
use ld_names::{Rule, RuleKind};
use ld_rules::{PreparedUnit, says_for_good};

/// Whether the rule of the first number feeds that of the second. It takes no memory.
pub fn feeds(unit: &PreparedUnit, a: usize, b: usize) -> bool
    ensures { result ≡ feeds_between unit.now a b }
{
    let rules = unit.rules();
    let Some(first) = rules.get(a) else {
        return false;
    };
    let Some(second) = rules.get(b) else {
        return false;
    };
    rule_feeds(unit, a, b, *first, *second)
}

/// The same, where these are the rules.
fn rule_feeds(unit: &PreparedUnit, a: usize, b: usize, first: Rule, second: Rule) -> bool
    requires at { slice_get (rules_of unit.now) a ≡ Some first }
    requires few { a < 600 }
    ensures { result ≡ feeds_by unit.now a b first second }
{
    if feeds_by_mark(unit, a, b, first, second) {
        return true;
    }
    looks_at_writes(unit, first, second)
}

/// Whether the mark of the first rule counts, and the second rule looks at it.
fn feeds_by_mark(unit: &PreparedUnit, a: usize, b: usize, first: Rule, second: Rule) -> bool
    requires at { slice_get (rules_of unit.now) a ≡ Some first }
    requires few { a < 600 }
    ensures { result ≡ (mark_counts unit.now a b && list_any
        (same_cell (site_mark (site_alone a first))) (looks_alone unit.now second)) }
{
    if is_own_for_good(a, b, first) {
        return false;
    }
    looks_at(unit, second, mark_alone(a, first))
}

/// Whether the two are one rule, which says yes for good.
fn is_own_for_good(a: usize, b: usize, first: Rule) -> bool
    ensures { result ≡ (nat_eq a b && says_for_good first) }
{
    if a != b {
        return false;
    }
    says_for_good(first)
}

/// The mark of the rule of this number in a run of one person.
pub(crate) fn mark_alone(number: usize, rule: Rule) -> CellName
    requires { number < 600 }
    ensures { result ≡ site_mark (site_alone number rule) }
{
    let owner = match rule.kind() {
        RuleKind::Person => Owner::Person(PersonNo(0)),
        RuleKind::Run => Owner::Run,
    };
    CellName::Mark(RuleNo(number as u32), owner)
}
