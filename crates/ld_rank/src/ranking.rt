//! Whether numbers are a ranking of a unit's rules.
ghost use Rattle.std.specs.Prelude.{◌≡◌, ◌↔◌, ◌<◌, true, length};
ghost use Rattle.std.specs.List.{list_all};
ghost use Rattle.ld_base.specs.Numbers.{numbers_below};
ghost use Rattle.ld_names.specs.Rules.{rules_of};
ghost use Rattle.ld_rank.specs.Ranking.{IsRanking, is_rising, rank_at, rises_from};

use crate::feeding::feeds;
use crate::report::RankList;
use ld_rules::PreparedUnit;

/// Whether the list has one number for each rule of the unit, from 1 on, such that whatever a rule
/// feeds has a greater one. It takes no memory.
pub fn is_ranking(unit: &PreparedUnit, ranks: &RankList) -> bool
    ensures { (result ≡ true) ↔ IsRanking unit.now ranks.now }
{
    let ranks = ranks.as_slice();
    let count = unit.rules().len();
    if ranks.len() != count {
        return false;
    }
    for rule in 0..count {
        if !rises_from(unit, ranks, rule) {
            return false;
        }
    }
    true
}

/// Whether the rule has a number from 1 on, and what it feeds has a greater one.
fn rises_from(unit: &PreparedUnit, ranks: &[u32], rule: usize) -> bool
    ensures { result ≡ rises_from unit.now ranks.now rule }
{
    if rank_at(ranks, rule) == 0 {
        return false;
    }
    for fed in 0..unit.rules().len() {
        if !is_rising(unit, ranks, rule, fed) {
            return false;
        }
    }
    true
}

/// Whether, where the first rule feeds the second, its number is less.
fn is_rising(unit: &PreparedUnit, ranks: &[u32], a: usize, b: usize) -> bool
    ensures { result ≡ is_rising unit.now ranks.now a b }
{
    if rank_at(ranks, a) < rank_at(ranks, b) {
        return true;
    }
    !feeds(unit, a, b)
}

/// The number of the rule; 0 where there is none.
pub(crate) fn rank_at(ranks: &[u32], rule: usize) -> u32
    ensures { result ≡ rank_at ranks.now rule }
{
    ranks.get(rule).copied().unwrap_or(0)
}
