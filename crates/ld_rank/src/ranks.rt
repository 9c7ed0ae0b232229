//! A ranking of a unit's rules, or the first loop of rules that feed each other.
ghost use Rattle.std.specs.Prelude.{◌≡◌, ◌<◌, ◌^◌, All, map, IfOk};
ghost use Rattle.ld_rank.specs.Reports.{IsReportOf};

use crate::edges::edges_of;
use crate::report::{RankList, Report, RuleLoop};
use ld_base::{Items, NoMemory, RuleNo};
use ld_cycles::first_on_cycle;
use ld_layers::{first_loop, layers_of};
use ld_rules::PreparedUnit;
use std::alloc::Global;

/// The ranking of the unit's rules, where there is one, in which each rule has the least number
/// that it may have; else the first loop of rules. Of two conditions of which each changes what the
/// other looks at, they are the loop. The only error is out of memory. (docs/RANKS.md)
pub fn rank(alloc: Global, unit: &PreparedUnit) -> Result<Report, NoMemory>
    ensures { IfOk result (IsReportOf unit.now) }
{
    // Of a unit that is known to be valid.
    let _ = unit.unit();
    let edges = edges_of(alloc, unit)?;
    match first_on_cycle(alloc, &edges)? {
        Some(start) => {
            let nodes = first_loop(alloc, &edges, start)?;
            let rules = rules_from(alloc, &nodes)?;
            Ok(Report::Loop(rules))
        }
        None => {
            let layers = layers_of(alloc, &edges)?;
            let ranks = ranks_from(alloc, &layers)?;
            Ok(Report::Ranked(ranks))
        }
    }
}

/// The layers as numbers of rules.
fn ranks_from(alloc: Global, layers: &[usize]) -> Result<RankList, NoMemory>
    requires { All (λ layer. layer < 2 ^ 32) layers.now }
    ensures { IfOk result (λ ranks. ranks ≡ layers.now) }
{
    let mut ranks = Items::new(alloc);
    for layer in layers {
        ranks.push(*layer as u32)?;
    }
    Ok(ranks)
}

/// The nodes as rules.
fn rules_from(alloc: Global, nodes: &[usize]) -> Result<RuleLoop, NoMemory>
    requires { All (λ node. node < 2 ^ 32) nodes.now }
    ensures { IfOk result (λ rules. map (λ rule. rule.0) rules ≡ nodes.now) }
{
    let mut rules = Items::new(alloc);
    for node in nodes {
        rules.push(RuleNo(*node as u32))?;
    }
    Ok(rules)
}
