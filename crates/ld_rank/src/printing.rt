//! A report as lines.
ghost use Rattle.std.specs.Prelude.{◌≡◌, ◌++◌, ◌+◌, ◌<◌, ◌≤◌, ◌^◌, List, ℕ, codes, decimal, length, map, option_copied, slice_get, Some, IfOk, IsOk, OnOk, OnErr};
ghost use Rattle.std.specs.List.{flat_map};
ghost use Rattle.ld_base.specs.Numbers.{numbers_below};
ghost use Rattle.ld_base.specs.Roomy.{KeepsRoom};
ghost use Rattle.ld_expr.specs.Lookup.{list_from};
ghost use Rattle.ld_names.specs.Rules.{rules_of};
ghost use Rattle.ld_rank.specs.Printed.{IsReportText, answer_word, kind_word, loop_head, printed_report, rank_line, ranking_head, rule_id, rule_name, thing_word};
ghost use Rattle.ld_rank.specs.Ranking.{depth_of, rank_at};

use crate::ranking::rank_at;
use crate::ranks::rank;
use crate::report::Report;
use itoa::Buffer;
use ld_base::{Id, NoMemory, RuleNo, Text};
use ld_model::Unit;
use ld_names::Rule;
use ld_rules::{PreparedUnit, act_at};
use std::alloc::Global;

/// Appends the name of the rule, as `part rp` or `condition 2`. The only error is out of memory,
/// which leaves the text as it was. (docs/RANKS.md, "What is printed")
pub fn rule_name(unit: &PreparedUnit, rule: RuleNo, out: &mut Text) -> Result<(), NoMemory>
    ensures ok { OnOk result (out.new.bytes ≡ out.old.bytes ++ rule_name unit.now rule.0) }
    ensures err { OnErr result (out.new.bytes ≡ out.old.bytes) }
{
    push_name_at(unit, rule.0 as usize, out)
}

/// The same of the rule of this number.
fn push_name_at(unit: &PreparedUnit, rule: usize, out: &mut Text) -> Result<(), NoMemory>
    ensures ok { OnOk result (out.new.bytes ≡ out.old.bytes ++ rule_name unit.now rule) }
    ensures err { OnErr result (out.new.bytes ≡ out.old.bytes) }
{
    match unit.rules().get(rule) {
        Some(found) => push_name(unit.unit(), *found, out),
        None => Ok(()),
    }
}

/// The same of a rule of the unit.
fn push_name(unit: &Unit, rule: Rule, out: &mut Text) -> Result<(), NoMemory>
    ensures ok { OnOk result (out.new.bytes
        ≡ out.old.bytes ++ (kind_word rule ++ thing_word unit.now rule)) }
    ensures err { OnErr result (out.new.bytes ≡ out.old.bytes) }
{
    match rule {
        Rule::JudgesCondition(condition) => {
            let number = u64::from(condition) + 1;
            push_both(kind_word(rule), Buffer::new().format(number), out)
        }
        _ => match rule_id(unit, rule) {
            Some(id) => push_both(kind_word(rule), id.as_str(), out),
            None => out.push(kind_word(rule)),
        },
    }
}

/// Appends both. The only error is out of memory, which leaves the text as it was.
fn push_both(first: &str, second: &str, out: &mut Text) -> Result<(), NoMemory>
    ensures ok { OnOk result (out.new.bytes ≡ out.old.bytes ++ (first.now ++ second.now)) }
    ensures err { OnErr result (out.new.bytes ≡ out.old.bytes) }
{
    let Some(room) = first.len().checked_add(second.len()) else {
        return Err(NoMemory);
    };
    out.reserve(room)?;
    out.push(first)?;
    out.push(second)
}

/// What kind of thing the rule is of.
fn kind_word(rule: Rule) -> &'static str
    ensures { result.now ≡ kind_word rule }
{
    match rule {
        Rule::CompletesActivity(_) => "activity ",
        Rule::CompletesStructure(_) => "structure ",
        Rule::OpensAct(_, _) => "opening ",
        Rule::CompletesPart(_, _, _) => "part ",
        Rule::CompletesAct(_, _) => "act ",
        Rule::CompletesPlay(_) => "play ",
        Rule::CompletesUnit => "unit ",
        Rule::JudgesCondition(_) => "condition ",
    }
}

/// The identifier of the rule's thing; a condition has none.
fn rule_id(unit: &Unit, rule: Rule) -> Option<&Id>
    ensures { option_copied result ≡ rule_id unit.now rule }
{
    match rule {
        Rule::CompletesActivity(activity) => {
            Some(&unit.activities.get(activity as usize)?.identifier)
        }
        Rule::CompletesStructure(structure) => {
            Some(&unit.structures.get(structure as usize)?.identifier)
        }
        Rule::OpensAct(play, act) | Rule::CompletesAct(play, act) => {
            Some(&act_at(unit, play as usize, act as usize)?.identifier)
        }
        Rule::CompletesPart(play, act, part) => {
            let act = act_at(unit, play as usize, act as usize)?;
            Some(&act.role_parts.get(part as usize)?.identifier)
        }
        Rule::CompletesPlay(play) => Some(&unit.method.plays.get(play as usize)?.identifier),
        Rule::CompletesUnit => Some(&unit.identifier),
        Rule::JudgesCondition(_) => None,
    }
}

/// Appends the lines of the report: of a ranking a head and a line for each rule, of a loop a head
/// and the names of its rules. The only error is out of memory; the text may then have a beginning
/// of them. (docs/RANKS.md, "What is printed")
pub fn print_report(unit: &PreparedUnit, report: &Report, out: &mut Text) -> Result<(), NoMemory>
    ensures { OnOk result (out.new.bytes ≡ out.old.bytes ++ printed_report unit.now report.now) }
{
    match report {
        Report::Ranked(ranks) => print_ranking(unit, ranks.as_slice(), out),
        Report::Loop(rules) => print_loop(unit, rules.as_slice(), out),
    }
}

/// What is printed of the unit: the ranks of its rules, or their first loop. The only error is out
/// of memory. (docs/RANKS.md, "What is printed")
pub fn report_text(alloc: Global, unit: &PreparedUnit) -> Result<Text, NoMemory>
    ensures { IfOk result (λ text. IsReportText unit.now text.bytes) }
{
    let report = rank(alloc, unit)?;
    let mut text = Text::new(alloc);
    print_report(unit, &report, &mut text)?;
    Ok(text)
}

/// Appends the lines of a ranking.
fn print_ranking(unit: &PreparedUnit, ranks: &[u32], out: &mut Text) -> Result<(), NoMemory>
    ensures { OnOk result (out.new.bytes ≡ out.old.bytes ++ (ranking_head unit.now ranks.now
        ++ flat_map (rank_line unit.now ranks.now) (numbers_below (length ranks.now)))) }
{
    push_ranking_head(unit.unit(), ranks, out)?;
    for rule in 0..ranks.len() {
        push_rank_line(unit, ranks, rule, out)?;
    }
    Ok(())
}

/// Appends the line of the rule with its rank.
fn push_rank_line(
    unit: &PreparedUnit,
    ranks: &[u32],
    rule: usize,
    out: &mut Text,
) -> Result<(), NoMemory>
    ensures { OnOk result (out.new.bytes
        ≡ out.old.bytes ++ rank_line unit.now ranks.now rule) }
{
    let rank = u64::from(rank_at(ranks, rule));
    push_both(Buffer::new().format(rank), " ", out)?;
    push_name_at(unit, rule, out)?;
    out.push("\n")
}

/// Appends the first line of a ranking.
fn push_ranking_head(unit: &Unit, ranks: &[u32], out: &mut Text) -> Result<(), NoMemory>
    ensures { OnOk result (out.new.bytes ≡ out.old.bytes ++ ranking_head unit.now ranks.now) }
{
    let depth = depth_of(ranks);
    push_both("ranked ", unit.identifier.as_str(), out)?;
    push_both(" rules=", Buffer::new().format(ranks.len() as u64), out)?;
    push_both(" depth=", Buffer::new().format(u64::from(depth)), out)?;
    push_both(" turns=", Buffer::new().format(u64::from(unit.turns)), out)?;
    out.push(answer_word(depth, unit.turns))
}

/// Whether no number is above the turns.
fn answer_word(depth: u32, turns: u32) -> &'static str
    ensures { result.now ≡ answer_word depth turns }
{
    if turns < depth {
        return " open\n";
    }
    " never-30\n"
}

/// The greatest number.
fn depth_of(ranks: &[u32]) -> u32
    ensures { result ≡ depth_of ranks.now }
{
    let mut depth = 0;
    for rank in ranks {
        depth = depth.max(*rank);
    }
    depth
}

/// Appends the lines of a loop.
fn print_loop(unit: &PreparedUnit, rules: &[RuleNo], out: &mut Text) -> Result<(), NoMemory>
    ensures { OnOk result (out.new.bytes
        ≡ out.old.bytes ++ (loop_head unit.now (length rules.now)
        ++ flat_map (λ rule. rule_name unit.now rule.0 ++ codes "\n") rules.now)) }
{
    push_loop_head(unit.unit(), rules.len(), out)?;
    for rule in rules {
        rule_name(unit, *rule, out)?;
        out.push("\n")?;
    }
    Ok(())
}

/// Appends the first line of a loop of this many rules.
fn push_loop_head(unit: &Unit, length: usize, out: &mut Text) -> Result<(), NoMemory>
    ensures { OnOk result (out.new.bytes ≡ out.old.bytes ++ loop_head unit.now length) }
{
    push_both("loop ", unit.identifier.as_str(), out)?;
    push_both(" length=", Buffer::new().format(length as u64), out)?;
    out.push("\n")
}
