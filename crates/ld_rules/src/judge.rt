//! Whether the test of a site holds.
#![tactic(auto, unfolding(crate::specs::SiteLooks::site_looks, crate::specs::SiteTests::site_test))]

ghost use Rattle.std.specs.Prelude.{◌≡◌, ◌+◌, ◌≤◌, ◌||◌, length, true};
ghost use Rattle.ld_names.specs.Identifiers.{HasDistinctIdentifiers};
ghost use Rattle.ld_rules.specs.ReachTable.{reach_of};
ghost use Rattle.ld_rules.specs.SiteLooks.{looks_by, open_looks, rule_looks, site_looks};
ghost use Rattle.ld_rules.specs.SiteTests.{is_latched, rule_test, says_for_good, site_test};
ghost use Rattle.ld_rules.specs.SiteView.{site_of};

use crate::method_rules::judge_for_run;
use crate::person_rules::judge_for_person;
use crate::prepared::PreparedUnit;
use crate::reach::Reach;
use crate::site::Site;
use ld_base::Steps;
use ld_expr::{Scope, says_yes};
use ld_model::{CellName, Owner, View};
use ld_names::Rule;
use std::sync::ledger::Ledger;

/// Whether the site's test holds in what the view shows: what its rule asks of the run or the
/// person, or has once said yes to for good. It takes no memory, and at most a step for each cell
/// at which the rule asks to look. (docs/MEANING.md, "Rules and sites")
pub fn judge<V: View, L: Ledger>(
    unit: &PreparedUnit,
    site: Site,
    view: &V,
    steps: &mut Steps<L>,
) -> bool
    ensures value { result ≡ site_test unit.now (V.seen view.now) (site_of site) }
    ensures cost { steps.new
        ≤ steps.old + length (open_looks unit.now (V.seen view.now) (site_of site)) }
{
    let Some(rule) = unit.rules().get(site.rule.0 as usize) else {
        return false;
    };
    judge_by(&unit.scope(view), unit.reach(), site, *rule, steps)
}

/// Whether the site's test holds, whose rule this is.
fn judge_by<V: View, L: Ledger>(
    scope: &Scope<'_, V>,
    reach: &Reach,
    site: Site,
    rule: Rule,
    steps: &mut Steps<L>,
) -> bool
    requires distinct { HasDistinctIdentifiers scope.now.unit.now }
    requires reach { reach.now ≡ reach_of scope.now.unit.now }
    ensures value { result ≡ is_latched (V.seen scope.now.view.now) (site_of site) rule
        || rule_test scope.now.unit.now (V.seen scope.now.view.now) site.owner rule }
    ensures cost { steps.new ≤ steps.old + length (looks_by scope.now.unit.now
        (V.seen scope.now.view.now) (site_of site) rule) }
{
    if !says_for_good(rule) {
        return judge_rule(scope, reach, rule, site.owner, steps);
    }
    if says_yes(scope.view, CellName::Mark(site.rule, site.owner), steps) {
        return true;
    }
    judge_rule(scope, reach, rule, site.owner, steps)
}

/// Whether what the rule says yes to stays so: all but a condition's does. It takes no memory.
pub fn says_for_good(rule: Rule) -> bool
    ensures { result ≡ says_for_good rule }
{
    match rule {
        Rule::CompletesActivity(_)
        | Rule::CompletesStructure(_)
        | Rule::OpensAct(_, _)
        | Rule::CompletesPart(_, _, _)
        | Rule::CompletesAct(_, _)
        | Rule::CompletesPlay(_)
        | Rule::CompletesUnit => true,
        Rule::JudgesCondition(_) => false,
    }
}

/// What the rule asks of the run or the person.
fn judge_rule<V: View, L: Ledger>(
    scope: &Scope<'_, V>,
    reach: &Reach,
    rule: Rule,
    owner: Owner,
    steps: &mut Steps<L>,
) -> bool
    requires distinct { HasDistinctIdentifiers scope.now.unit.now }
    requires reach { reach.now ≡ reach_of scope.now.unit.now }
    ensures value { result ≡ rule_test scope.now.unit.now (V.seen scope.now.view.now) owner rule }
    ensures cost { steps.new ≤ steps.old + length (rule_looks scope.now.unit.now
        (V.seen scope.now.view.now) owner rule) }
{
    match owner {
        Owner::Run => judge_for_run(scope, rule, steps),
        Owner::Person(person) => judge_for_person(scope, reach, rule, person, steps),
    }
}
