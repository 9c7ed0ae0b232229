//! The alarm of a site.
ghost use Rattle.std.specs.Prelude.{◌≡◌, ◌+◌, ◌*◌, ◌≤◌, length, not, option_map, Some};
ghost use Rattle.ld_model.specs.declared.cell.CellName.TheVariants.{Now};
ghost use Rattle.ld_value.specs.Datum.{moment_datum, same_truth};
ghost use Rattle.ld_expr.specs.Lookup.{is_some_and};
ghost use Rattle.ld_refs.specs.Checks.{IsValid};
ghost use Rattle.ld_rules.specs.SiteLooks.{open_looks};
ghost use Rattle.ld_rules.specs.SiteTests.{is_latched, rule_of, site_test};
ghost use Rattle.ld_rules.specs.SiteView.{site_of};
ghost use Rattle.ld_alarm.specs.Alarm.{alarm_steps, differs_at, first_after, site_alarm};
ghost use Rattle.ld_alarm.specs.Later.{next_after};
ghost use Rattle.ld_alarm.specs.SeenAt.{seen_at};
ghost use Rattle.ld_alarm.specs.Switches.{site_switches};

use crate::at_moment::AtMoment;
use crate::rule_switches::{moment_in, next_of_rule};
use ld_base::Steps;
use ld_expr::says_yes;
use ld_model::{CellName, View};
use ld_rules::judge::judge;
use ld_rules::{PreparedUnit, Site, says_for_good};
use ld_value::{Moment, Value};
use std::alloc::Global;
use std::sync::ledger::Ledger;

/// The first moment after `Now`, up to 9999-12-31T23:59:59Z, at which the site's test differs from
/// what it is, where `Now` alone is put to that moment; None exactly where there is none. Where the
/// rule asks to look at n cells, it takes at most (2n + 2)(n + 1) steps, as it asks only where a
/// comparison or a limit can switch. It never fails for want of memory. (docs/MEANING.md, "The next
/// alarm")
pub fn alarm<V: View, L: Ledger>(
    alloc: Global,
    unit: &PreparedUnit,
    site: Site,
    view: &V,
    steps: &mut Steps<L>,
) -> Option<Moment>
    ensures value { option_map (λ moment. moment.0) result
        ≡ site_alarm unit.now (V.seen view.now) (site_of site) }
    ensures cost { steps.new ≤ steps.old
        + alarm_steps (length (open_looks unit.now (V.seen view.now) (site_of site))) }
{
    if is_latched(unit, site, view, steps) {
        return None;
    }
    let now = moment_in(view, CellName::Now, steps)?;
    watch(alloc, unit, site, view, now, steps)
}

/// Whether the site's rule has said yes before, and for good.
fn is_latched<V: View, L: Ledger>(
    unit: &PreparedUnit,
    site: Site,
    view: &V,
    steps: &mut Steps<L>,
) -> bool
    ensures value { result ≡ is_some_and (is_latched (V.seen view.now) (site_of site))
        (rule_of unit.now (site_of site)) }
    ensures cost { steps.new ≤ steps.old + 1 }
{
    let Some(rule) = unit.rules().get(site.rule.0 as usize) else {
        return false;
    };
    if !says_for_good(*rule) {
        return false;
    }
    says_yes(view, CellName::Mark(site.rule, site.owner), steps)
}

/// The same of a site whose rule has not said yes for good, where `Now` has this moment. It goes
/// from switch to switch until the test differs.
fn watch<V: View, L: Ledger>(
    alloc: Global,
    unit: &PreparedUnit,
    site: Site,
    view: &V,
    now: Moment,
    steps: &mut Steps<L>,
) -> Option<Moment>
    requires clock { (V.seen view.now).value Now ≡ Some (moment_datum now.0) }
    ensures value { option_map (λ moment. moment.0) result
        ≡ first_after now.0 (differs_at unit.now (V.seen view.now) (site_of site)) }
    ensures cost { steps.new ≤ steps.old
        + 2 * (length (open_looks unit.now (V.seen view.now) (site_of site))
        * (length (open_looks unit.now (V.seen view.now) (site_of site)) + 1)) }
{
    valid(unit);
    let says = judge(unit, site, view, steps);
    let mut moment = now;
    'switches: loop {
        let Some(next) = next_of_site(alloc, unit, site, view, moment, steps) else {
            return None;
        };
        let then = judge_at(unit, site, view, next, steps);
        if differ(then, says) {
            return Some(next);
        }
        moment = next;
    }
}

/// A prepared unit is valid: in a comparison, the moment of the command stands by itself.
fn valid(unit: &PreparedUnit)
    ensures { IsValid unit.now }
{
    let _unit = unit.unit();
}

/// Whether one of the two says yes and the other no.
fn differ(a: bool, b: bool) -> bool
    ensures { result ≡ not (same_truth a b) }
{
    if a {
        return !b;
    }
    b
}

/// Whether the site's test holds where `Now` alone is put to the moment.
fn judge_at<V: View, L: Ledger>(
    unit: &PreparedUnit,
    site: Site,
    view: &V,
    moment: Moment,
    steps: &mut Steps<L>,
) -> bool
    ensures value { result
        ≡ site_test unit.now (seen_at (V.seen view.now) moment.0) (site_of site) }
    ensures cost { steps.new
        ≤ steps.old + length (open_looks unit.now (V.seen view.now) (site_of site)) }
{
    let later = AtMoment {
        view,
        now: Value::Moment(moment),
    };
    judge(unit, site, &later, steps)
}

/// The first switch of what the site's rule asks that comes after the moment; None exactly where
/// there is none.
fn next_of_site<V: View, L: Ledger>(
    alloc: Global,
    unit: &PreparedUnit,
    site: Site,
    view: &V,
    after: Moment,
    steps: &mut Steps<L>,
) -> Option<Moment>
    ensures value { option_map (λ moment. moment.0) result
        ≡ next_after after.0 (site_switches unit.now (V.seen view.now) (site_of site)) }
    ensures cost { 2 * steps.new + length (site_switches unit.now (V.seen view.now) (site_of site))
        ≤ 2 * steps.old + 2 * length (open_looks unit.now (V.seen view.now) (site_of site)) }
{
    let Some(rule) = unit.rules().get(site.rule.0 as usize) else {
        return None;
    };
    next_of_rule(alloc, &unit.scope(view), *rule, site.owner, after, steps)
}
