//! When something is completed by its completion rule.
ghost use Rattle.std.specs.Prelude.{◌≡◌, ◌+◌, ◌+ℤ◌, ◌++◌, ◌∷◌, [], ◌≤◌, int_le, length, pos, option_copied, option_map, true};
ghost use Rattle.std.specs.List.{list_all};
ghost use Rattle.ld_model.specs.declared.cell.CellName.TheVariants.{Now};
ghost use Rattle.ld_expr.specs.Done.{is_done};
ghost use Rattle.ld_expr.specs.Looks.{done_looks};
ghost use Rattle.ld_expr.specs.Lookup.{is_some_and, list_from};
ghost use Rattle.ld_expr.specs.Seen.{moment_of_value, says_yes};
ghost use Rattle.ld_rules.specs.SiteLooks.{all_done_looks, cell_list, completion_looks, completion_looks_if};
ghost use Rattle.ld_rules.specs.SiteTests.{completion_holds, has_passed, rule_holds};
ghost use Rattle.ld_rules.specs.SiteView.{completing_of, shown_in};

use ld_base::{Id, Steps};
use ld_expr::{Scope, says_yes};
use ld_model::{CellName, Completion, Owner, View};
use ld_value::{Moment, Value};
use std::sync::ledger::Ledger;

/// For whom something is to be completed, the cells that say whether it was chosen and when it
/// began, and which act is the last in it: what its completion rule speaks of. (docs/MEANING.md,
/// "Rules and sites")
#[derive(Clone, Copy)]
pub struct Completing<'a> {
    pub owner: Owner,
    pub chosen: Option<CellName>,
    pub start: Option<CellName>,
    pub last_act: Option<&'a Id>,
}

/// Whether there is a completion rule, and it holds.
pub(crate) fn rule_holds<V: View, L: Ledger>(
    scope: &Scope<'_, V>,
    about: Completing<'_>,
    completion: &Option<Completion>,
    steps: &mut Steps<L>,
) -> bool
    ensures value { result ≡ rule_holds scope.now.unit.now (V.seen scope.now.view.now)
        (completing_of about.entry) completion.now }
    ensures cost { steps.new ≤ steps.old + length (completion_looks_if scope.now.unit.now
        (V.seen scope.now.view.now) (completing_of about.entry) completion.now) }
{
    match completion {
        Some(completion) => completion_holds(scope, about, completion, steps),
        None => false,
    }
}

/// Whether the completion rule holds. (docs/MEANING.md, "Rules and sites")
pub(crate) fn completion_holds<V: View, L: Ledger>(
    scope: &Scope<'_, V>,
    about: Completing<'_>,
    completion: &Completion,
    steps: &mut Steps<L>,
) -> bool
    ensures value { result ≡ completion_holds scope.now.unit.now (V.seen scope.now.view.now)
        (completing_of about.entry) completion.now }
    ensures cost { steps.new ≤ steps.old + length (completion_looks scope.now.unit.now
        (V.seen scope.now.view.now) (completing_of about.entry) completion.now) }
{
    match completion {
        Completion::UserChoice => is_chosen(scope.view, about.chosen, steps),
        Completion::TimeLimit(seconds) => has_passed(scope.view, *seconds, about.start, steps),
        Completion::WhenPropertyValueIsSet(property, text) => {
            scope.has_value(about.owner, property, text, steps)
        }
        Completion::WhenRolePartCompleted(parts) => { are_done(scope, parts.as_slice(), steps) }
        Completion::WhenConditionTrue(role, test) => { scope.holds_for_users(role, test, steps) }
        Completion::WhenLastActCompleted => is_act_done(scope, about.last_act, steps),
        Completion::WhenPlayCompleted(plays) => { are_done(scope, plays.as_slice(), steps) }
    }
}

/// Whether the cell that says so, if there is one, says yes.
fn is_chosen<V: View, L: Ledger>(view: &V, cell: Option<CellName>, steps: &mut Steps<L>) -> bool
    ensures value { result ≡ is_some_and (λ cell. says_yes ((V.seen view.now).value cell)) cell }
    ensures cost { steps.new ≤ steps.old + length (cell_list cell) }
{
    match cell {
        Some(cell) => says_yes(view, cell, steps),
        None => false,
    }
}

/// Whether it is this many seconds after the moment that the cell shows, or later.
fn has_passed<V: View, L: Ledger>(
    view: &V,
    seconds: u64,
    start: Option<CellName>,
    steps: &mut Steps<L>,
) -> bool
    ensures value { result ≡ has_passed (V.seen view.now)
        seconds (shown_in ((V.seen view.now).value) start) }
    ensures cost { steps.new ≤ steps.old + length (cell_list start ++ Now ∷ []) }
{
    let Some(cell) = start else {
        return false;
    };
    let Some(begun) = moment_in(view, cell, steps) else {
        return false;
    };
    let Some(now) = moment_in(view, CellName::Now, steps) else {
        return false;
    };
    is_over(begun, seconds, now)
}

/// Whether it is now this many seconds after the moment, or later.
fn is_over(begun: Moment, seconds: u64, now: Moment) -> bool
    ensures { result ≡ int_le (begun.0 +ℤ pos seconds) now.0 }
{
    match begun.0.checked_add_unsigned(seconds) {
        Some(end) => end <= now.0,
        None => false,
    }
}

/// The moment that the cell shows, if it shows one.
fn moment_in<V: View, L: Ledger>(view: &V, cell: CellName, steps: &mut Steps<L>) -> Option<Moment>
    ensures value { option_map (λ moment. moment.0) result
        ≡ moment_of_value ((V.seen view.now).value cell) }
    ensures cost { steps.new ≡ steps.old + 1 }
{
    match view.get(cell, steps) {
        Some(Value::Moment(moment)) => Some(*moment),
        _ => None,
    }
}

/// Whether all that the identifiers name is done for the run.
fn are_done<V: View, L: Ledger>(scope: &Scope<'_, V>, ids: &[Id], steps: &mut Steps<L>) -> bool
    ensures value { result ≡ list_all (is_done scope.now.unit.now
        (V.seen scope.now.view.now) Owner.Run) ids.now }
    ensures cost { steps.new ≤ steps.old + length (all_done_looks scope.now.unit.now
        (V.seen scope.now.view.now) Owner.Run ids.now) }
{
    for id in ids {
        if !scope.is_done(Owner::Run, id, steps) {
            return false;
        }
    }
    true
}

/// Whether the act, if there is one, is done.
fn is_act_done<V: View, L: Ledger>(
    scope: &Scope<'_, V>,
    act: Option<&Id>,
    steps: &mut Steps<L>,
) -> bool
    ensures value { result ≡ is_some_and (is_done scope.now.unit.now
        (V.seen scope.now.view.now) Owner.Run) (option_copied act.entry) }
    ensures cost { steps.new ≤ steps.old + length (list_from (done_looks scope.now.unit.now
        (V.seen scope.now.view.now) Owner.Run) (option_copied act.entry)) }
{
    match act {
        Some(act) => scope.is_done(Owner::Run, act, steps),
        None => false,
    }
}
