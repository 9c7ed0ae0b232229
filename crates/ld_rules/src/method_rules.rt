//! What the rules for the run ask: of acts, role-parts, plays and the unit.
#![tactic(auto, using(crate::proofs::Last::last_is))]

ghost use Rattle.std.specs.Prelude.{◌≡◌, ◌+◌, ◌≤◌, is_some, length, None, option_copied, option_map};
ghost use Rattle.std.specs.List.{last_or};
ghost use Rattle.ld_names.specs.Names.{names_of};
ghost use Rattle.ld_refs.specs.Extents.{act_at};
ghost use Rattle.ld_expr.specs.Lookup.{environment_named};
ghost use Rattle.ld_rules.specs.SiteLooks.{site_act_looks, cell_list, completion_looks_if, opening_looks, site_part_looks, run_looks};
ghost use Rattle.ld_rules.specs.SiteTests.{act_test, is_opened, opening_cell, opening_test, part_test, play_completing, play_test, run_test, unit_completing, unit_test};
ghost use Rattle.ld_rules.specs.SiteView.{completing_of};

use crate::completion::{Completing, rule_holds};
use crate::members::{did_all, has_member};
use crate::place::place_named;
use ld_base::{Id, Steps};
use ld_expr::{Scope, thing_number};
use ld_model::{Act, CellName, Owner, Play, RolePart, Unit, View};
use ld_names::{Names, Rule};
use ld_walk::Place;
use std::sync::ledger::Ledger;

/// What the rule asks of the run; of a rule for persons, nothing holds. (docs/MEANING.md, "Rules
/// and sites")
pub(crate) fn judge_for_run<V: View, L: Ledger>(
    scope: &Scope<'_, V>,
    rule: Rule,
    steps: &mut Steps<L>,
) -> bool
    ensures value { result ≡ run_test scope.now.unit.now (V.seen scope.now.view.now) rule }
    ensures cost { steps.new ≤ steps.old + length (run_looks scope.now.unit.now
        (V.seen scope.now.view.now) rule) }
{
    match rule {
        Rule::OpensAct(play, act) => { judge_opening(scope, play as usize, act as usize, steps) }
        Rule::CompletesPart(play, act, part) => {
            let Some(act) = act_at(scope.unit, play as usize, act as usize) else {
                return false;
            };
            match act.role_parts.get(part as usize) {
                Some(part) => judge_part(scope, act, part, steps),
                None => false,
            }
        }
        Rule::CompletesAct(play, act) => match act_at(scope.unit, play as usize, act as usize) {
            Some(act) => judge_act(scope, act, steps),
            None => false,
        },
        Rule::CompletesPlay(play) => match scope.unit.method.plays.get(play as usize) {
            Some(play) => judge_play(scope, play, steps),
            None => false,
        },
        Rule::CompletesUnit => judge_unit(scope, steps),
        Rule::CompletesActivity(_) | Rule::CompletesStructure(_) | Rule::JudgesCondition(_) => {
            false
        }
    }
}

/// Whether the act is the first of its play, or the one before it is done.
fn judge_opening<V: View, L: Ledger>(
    scope: &Scope<'_, V>,
    play: usize,
    act: usize,
    steps: &mut Steps<L>,
) -> bool
    ensures value { result ≡ opening_test scope.now.unit.now (V.seen scope.now.view.now) play act }
    ensures cost { steps.new ≤ steps.old + length (opening_looks scope.now.unit.now
        (V.seen scope.now.view.now) play act) }
{
    if act == 0 {
        return true;
    }
    match act_at(scope.unit, play, act - 1) {
        Some(before) => scope.is_done(Owner::Run, &before.identifier, steps),
        None => false,
    }
}

/// Whether the act is opened, the role has a member, and what the role-part refers to is done for
/// each member. Of an environment there is nothing to do.
fn judge_part<V: View, L: Ledger>(
    scope: &Scope<'_, V>,
    act: &Act,
    part: &RolePart,
    steps: &mut Steps<L>,
) -> bool
    ensures value { result ≡ part_test scope.now.unit.now
        (V.seen scope.now.view.now) act.now part.now }
    ensures cost { steps.new ≤ steps.old + length (site_part_looks scope.now.unit.now
        (V.seen scope.now.view.now) act.now part.now) }
{
    if !is_opened(scope, act, steps) {
        return false;
    }
    if is_environment(scope.unit, scope.names, &part.target) {
        return has_member(scope, &part.role, steps);
    }
    did_all(scope, &part.role, &part.target, steps)
}

/// Whether the act is opened, and its completion rule holds.
fn judge_act<V: View, L: Ledger>(scope: &Scope<'_, V>, act: &Act, steps: &mut Steps<L>) -> bool
    ensures value { result ≡ act_test scope.now.unit.now (V.seen scope.now.view.now) act.now }
    ensures cost { steps.new ≤ steps.old + length (site_act_looks scope.now.unit.now
        (V.seen scope.now.view.now) act.now) }
{
    if !is_opened(scope, act, steps) {
        return false;
    }
    let about = Completing {
        owner: Owner::Run,
        chosen: None,
        start: opening_cell(scope.unit, scope.names, act),
        last_act: None,
    };
    rule_holds(scope, about, &act.complete, steps)
}

/// Whether the completion rule of the play holds.
fn judge_play<V: View, L: Ledger>(scope: &Scope<'_, V>, play: &Play, steps: &mut Steps<L>) -> bool
    ensures value { result ≡ play_test scope.now.unit.now (V.seen scope.now.view.now) play.now }
    ensures cost { steps.new ≤ steps.old + length (completion_looks_if scope.now.unit.now
        (V.seen scope.now.view.now) (play_completing play.now) play.now.complete) }
{
    let about = completing_play(play);
    rule_holds(scope, about, &play.complete, steps)
}

/// What the completion rule of the play speaks of: it begins when the run is started. It takes no
/// memory.
pub fn completing_play(play: &Play) -> Completing<'_>
    ensures { completing_of result ≡ play_completing play.now }
{
    Completing {
        owner: Owner::Run,
        chosen: None,
        start: Some(CellName::Started),
        last_act: last_act(play),
    }
}

/// The last act of the play.
fn last_act(play: &Play) -> Option<&Id>
    ensures { option_copied result
        ≡ option_map (λ act. act.identifier) (last_or None play.now.acts) }
{
    let act = play.acts.as_slice().last()?;
    Some(&act.identifier)
}

/// Whether the completion rule of the unit holds.
fn judge_unit<V: View, L: Ledger>(scope: &Scope<'_, V>, steps: &mut Steps<L>) -> bool
    ensures value { result ≡ unit_test scope.now.unit.now (V.seen scope.now.view.now) }
    ensures cost { steps.new ≤ steps.old + length (completion_looks_if scope.now.unit.now
        (V.seen scope.now.view.now) unit_completing scope.now.unit.now.method.complete) }
{
    let about = Completing {
        owner: Owner::Run,
        chosen: None,
        start: Some(CellName::Started),
        last_act: None,
    };
    rule_holds(scope, about, &scope.unit.method.complete, steps)
}

/// Whether the act is opened.
fn is_opened<V: View, L: Ledger>(scope: &Scope<'_, V>, act: &Act, steps: &mut Steps<L>) -> bool
    ensures value { result ≡ is_opened scope.now.unit.now (V.seen scope.now.view.now) act.now }
    ensures cost { steps.new ≤ steps.old + length (cell_list (opening_cell scope.now.unit.now act.now)) }
{
    match opening_cell(scope.unit, scope.names, act) {
        Some(cell) => scope.view.get(cell, steps).is_some(),
        None => false,
    }
}

/// The cell that says when the act was opened; None exactly where the act's identifier names no
/// thing. It takes no memory.
pub fn opening_cell(unit: &Unit, names: &Names, act: &Act) -> Option<CellName>
    requires { names.now ≡ names_of unit.now }
    ensures { result ≡ opening_cell unit.now act.now }
{
    let thing = thing_number(unit, names, &act.identifier)?;
    Some(CellName::ActOpened(thing))
}

/// The act of the play.
pub fn act_at(unit: &Unit, play: usize, act: usize) -> Option<&Act>
    ensures { option_copied result ≡ act_at unit.now play act }
{
    unit.method.plays.get(play)?.acts.get(act)
}

/// Whether the identifier names an environment. It takes no memory.
pub fn is_environment(unit: &Unit, names: &Names, id: &Id) -> bool
    requires { names.now ≡ names_of unit.now }
    ensures { result ≡ is_some (environment_named unit.now id.now) }
{
    match place_named(unit, names, id) {
        Some(Place::Environment(number)) => unit.environments.get(number as usize).is_some(),
        _ => false,
    }
}
