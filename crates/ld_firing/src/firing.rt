//! The firing of a site.
ghost use Rattle.std.specs.Prelude.{◌≡◌, ◌+◌, ◌≤◌, ◌++◌, length, fold, sum_by, Contains, IfOk, OnOk, Some, option_map};
ghost use Rattle.ld_base.specs.declared.fired.Fired.{Fired as Counts};
ghost use Rattle.ld_model.specs.declared.cell.CellName.TheVariants.{Now};
ghost use Rattle.ld_names.specs.Rules.{sites_of};
ghost use Rattle.ld_expr.specs.Seen.{mark_cell};
ghost use Rattle.ld_value.specs.Datum.{datum_of, truth_datum};
ghost use Rattle.ld_state.specs.RunState.{seen_in};
ghost use Rattle.ld_state.specs.StateView.{IsStateOf, run_of};
ghost use Rattle.ld_firing.specs.ActionCells.{HasSlots, actions_cells, firing_cells, opened_act_cells};
ghost use Rattle.ld_firing.specs.Actions.{actions_of, branch_of, do_action, opened_by, rule_effect, site_firing, with_opening, with_write};
ghost use Rattle.ld_firing.specs.Costs.{action_cost, site_cost};
ghost use Rattle.ld_firing.specs.Progress.{Does, progress_of};
ghost use Rattle.ld_firing.specs.RunSystem.{IsSoundRun, slots_named};
ghost use Rattle.ld_rules.specs.SiteTests.{site_test};
ghost use Rattle.ld_rules.specs.SiteView.{site_of};

use crate::actor::Actor;
use ld_base::{Fired, NoMemory, RuleNo, Steps, ThingNo};
use ld_expr::thing_number;
use ld_model::{Action, CellName, Condition, View};
use ld_names::Rule;
use ld_rules::{PreparedUnit, Site, act_at};
use ld_state::State;
use ld_value::Value;
use std::alloc::Global;
use std::sync::ledger::Ledger;

/// Fires the site: its mark becomes the verdict, which is what its test says, and what its rule
/// wants then follows. The slots of the cells that get another value are told, in order and with
/// repeats. After running out of memory the state is another one of the same persons, with the same
/// savepoint: it has to be rolled back. (docs/MEANING.md, "Firing, sweeping, settling")
pub fn fire<L: Ledger>(
    alloc: Global,
    unit: &PreparedUnit,
    site: Site,
    verdict: bool,
    state: &mut State,
    changed: &mut Vec<u32>,
    steps: &mut Steps<L>,
) -> Result<Fired, NoMemory>
    requires own { IsStateOf unit.now state.old }
    requires sound { IsSoundRun unit.now (run_of state.old) }
    requires there { Contains (sites_of unit.now (length state.old.rows)) (site_of site) }
    requires verdict { verdict
        ≡ site_test unit.now (seen_in unit.now (run_of state.old)) (site_of site) }
    ensures run { OnOk result (run_of state.new
        ≡ (site_firing unit.now (run_of state.old) (site_of site)).state) }
    ensures changed { OnOk result (changed.new.items ≡ changed.old.items
        ++ slots_named unit.now (run_of state.old)
        (site_firing unit.now (run_of state.old) (site_of site)).changes) }
    ensures rejected { IfOk result (λ fired. fired.rejected
        ≡ (site_firing unit.now (run_of state.old) (site_of site)).rejected) }
    ensures sent { IfOk result (λ fired. fired.sent
        ≡ (site_firing unit.now (run_of state.old) (site_of site)).sent) }
    ensures own { IsStateOf unit.now state.new }
    ensures rows { state.new.rows ≡ state.old.rows }
    ensures kept { state.new.kept ≡ state.old.kept }
    ensures cost { steps.new ≤ steps.old + site_cost unit.now (run_of state.old) (site_of site) }
{
    let Some(rule) = unit.rules().get(site.rule.0 as usize) else {
        unreachable!();
    };
    let actor = Actor {
        alloc,
        unit: unit.unit(),
        names: unit.names(),
        owner: site.owner,
    };
    actor.fire(*rule, site.rule, verdict, state, changed, steps)
}

impl<'a> Actor<'a> {
    /// Fires the rule of this number for the owner: its mark becomes the verdict, and what it wants
    /// then follows.
    fn fire<L: Ledger>(
        &self,
        rule: Rule,
        number: RuleNo,
        verdict: bool,
        state: &mut State,
        changed: &mut Vec<u32>,
        steps: &mut Steps<L>,
    ) -> Result<Fired, NoMemory>
        requires own { IsStateOf self.now.unit.now state.old }
        requires cells { HasSlots self.now.unit.now (length state.old.rows)
            (firing_cells self.now.unit.now (length state.old.rows) self.now.owner number.0 rule
            verdict) }
        ensures does { IfOk result (λ fired. Does self.now.unit.now
            (progress_of state.old changed.old.items (record { rejected = 0; sent = 0 }))
            (progress_of state.new changed.new.items fired)
            (λ doing. rule_effect self.now.unit.now self.now.owner rule verdict
            (with_write doing (mark_cell number.0 self.now.owner) (Some (truth_datum verdict))))) }
        ensures own { IsStateOf self.now.unit.now state.new }
        ensures rows { state.new.rows ≡ state.old.rows }
        ensures kept { state.new.kept ≡ state.old.kept }
        ensures cost { steps.new ≤ steps.old + (4 + sum_by (action_cost self.now.unit.now
            (run_of state.old) self.now.owner) (actions_of self.now.unit.now rule verdict)) }
    {
        let mut fired = Fired {
            rejected: 0,
            sent: 0,
        };
        let mark = CellName::Mark(number, self.owner);
        self.write(mark, Some(Value::Bool(verdict)), state, changed)?;
        self.open(rule, state, changed, steps)?;
        self.do_rule(rule, verdict, state, changed, &mut fired, steps)?;
        Ok(fired)
    }

    /// Opens the act that the rule opens, if it opens one.
    fn open<L: Ledger>(
        &self,
        rule: Rule,
        state: &mut State,
        changed: &mut Vec<u32>,
        steps: &mut Steps<L>,
    ) -> Result<(), NoMemory>
        requires own { IsStateOf self.now.unit.now state.old }
        requires cells { HasSlots self.now.unit.now (length state.old.rows)
            (opened_act_cells self.now.unit.now rule) }
        ensures does { (fired : Counts) → OnOk result (Does self.now.unit.now
            (progress_of state.old changed.old.items fired)
            (progress_of state.new changed.new.items fired)
            (λ doing. with_opening doing (opened_by self.now.unit.now rule))) }
        ensures own { IsStateOf self.now.unit.now state.new }
        ensures rows { state.new.rows ≡ state.old.rows }
        ensures kept { state.new.kept ≡ state.old.kept }
        ensures cost { steps.new ≤ steps.old + 1 }
    {
        let Some(thing) = self.opened_by(rule) else {
            return Ok(());
        };
        let now = self.now(state, steps)?;
        self.write(CellName::ActOpened(thing), now, state, changed)
    }

    /// The act that the rule opens, if it opens one.
    fn opened_by(&self, rule: Rule) -> Option<ThingNo>
        ensures { option_map (λ thing. thing.0) result ≡ opened_by self.now.unit.now rule }
    {
        let Rule::OpensAct(play, act) = rule else {
            return None;
        };
        let act = act_at(self.unit, play as usize, act as usize)?;
        thing_number(self.unit, self.names, &act.identifier)
    }

    /// Does what the rule wants, whose mark was set to the verdict.
    fn do_rule<L: Ledger>(
        &self,
        rule: Rule,
        verdict: bool,
        state: &mut State,
        changed: &mut Vec<u32>,
        fired: &mut Fired,
        steps: &mut Steps<L>,
    ) -> Result<(), NoMemory>
        requires own { IsStateOf self.now.unit.now state.old }
        requires cells { HasSlots self.now.unit.now (length state.old.rows)
            (actions_cells self.now.unit.now (length state.old.rows) self.now.owner
            (actions_of self.now.unit.now rule verdict)) }
        ensures does { OnOk result (Does self.now.unit.now
            (progress_of state.old changed.old.items fired.old)
            (progress_of state.new changed.new.items fired.new)
            (λ doing. fold (do_action self.now.unit.now self.now.owner) doing
            (actions_of self.now.unit.now rule verdict))) }
        ensures own { IsStateOf self.now.unit.now state.new }
        ensures rows { state.new.rows ≡ state.old.rows }
        ensures kept { state.new.kept ≡ state.old.kept }
        ensures cost { steps.new ≤ steps.old + sum_by (action_cost self.now.unit.now
            (run_of state.old) self.now.owner) (actions_of self.now.unit.now rule verdict) }
    {
        match rule {
            Rule::CompletesActivity(activity) => {
                let Some(activity) = self.unit.activities.get(activity as usize) else {
                    return Ok(());
                };
                self.follow(&activity.on_completion, state, changed, fired, steps)
            }
            Rule::CompletesAct(play, act) => {
                let Some(act) = act_at(self.unit, play as usize, act as usize) else {
                    return Ok(());
                };
                self.follow(&act.on_completion, state, changed, fired, steps)
            }
            Rule::CompletesPlay(play) => {
                let Some(play) = self.unit.method.plays.get(play as usize) else {
                    return Ok(());
                };
                self.follow(&play.on_completion, state, changed, fired, steps)
            }
            Rule::CompletesUnit => {
                self.follow(
                    &self.unit.method.on_completion,
                    state,
                    changed,
                    fired,
                    steps,
                )
            }
            Rule::JudgesCondition(condition) => {
                let Some(condition) = self.unit.conditions.get(condition as usize) else {
                    return Ok(());
                };
                let actions = branch_of(verdict, condition);
                self.do_actions(actions, state, changed, fired, steps)
            }
            Rule::CompletesStructure(_) | Rule::OpensAct(_, _) | Rule::CompletesPart(_, _, _) => {
                Ok(())
            }
        }
    }

    /// The moment of the run as a value of its own.
    fn now<L: Ledger>(&self, state: &State, steps: &mut Steps<L>) -> Result<Option<Value>, NoMemory>
        requires own { IsStateOf self.now.unit.now state.now }
        ensures value { IfOk result
            (λ value. option_map datum_of value ≡ (run_of state.now).cells Now) }
        ensures cost { steps.new ≡ steps.old + 1 }
    {
        match state.get(CellName::Now, steps) {
            Some(value) => Ok(Some(value.copy(self.alloc)?)),
            None => Ok(None),
        }
    }
}

/// The actions of the condition for the verdict.
fn branch_of(verdict: bool, condition: &Condition) -> &[Action]
    ensures { result.now ≡ branch_of verdict condition.now }
{
    if verdict {
        return condition.yes.as_slice();
    }
    condition.no.as_slice()
}
