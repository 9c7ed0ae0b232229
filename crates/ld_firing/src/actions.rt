//! What follows where a site fires: its actions.
ghost use Rattle.std.specs.Prelude.{◌≡◌, ◌+◌, ◌≤◌, flat_map, fold, length, map, sum_by, OnOk};
ghost use Rattle.ld_base.specs.declared.fired.Fired.{Fired as Counts};
ghost use Rattle.ld_model.specs.declared.condition.Action.TheVariants.{Change as ChangeAction, Notify as NotifyAction};
ghost use Rattle.ld_state.specs.StateView.{IsStateOf, run_of};
ghost use Rattle.ld_firing.specs.ActionCells.{HasSlots, action_cells, actions_cells, visible_cells};
ghost use Rattle.ld_firing.specs.Actions.{actions_if, do_action, set_visible};
ghost use Rattle.ld_firing.specs.Costs.{action_cost};
ghost use Rattle.ld_firing.specs.Progress.{Does, progress_of};

use crate::actor::Actor;
use ld_base::{Fired, Id, NoMemory, Steps};
use ld_expr::thing_number;
use ld_model::{Action, CellName, Change, Notice, OnCompletion, Owner};
use ld_state::State;
use ld_value::Value;
use std::sync::ledger::Ledger;

impl<'a> Actor<'a> {
    /// What follows a completion, if anything does: its changes in order, and then its notices.
    pub(crate) fn follow<L: Ledger>(
        &self,
        follows: &Option<OnCompletion>,
        state: &mut State,
        changed: &mut Vec<u32>,
        fired: &mut Fired,
        steps: &mut Steps<L>,
    ) -> Result<(), NoMemory>
        requires own { IsStateOf self.now.unit.now state.old }
        requires cells { HasSlots self.now.unit.now (length state.old.rows)
            (actions_cells self.now.unit.now (length state.old.rows) self.now.owner
            (actions_if follows.now)) }
        ensures does { OnOk result (Does self.now.unit.now
            (progress_of state.old changed.old.items fired.old)
            (progress_of state.new changed.new.items fired.new)
            (λ doing. fold (do_action self.now.unit.now self.now.owner) doing
            (actions_if follows.now))) }
        ensures own { IsStateOf self.now.unit.now state.new }
        ensures rows { state.new.rows ≡ state.old.rows }
        ensures kept { state.new.kept ≡ state.old.kept }
        ensures cost { steps.new ≤ steps.old + sum_by (action_cost self.now.unit.now
            (run_of state.old) self.now.owner) (actions_if follows.now) }
    {
        let Some(follows) = follows else {
            return Ok(());
        };
        self.do_changes(follows.change.as_slice(), state, changed, fired, steps)?;
        self.do_notices(follows.notify.as_slice(), state, changed, fired, steps)
    }

    /// Makes the changes, in order.
    fn do_changes<L: Ledger>(
        &self,
        changes: &[Change],
        state: &mut State,
        changed: &mut Vec<u32>,
        fired: &mut Fired,
        steps: &mut Steps<L>,
    ) -> Result<(), NoMemory>
        requires own { IsStateOf self.now.unit.now state.old }
        requires cells { HasSlots self.now.unit.now (length state.old.rows)
            (actions_cells self.now.unit.now (length state.old.rows) self.now.owner
            (map ChangeAction changes.now)) }
        ensures does { OnOk result (Does self.now.unit.now
            (progress_of state.old changed.old.items fired.old)
            (progress_of state.new changed.new.items fired.new)
            (λ doing. fold (do_action self.now.unit.now self.now.owner) doing
            (map ChangeAction changes.now))) }
        ensures own { IsStateOf self.now.unit.now state.new }
        ensures rows { state.new.rows ≡ state.old.rows }
        ensures kept { state.new.kept ≡ state.old.kept }
        ensures cost { steps.new ≤ steps.old + sum_by (action_cost self.now.unit.now
            (run_of state.old) self.now.owner) (map ChangeAction changes.now) }
    {
        for change in changes {
            self.do_change(change, state, changed, fired, steps)?;
        }
        Ok(())
    }

    /// Sends the notices, in order.
    fn do_notices<L: Ledger>(
        &self,
        notices: &[Notice],
        state: &mut State,
        changed: &mut Vec<u32>,
        fired: &mut Fired,
        steps: &mut Steps<L>,
    ) -> Result<(), NoMemory>
        requires own { IsStateOf self.now.unit.now state.old }
        ensures does { OnOk result (Does self.now.unit.now
            (progress_of state.old changed.old.items fired.old)
            (progress_of state.new changed.new.items fired.new)
            (λ doing. fold (do_action self.now.unit.now self.now.owner) doing
            (map NotifyAction notices.now))) }
        ensures own { IsStateOf self.now.unit.now state.new }
        ensures rows { state.new.rows ≡ state.old.rows }
        ensures kept { state.new.kept ≡ state.old.kept }
        ensures cost { steps.new ≤ steps.old + sum_by (action_cost self.now.unit.now
            (run_of state.old) self.now.owner) (map NotifyAction notices.now) }
    {
        for notice in notices {
            self.do_notify(notice, state, fired, steps)?;
        }
        Ok(())
    }

    /// Does the actions, in order.
    pub(crate) fn do_actions<L: Ledger>(
        &self,
        actions: &[Action],
        state: &mut State,
        changed: &mut Vec<u32>,
        fired: &mut Fired,
        steps: &mut Steps<L>,
    ) -> Result<(), NoMemory>
        requires own { IsStateOf self.now.unit.now state.old }
        requires cells { HasSlots self.now.unit.now (length state.old.rows)
            (actions_cells self.now.unit.now (length state.old.rows) self.now.owner actions.now) }
        ensures does { OnOk result (Does self.now.unit.now
            (progress_of state.old changed.old.items fired.old)
            (progress_of state.new changed.new.items fired.new)
            (λ doing. fold (do_action self.now.unit.now self.now.owner) doing actions.now)) }
        ensures own { IsStateOf self.now.unit.now state.new }
        ensures rows { state.new.rows ≡ state.old.rows }
        ensures kept { state.new.kept ≡ state.old.kept }
        ensures cost { steps.new ≤ steps.old + sum_by (action_cost self.now.unit.now
            (run_of state.old) self.now.owner) actions.now }
    {
        for action in actions {
            self.do_action(action, state, changed, fired, steps)?;
        }
        Ok(())
    }

    /// Does the action.
    fn do_action<L: Ledger>(
        &self,
        action: &Action,
        state: &mut State,
        changed: &mut Vec<u32>,
        fired: &mut Fired,
        steps: &mut Steps<L>,
    ) -> Result<(), NoMemory>
        requires own { IsStateOf self.now.unit.now state.old }
        requires cells { HasSlots self.now.unit.now (length state.old.rows)
            (action_cells self.now.unit.now (length state.old.rows) self.now.owner action.now) }
        ensures does { OnOk result (Does self.now.unit.now
            (progress_of state.old changed.old.items fired.old)
            (progress_of state.new changed.new.items fired.new)
            (λ doing. do_action self.now.unit.now self.now.owner doing action.now)) }
        ensures own { IsStateOf self.now.unit.now state.new }
        ensures rows { state.new.rows ≡ state.old.rows }
        ensures kept { state.new.kept ≡ state.old.kept }
        ensures cost { steps.new ≤ steps.old + action_cost self.now.unit.now
            (run_of state.old) self.now.owner action.now }
    {
        match action {
            Action::Show(things) => self.set_all_visible(things.as_slice(), true, state, changed),
            Action::Hide(things) => self.set_all_visible(things.as_slice(), false, state, changed),
            Action::Change(change) => self.do_change(change, state, changed, fired, steps),
            Action::Notify(notice) => self.do_notify(notice, state, fired, steps),
        }
    }

    /// Shows the things to the owner, or hides them. It does nothing for the run.
    fn set_all_visible(
        &self,
        things: &[Id],
        visible: bool,
        state: &mut State,
        changed: &mut Vec<u32>,
    ) -> Result<(), NoMemory>
        requires own { IsStateOf self.now.unit.now state.old }
        requires cells { HasSlots self.now.unit.now (length state.old.rows)
            (flat_map (visible_cells self.now.unit.now self.now.owner) things.now) }
        ensures does { (fired : Counts) → OnOk result (Does self.now.unit.now
            (progress_of state.old changed.old.items fired)
            (progress_of state.new changed.new.items fired)
            (λ doing. fold (set_visible self.now.unit.now self.now.owner visible) doing things.now)) }
        ensures own { IsStateOf self.now.unit.now state.new }
        ensures rows { state.new.rows ≡ state.old.rows }
        ensures kept { state.new.kept ≡ state.old.kept }
    {
        for thing in things {
            self.set_visible(thing, visible, state, changed)?;
        }
        Ok(())
    }

    /// Shows the thing to the owner, or hides it. It does nothing for the run.
    fn set_visible(
        &self,
        thing: &Id,
        visible: bool,
        state: &mut State,
        changed: &mut Vec<u32>,
    ) -> Result<(), NoMemory>
        requires own { IsStateOf self.now.unit.now state.old }
        requires cells { HasSlots self.now.unit.now (length state.old.rows)
            (visible_cells self.now.unit.now self.now.owner thing.now) }
        ensures does { (fired : Counts) → OnOk result (Does self.now.unit.now
            (progress_of state.old changed.old.items fired)
            (progress_of state.new changed.new.items fired)
            (λ doing. set_visible self.now.unit.now self.now.owner visible doing thing.now)) }
        ensures own { IsStateOf self.now.unit.now state.new }
        ensures rows { state.new.rows ≡ state.old.rows }
        ensures kept { state.new.kept ≡ state.old.kept }
    {
        let person = match self.owner {
            Owner::Person(person) => person,
            Owner::Run => return Ok(()),
        };
        let Some(thing) = thing_number(self.unit, self.names, thing) else {
            return Ok(());
        };
        let value = Some(Value::Bool(visible));
        self.write(CellName::Vis(thing, person), value, state, changed)
    }
}
