//! The cells that rules write, in a run of one person who holds every role.
ghost use Rattle.std.specs.Prelude.{◌≡◌, ◌++◌, map};
ghost use Rattle.ld_model.specs.declared.condition.Action.TheVariants.{Change as ChangeAction};
ghost use Rattle.ld_expr.specs.Lookup.{list_from};
ghost use Rattle.ld_expr.specs.Owners.{mark_owner, of_person};
ghost use Rattle.ld_expr.specs.Seen.{act_opened_cell};
ghost use Rattle.ld_firing.specs.ActionCells.{action_cells, actions_cells, all_change_cells, opened_act_cells};
ghost use Rattle.ld_firing.specs.Actions.{actions_if};
ghost use Rattle.ld_refs.specs.Extents.{act_at};
ghost use Rattle.ld_rank.specs.Alone.{writes_alone};
ghost use Rattle.ld_rank.specs.Telling.{Tells, told_after};

use crate::sink::{CellSink, put_cell, put_property};
use ld_base::PersonNo;
use ld_expr::thing_number;
use ld_model::{Action, CellName, Change, Condition, OnCompletion, Owner};
use ld_names::{Rule, RuleKind};
use ld_rules::{PreparedUnit, act_at};

/// Tells the cells that the rule writes beside its mark: what it opens, and what its actions are
/// on, whatever its mark becomes.
pub(crate) fn put_writes<S: CellSink>(
    unit: &PreparedUnit,
    rule: Rule,
    cells: &mut S,
) -> Result<(), S::Stop>
    ensures { Tells S.can_fail (told_after S.after (S.told cells.old) (writes_alone unit.now rule))
        result (S.told cells.new) }
{
    match rule {
        Rule::CompletesActivity(activity) => {
            match unit.unit().activities.get(activity as usize) {
                Some(activity) => {
                    put_ending(unit, RuleKind::Person, &activity.on_completion, cells)
                }
                None => Ok(()),
            }
        }
        Rule::OpensAct(_, _) => put_opened(unit, rule, cells),
        Rule::CompletesAct(play, act) => {
            match act_at(unit.unit(), play as usize, act as usize) {
                Some(act) => put_ending(unit, RuleKind::Run, &act.on_completion, cells),
                None => Ok(()),
            }
        }
        Rule::CompletesPlay(play) => match unit.unit().method.plays.get(play as usize) {
            Some(play) => put_ending(unit, RuleKind::Run, &play.on_completion, cells),
            None => Ok(()),
        },
        Rule::CompletesUnit => {
            put_ending(
                unit,
                RuleKind::Run,
                &unit.unit().method.on_completion,
                cells,
            )
        }
        Rule::JudgesCondition(condition) => {
            match unit.unit().conditions.get(condition as usize) {
                Some(condition) => put_branches(unit, condition, cells),
                None => Ok(()),
            }
        }
        Rule::CompletesStructure(_) | Rule::CompletesPart(_, _, _) => Ok(()),
    }
}

/// Tells the cell that says when the act was opened, where the rule opens one.
fn put_opened<S: CellSink>(unit: &PreparedUnit, rule: Rule, cells: &mut S) -> Result<(), S::Stop>
    ensures { Tells S.can_fail (told_after S.after (S.told cells.old)
        (opened_act_cells unit.now rule)) result (S.told cells.new) }
{
    let Rule::OpensAct(play, act) = rule else {
        return Ok(());
    };
    let Some(act) = act_at(unit.unit(), play as usize, act as usize) else {
        return Ok(());
    };
    match thing_number(unit.unit(), unit.names(), &act.identifier) {
        Some(thing) => put_cell(CellName::ActOpened(thing), cells),
        None => Ok(()),
    }
}

/// Tells what the branches of the condition are on, for the one person.
fn put_branches<S: CellSink>(
    unit: &PreparedUnit,
    condition: &Condition,
    cells: &mut S,
) -> Result<(), S::Stop>
    ensures { Tells S.can_fail (told_after S.after (S.told cells.old)
        (actions_cells unit.now 1 (of_person 0) condition.now.yes
        ++ actions_cells unit.now 1 (of_person 0) condition.now.no)) result (S.told cells.new) }
{
    put_actions(unit, RuleKind::Person, condition.yes.as_slice(), cells)?;
    put_actions(unit, RuleKind::Person, condition.no.as_slice(), cells)
}

/// Tells what the actions are on.
fn put_actions<S: CellSink>(
    unit: &PreparedUnit,
    kind: RuleKind,
    actions: &[Action],
    cells: &mut S,
) -> Result<(), S::Stop>
    ensures { Tells S.can_fail (told_after S.after (S.told cells.old)
        (actions_cells unit.now 1 (mark_owner kind (of_person 0)) actions.now)) result
        (S.told cells.new) }
{
    for action in actions {
        put_action(unit, kind, action, cells)?;
    }
    Ok(())
}

/// Tells what the action is on, but for what persons see of things: at that no rule looks.
fn put_action<S: CellSink>(
    unit: &PreparedUnit,
    kind: RuleKind,
    action: &Action,
    cells: &mut S,
) -> Result<(), S::Stop>
    ensures { Tells S.can_fail (told_after S.after (S.told cells.old)
        (action_cells unit.now 1 (mark_owner kind (of_person 0)) action.now)) result
        (S.told cells.new) }
{
    match action {
        Action::Show(_) => Ok(()),
        Action::Hide(_) => Ok(()),
        Action::Change(change) => put_change(unit, kind, change, cells),
        Action::Notify(_) => Ok(()),
    }
}

/// Tells what is changed by what follows a completion.
fn put_ending<S: CellSink>(
    unit: &PreparedUnit,
    kind: RuleKind,
    follows: &Option<OnCompletion>,
    cells: &mut S,
) -> Result<(), S::Stop>
    ensures { Tells S.can_fail (told_after S.after (S.told cells.old)
        (actions_cells unit.now 1 (mark_owner kind (of_person 0)) (actions_if follows.now))) result
        (S.told cells.new) }
{
    match follows {
        Some(follows) => put_changes(unit, kind, follows.change.as_slice(), cells),
        None => Ok(()),
    }
}

/// Tells what the changes are of.
fn put_changes<S: CellSink>(
    unit: &PreparedUnit,
    kind: RuleKind,
    changes: &[Change],
    cells: &mut S,
) -> Result<(), S::Stop>
    ensures { Tells S.can_fail (told_after S.after (S.told cells.old)
        (actions_cells unit.now 1 (mark_owner kind (of_person 0)) (map ChangeAction changes.now)))
        result (S.told cells.new) }
{
    for change in changes {
        put_change(unit, kind, change, cells)?;
    }
    Ok(())
}

/// Tells what the change is of: that run's one person's value, or the run's.
fn put_change<S: CellSink>(
    unit: &PreparedUnit,
    kind: RuleKind,
    change: &Change,
    cells: &mut S,
) -> Result<(), S::Stop>
    ensures { Tells S.can_fail (told_after S.after (S.told cells.old)
        (all_change_cells unit.now 1 (mark_owner kind (of_person 0)) change.now)) result
        (S.told cells.new) }
{
    put_property(unit, Owner::Person(PersonNo(0)), &change.property, cells)
}
