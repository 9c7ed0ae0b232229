//! The cells at which rules look, in a run of one person who holds every role.
ghost use Rattle.std.specs.Prelude.{◌≡◌, option_copied};
ghost use Rattle.ld_expr.specs.Looks.{done_looks};
ghost use Rattle.ld_expr.specs.Lookup.{list_from};
ghost use Rattle.ld_model.specs.declared.cell.Owner.TheVariants.{Run as OfRun};
ghost use Rattle.ld_rules.specs.SiteLooks.{cell_list, completion_looks, completion_looks_if, opening_looks, run_looks, person_looks, site_act_looks, site_activity_looks, site_part_looks, site_target_looks};
ghost use Rattle.ld_rules.specs.SiteTests.{opening_cell, unit_completing};
ghost use Rattle.ld_rules.specs.SiteView.{completing_of};
ghost use Rattle.ld_rank.specs.Alone.{looks_alone, seen_alone};
ghost use Rattle.ld_rank.specs.Telling.{Tells, told_after};

use crate::expressions::{put_test, put_users};
use crate::sink::{CellSink, put_if, put_mark, put_marks, put_property};
use ld_base::{Id, PersonNo};
use ld_expr::role_number;
use ld_model::{Act, Activity, CellName, Completion, Owner, RolePart};
use ld_names::{Rule, RuleKind};
use ld_rules::{
    Completing, PreparedUnit, act_at, completing_activity, completing_play, is_environment,
    opening_cell,
};

/// The one person of that run.
const ALONE: PersonNo = PersonNo(0);

/// Tells the cells at which the rule asks to look.
pub(crate) fn put_looks<S: CellSink>(
    unit: &PreparedUnit,
    rule: Rule,
    cells: &mut S,
) -> Result<(), S::Stop>
    ensures { Tells S.can_fail (told_after S.after (S.told cells.old) (looks_alone unit.now rule)) result (S.told cells.new) }
{
    match rule.kind() {
        RuleKind::Person => put_person_rule(unit, rule, cells),
        RuleKind::Run => put_run_rule(unit, rule, cells),
    }
}

/// Tells the cells at which the rule asks to look for the one person: none of a rule for the run.
fn put_person_rule<S: CellSink>(
    unit: &PreparedUnit,
    rule: Rule,
    cells: &mut S,
) -> Result<(), S::Stop>
    ensures { Tells S.can_fail (told_after S.after (S.told cells.old) (person_looks unit.now (seen_alone unit.now) 0 rule)) result (S.told cells.new) }
{
    match rule {
        Rule::CompletesActivity(number) => {
            match unit.unit().activities.get(number as usize) {
                Some(activity) => put_activity(unit, activity, cells),
                None => Ok(()),
            }
        }
        Rule::CompletesStructure(number) => {
            match unit.unit().structures.get(number as usize) {
                Some(structure) => {
                    put_marks(
                        unit,
                        Owner::Person(ALONE),
                        structure.children.as_slice(),
                        cells,
                    )
                }
                None => Ok(()),
            }
        }
        Rule::JudgesCondition(number) => match unit.unit().conditions.get(number as usize) {
            Some(condition) => put_test(unit, Owner::Person(ALONE), &condition.test, cells),
            None => Ok(()),
        },
        Rule::OpensAct(_, _)
        | Rule::CompletesPart(_, _, _)
        | Rule::CompletesAct(_, _)
        | Rule::CompletesPlay(_)
        | Rule::CompletesUnit => Ok(()),
    }
}

/// Tells the cells at which the rule asks to look for the run: none of a rule for persons.
fn put_run_rule<S: CellSink>(unit: &PreparedUnit, rule: Rule, cells: &mut S) -> Result<(), S::Stop>
    ensures { Tells S.can_fail (told_after S.after (S.told cells.old) (run_looks unit.now (seen_alone unit.now) rule)) result (S.told cells.new) }
{
    match rule {
        Rule::OpensAct(play, act) => put_opening(unit, play as usize, act as usize, cells),
        Rule::CompletesPart(play, act, part) => {
            let Some(act) = act_at(unit.unit(), play as usize, act as usize) else {
                return Ok(());
            };
            match act.role_parts.get(part as usize) {
                Some(part) => put_part(unit, act, part, cells),
                None => Ok(()),
            }
        }
        Rule::CompletesAct(play, act) => {
            match act_at(unit.unit(), play as usize, act as usize) {
                Some(act) => put_act(unit, act, cells),
                None => Ok(()),
            }
        }
        Rule::CompletesPlay(play) => match unit.unit().method.plays.get(play as usize) {
            Some(play) => put_completion(unit, completing_play(play), &play.complete, cells),
            None => Ok(()),
        },
        Rule::CompletesUnit => put_unit(unit, cells),
        Rule::CompletesActivity(_) | Rule::CompletesStructure(_) | Rule::JudgesCondition(_) => {
            Ok(())
        }
    }
}

/// Tells the cells at which the rule of the activity asks to look.
fn put_activity<S: CellSink>(
    unit: &PreparedUnit,
    activity: &Activity,
    cells: &mut S,
) -> Result<(), S::Stop>
    ensures { Tells S.can_fail (told_after S.after (S.told cells.old) (site_activity_looks unit.now (seen_alone unit.now) 0 activity.now)) result (S.told cells.new) }
{
    let about = completing_activity(unit.unit(), unit.names(), activity, ALONE);
    put_completion(unit, about, &activity.complete, cells)
}

/// Tells the cells at which the opening of the act asks to look.
fn put_opening<S: CellSink>(
    unit: &PreparedUnit,
    play: usize,
    act: usize,
    cells: &mut S,
) -> Result<(), S::Stop>
    ensures { Tells S.can_fail (told_after S.after (S.told cells.old) (opening_looks unit.now (seen_alone unit.now) play act)) result (S.told cells.new) }
{
    if act == 0 {
        return Ok(());
    }
    match act_at(unit.unit(), play, act - 1) {
        Some(before) => put_mark(unit, Owner::Run, &before.identifier, cells),
        None => Ok(()),
    }
}

/// Tells the cells at which the rule of the role-part asks to look.
fn put_part<S: CellSink>(
    unit: &PreparedUnit,
    act: &Act,
    part: &RolePart,
    cells: &mut S,
) -> Result<(), S::Stop>
    ensures { Tells S.can_fail (told_after S.after (S.told cells.old) (site_part_looks unit.now
        (seen_alone unit.now) act.now part.now)) result (S.told cells.new) }
{
    put_act_opened(unit, act, cells)?;
    put_target(unit, part, cells)
}

/// Tells the cell that says when the act was opened.
fn put_act_opened<S: CellSink>(unit: &PreparedUnit, act: &Act, cells: &mut S) -> Result<(), S::Stop>
    ensures { Tells S.can_fail (told_after S.after (S.told cells.old) (cell_list (opening_cell unit.now act.now))) result (S.told cells.new) }
{
    put_if(opening_cell(unit.unit(), unit.names(), act), cells)
}

/// Tells the cells at which is looked to know what the members have done of what the role-part
/// refers to.
fn put_target<S: CellSink>(
    unit: &PreparedUnit,
    part: &RolePart,
    cells: &mut S,
) -> Result<(), S::Stop>
    ensures { Tells S.can_fail (told_after S.after (S.told cells.old) (site_target_looks unit.now (seen_alone unit.now) part.now)) result (S.told cells.new) }
{
    if is_environment(unit.unit(), unit.names(), &part.target) {
        return Ok(());
    }
    match role_number(unit.unit(), unit.names(), &part.role) {
        Some(_) => put_mark(unit, Owner::Person(ALONE), &part.target, cells),
        None => Ok(()),
    }
}

/// Tells the cells at which the rule of the act asks to look.
fn put_act<S: CellSink>(unit: &PreparedUnit, act: &Act, cells: &mut S) -> Result<(), S::Stop>
    ensures { Tells S.can_fail (told_after S.after (S.told cells.old) (site_act_looks unit.now (seen_alone unit.now) act.now)) result (S.told cells.new) }
{
    put_act_opened(unit, act, cells)?;
    let about = Completing {
        owner: Owner::Run,
        chosen: None,
        start: opening_cell(unit.unit(), unit.names(), act),
        last_act: None,
    };
    put_completion(unit, about, &act.complete, cells)
}

/// Tells the cells at which the rule of the unit asks to look.
fn put_unit<S: CellSink>(unit: &PreparedUnit, cells: &mut S) -> Result<(), S::Stop>
    ensures { Tells S.can_fail (told_after S.after (S.told cells.old) (completion_looks_if unit.now (seen_alone unit.now) unit_completing
        unit.now.method.complete)) result (S.told cells.new) }
{
    let about = Completing {
        owner: Owner::Run,
        chosen: None,
        start: Some(CellName::Started),
        last_act: None,
    };
    put_completion(unit, about, &unit.unit().method.complete, cells)
}

/// Tells the cells at which the completion rule, if there is one, asks to look.
fn put_completion<S: CellSink>(
    unit: &PreparedUnit,
    about: Completing<'_>,
    completion: &Option<Completion>,
    cells: &mut S,
) -> Result<(), S::Stop>
    ensures { Tells S.can_fail (told_after S.after (S.told cells.old) (completion_looks_if unit.now (seen_alone unit.now)
        (completing_of about.entry) completion.now)) result (S.told cells.new) }
{
    match completion {
        Some(completion) => put_completion_rule(unit, about, completion, cells),
        None => Ok(()),
    }
}

/// Tells the cells at which the completion rule asks to look.
fn put_completion_rule<S: CellSink>(
    unit: &PreparedUnit,
    about: Completing<'_>,
    completion: &Completion,
    cells: &mut S,
) -> Result<(), S::Stop>
    ensures { Tells S.can_fail (told_after S.after (S.told cells.old) (completion_looks unit.now (seen_alone unit.now)
        (completing_of about.entry) completion.now)) result (S.told cells.new) }
{
    match completion {
        Completion::UserChoice => put_if(about.chosen, cells),
        Completion::TimeLimit(_) => put_if(about.start, cells),
        Completion::WhenPropertyValueIsSet(property, _) => {
            put_property(unit, about.owner, property, cells)
        }
        Completion::WhenRolePartCompleted(parts) => {
            put_marks(unit, Owner::Run, parts.as_slice(), cells)
        }
        Completion::WhenConditionTrue(role, test) => put_users(unit, role, test, cells),
        Completion::WhenLastActCompleted => put_last_act(unit, about.last_act, cells),
        Completion::WhenPlayCompleted(plays) => put_marks(
            unit,
            Owner::Run,
            plays.as_slice(),
            cells,
        ),
    }
}

/// Tells the mark that says that the last act, if there is one, is done.
fn put_last_act<S: CellSink>(
    unit: &PreparedUnit,
    act: Option<&Id>,
    cells: &mut S,
) -> Result<(), S::Stop>
    ensures { Tells S.can_fail (told_after S.after (S.told cells.old) (list_from (done_looks unit.now (seen_alone unit.now) OfRun) (option_copied act.entry))) result (S.told cells.new) }
{
    match act {
        Some(act) => put_mark(unit, Owner::Run, act, cells),
        None => Ok(()),
    }
}
