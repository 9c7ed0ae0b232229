//! Which cells the rules for the run read: those of acts, role-parts, plays and the unit.
ghost use Rattle.std.specs.Prelude.{◌≡◌, ◌+◌, ◌≤◌, OnErr, OnOk, length};
ghost use Rattle.ld_expr.specs.Looks.{members_looks};
ghost use Rattle.ld_rules.specs.SiteLooks.{site_act_looks, cell_list, completion_looks_if, opening_looks, site_part_looks, run_looks, site_target_looks};
ghost use Rattle.ld_rules.specs.SiteTests.{act_completing, opening_cell, play_completing, unit_completing};
ghost use Rattle.ld_rules.specs.SiteView.{completing_of};
ghost use Rattle.ld_state.specs.RunState.{seen_in};
ghost use Rattle.ld_state.specs.StateView.{run_of};
ghost use Rattle.ld_settling.specs.Gathering.{FallsShort, Gathers};

use crate::reads::completion::read_completion;
use crate::reads::marks::read_mark;
use crate::reads::members::{read_members, read_members_marks};
use crate::reads::reader::Reader;
use ld_base::{NoMemory, Steps};
use ld_graph::SlotList;
use ld_model::{Act, CellName, Owner, Play, RolePart};
use ld_names::Rule;
use ld_rules::{Completing, act_at, completing_play, is_environment, opening_cell};
use std::sync::ledger::Ledger;

/// Gathers what is read to know what the rule asks of the run; of a rule for persons, nothing. It
/// takes at most a step for each cell at which the rule looks.
pub(crate) fn read_for_run<L: Ledger>(
    reader: &Reader<'_>,
    rule: Rule,
    list: &mut SlotList,
    steps: &mut Steps<L>,
) -> Result<(), NoMemory>
    ensures gathers { OnOk result (Gathers reader.now.unit.now (run_of reader.now.state.now)
        (run_looks reader.now.unit.now
        (seen_in reader.now.unit.now (run_of reader.now.state.now)) rule) list.old list.new) }
    ensures short { OnErr result (FallsShort reader.now.unit.now (run_of reader.now.state.now)
        (run_looks reader.now.unit.now
        (seen_in reader.now.unit.now (run_of reader.now.state.now)) rule) list.old) }
    ensures room { list.old.room ≤ list.new.room }
    ensures cost { steps.new ≤ steps.old + length (run_looks reader.now.unit.now
        (seen_in reader.now.unit.now (run_of reader.now.state.now)) rule) }
{
    match rule {
        Rule::OpensAct(play, act) => read_opening(reader, play as usize, act as usize, list),
        Rule::CompletesPart(play, act, part) => {
            let Some(act) = act_at(reader.unit.unit(), play as usize, act as usize) else {
                return Ok(());
            };
            match act.role_parts.get(part as usize) {
                Some(part) => read_part(reader, act, part, list, steps),
                None => Ok(()),
            }
        }
        Rule::CompletesAct(play, act) => {
            match act_at(reader.unit.unit(), play as usize, act as usize) {
                Some(act) => read_act(reader, act, list, steps),
                None => Ok(()),
            }
        }
        Rule::CompletesPlay(play) => match reader.unit.unit().method.plays.get(play as usize) {
            Some(play) => read_play(reader, play, list, steps),
            None => Ok(()),
        },
        Rule::CompletesUnit => read_unit(reader, list, steps),
        Rule::CompletesActivity(_) | Rule::CompletesStructure(_) | Rule::JudgesCondition(_) => {
            Ok(())
        }
    }
}

/// Gathers what is read to know whether the act is the first of its play, or the one before it is
/// done.
fn read_opening(
    reader: &Reader<'_>,
    play: usize,
    act: usize,
    list: &mut SlotList,
) -> Result<(), NoMemory>
    ensures gathers { OnOk result (Gathers reader.now.unit.now (run_of reader.now.state.now)
        (opening_looks reader.now.unit.now
        (seen_in reader.now.unit.now (run_of reader.now.state.now)) play act) list.old list.new) }
    ensures short { OnErr result (FallsShort reader.now.unit.now (run_of reader.now.state.now)
        (opening_looks reader.now.unit.now
        (seen_in reader.now.unit.now (run_of reader.now.state.now)) play act) list.old) }
    ensures room { list.old.room ≤ list.new.room }
{
    if act == 0 {
        return Ok(());
    }
    match act_at(reader.unit.unit(), play, act - 1) {
        Some(before) => read_mark(reader, Owner::Run, &before.identifier, list),
        None => Ok(()),
    }
}

/// Gathers what is read to know whether the act is opened, who the members of the role are, and
/// what each of them has done of what the role-part refers to.
fn read_part<L: Ledger>(
    reader: &Reader<'_>,
    act: &Act,
    part: &RolePart,
    list: &mut SlotList,
    steps: &mut Steps<L>,
) -> Result<(), NoMemory>
    ensures gathers { OnOk result (Gathers reader.now.unit.now (run_of reader.now.state.now)
        (site_part_looks reader.now.unit.now
        (seen_in reader.now.unit.now (run_of reader.now.state.now)) act.now part.now)
        list.old list.new) }
    ensures short { OnErr result (FallsShort reader.now.unit.now (run_of reader.now.state.now)
        (site_part_looks reader.now.unit.now
        (seen_in reader.now.unit.now (run_of reader.now.state.now)) act.now part.now) list.old) }
    ensures room { list.old.room ≤ list.new.room }
    ensures cost { steps.new ≤ steps.old + length (site_part_looks reader.now.unit.now
        (seen_in reader.now.unit.now (run_of reader.now.state.now)) act.now part.now) }
{
    read_opened_act(reader, act, list)?;
    read_members(reader, &part.role, list)?;
    read_target(reader, part, list, steps)
}

/// Gathers what is read to know what each member of the role has done of what the role-part refers
/// to. Of an environment there is nothing to do.
fn read_target<L: Ledger>(
    reader: &Reader<'_>,
    part: &RolePart,
    list: &mut SlotList,
    steps: &mut Steps<L>,
) -> Result<(), NoMemory>
    ensures gathers { OnOk result (Gathers reader.now.unit.now (run_of reader.now.state.now)
        (site_target_looks reader.now.unit.now
        (seen_in reader.now.unit.now (run_of reader.now.state.now)) part.now) list.old list.new) }
    ensures short { OnErr result (FallsShort reader.now.unit.now (run_of reader.now.state.now)
        (site_target_looks reader.now.unit.now
        (seen_in reader.now.unit.now (run_of reader.now.state.now)) part.now) list.old) }
    ensures room { list.old.room ≤ list.new.room }
    ensures cost { steps.new ≤ steps.old + length (members_looks reader.now.unit.now
        (seen_in reader.now.unit.now (run_of reader.now.state.now)) part.now.role) }
{
    if is_environment(reader.unit.unit(), reader.unit.names(), &part.target) {
        return Ok(());
    }
    read_members_marks(reader, &part.role, &part.target, list, steps)
}

/// Gathers what is read to know whether the act is opened, and its completion rule holds.
fn read_act<L: Ledger>(
    reader: &Reader<'_>,
    act: &Act,
    list: &mut SlotList,
    steps: &mut Steps<L>,
) -> Result<(), NoMemory>
    ensures gathers { OnOk result (Gathers reader.now.unit.now (run_of reader.now.state.now)
        (site_act_looks reader.now.unit.now
        (seen_in reader.now.unit.now (run_of reader.now.state.now)) act.now) list.old list.new) }
    ensures short { OnErr result (FallsShort reader.now.unit.now (run_of reader.now.state.now)
        (site_act_looks reader.now.unit.now
        (seen_in reader.now.unit.now (run_of reader.now.state.now)) act.now) list.old) }
    ensures room { list.old.room ≤ list.new.room }
    ensures cost { steps.new ≤ steps.old + length (site_act_looks reader.now.unit.now
        (seen_in reader.now.unit.now (run_of reader.now.state.now)) act.now) }
{
    read_opened_act(reader, act, list)?;
    read_completion(
        reader,
        completing_act(reader, act),
        &act.complete,
        list,
        steps,
    )
}

/// Gathers what is read to know whether the completion rule of the play holds.
fn read_play<L: Ledger>(
    reader: &Reader<'_>,
    play: &Play,
    list: &mut SlotList,
    steps: &mut Steps<L>,
) -> Result<(), NoMemory>
    ensures gathers { OnOk result (Gathers reader.now.unit.now (run_of reader.now.state.now)
        (completion_looks_if reader.now.unit.now
        (seen_in reader.now.unit.now (run_of reader.now.state.now))
        (play_completing play.now) play.now.complete) list.old list.new) }
    ensures short { OnErr result (FallsShort reader.now.unit.now (run_of reader.now.state.now)
        (completion_looks_if reader.now.unit.now
        (seen_in reader.now.unit.now (run_of reader.now.state.now))
        (play_completing play.now) play.now.complete) list.old) }
    ensures room { list.old.room ≤ list.new.room }
    ensures cost { steps.new ≤ steps.old + length (completion_looks_if reader.now.unit.now
        (seen_in reader.now.unit.now (run_of reader.now.state.now))
        (play_completing play.now) play.now.complete) }
{
    read_completion(reader, completing_play(play), &play.complete, list, steps)
}

/// Gathers what is read to know whether the completion rule of the unit holds.
fn read_unit<L: Ledger>(
    reader: &Reader<'_>,
    list: &mut SlotList,
    steps: &mut Steps<L>,
) -> Result<(), NoMemory>
    ensures gathers { OnOk result (Gathers reader.now.unit.now (run_of reader.now.state.now)
        (completion_looks_if reader.now.unit.now
        (seen_in reader.now.unit.now (run_of reader.now.state.now))
        unit_completing reader.now.unit.now.method.complete) list.old list.new) }
    ensures short { OnErr result (FallsShort reader.now.unit.now (run_of reader.now.state.now)
        (completion_looks_if reader.now.unit.now
        (seen_in reader.now.unit.now (run_of reader.now.state.now))
        unit_completing reader.now.unit.now.method.complete) list.old) }
    ensures room { list.old.room ≤ list.new.room }
    ensures cost { steps.new ≤ steps.old + length (completion_looks_if reader.now.unit.now
        (seen_in reader.now.unit.now (run_of reader.now.state.now))
        unit_completing reader.now.unit.now.method.complete) }
{
    let about = Completing {
        owner: Owner::Run,
        chosen: None,
        start: Some(CellName::Started),
        last_act: None,
    };
    read_completion(
        reader,
        about,
        &reader.unit.unit().method.complete,
        list,
        steps,
    )
}

/// Gathers what is read to know whether the act is opened.
fn read_opened_act(reader: &Reader<'_>, act: &Act, list: &mut SlotList) -> Result<(), NoMemory>
    ensures gathers { OnOk result (Gathers reader.now.unit.now (run_of reader.now.state.now)
        (cell_list (opening_cell reader.now.unit.now act.now)) list.old list.new) }
    ensures short { OnErr result (FallsShort reader.now.unit.now (run_of reader.now.state.now)
        (cell_list (opening_cell reader.now.unit.now act.now)) list.old) }
    ensures room { list.old.room ≤ list.new.room }
{
    let cell = opening_cell(reader.unit.unit(), reader.unit.names(), act);
    reader.put_if(cell, list)
}

/// What the completion rule of the act speaks of: it begins when the act is opened.
fn completing_act<'a>(reader: &Reader<'_>, act: &Act) -> Completing<'a>
    ensures { completing_of result ≡ act_completing reader.now.unit.now act.now }
{
    Completing {
        owner: Owner::Run,
        chosen: None,
        start: opening_cell(reader.unit.unit(), reader.unit.names(), act),
        last_act: None,
    }
}
