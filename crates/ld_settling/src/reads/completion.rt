//! Which cells a completion rule reads.
ghost use Rattle.std.specs.Prelude.{◌∷◌, ◌+◌, ◌++◌, ◌≤◌, [], OnErr, OnOk, length, option_copied};
ghost use Rattle.ld_model.specs.declared.cell.CellName.TheVariants.{Now};
ghost use Rattle.ld_expr.specs.Looks.{done_looks};
ghost use Rattle.ld_expr.specs.Lookup.{list_from};
ghost use Rattle.ld_rules.specs.SiteLooks.{cell_list, completion_looks, completion_looks_if};
ghost use Rattle.ld_rules.specs.SiteView.{completing_of};
ghost use Rattle.ld_state.specs.RunState.{seen_in};
ghost use Rattle.ld_state.specs.StateView.{run_of};
ghost use Rattle.ld_settling.specs.Gathering.{FallsShort, Gathers};

use crate::reads::marks::{read_mark, read_marks};
use crate::reads::reader::Reader;
use crate::reads::terms::read_property;
use crate::reads::test_reads::read_users;
use ld_base::{Id, NoMemory, Steps};
use ld_graph::SlotList;
use ld_model::{CellName, Completion, Owner};
use ld_rules::Completing;
use std::sync::ledger::Ledger;

/// Gathers what is read to know whether there is a completion rule and it holds. It takes at most a
/// step for each cell at which the rule looks.
pub(crate) fn read_completion<L: Ledger>(
    reader: &Reader<'_>,
    about: Completing<'_>,
    completion: &Option<Completion>,
    list: &mut SlotList,
    steps: &mut Steps<L>,
) -> Result<(), NoMemory>
    ensures gathers { OnOk result (Gathers reader.now.unit.now (run_of reader.now.state.now)
        (completion_looks_if reader.now.unit.now
        (seen_in reader.now.unit.now (run_of reader.now.state.now))
        (completing_of about.entry) completion.now) list.old list.new) }
    ensures short { OnErr result (FallsShort reader.now.unit.now (run_of reader.now.state.now)
        (completion_looks_if reader.now.unit.now
        (seen_in reader.now.unit.now (run_of reader.now.state.now))
        (completing_of about.entry) completion.now) list.old) }
    ensures room { list.old.room ≤ list.new.room }
    ensures cost { steps.new ≤ steps.old + length (completion_looks_if reader.now.unit.now
        (seen_in reader.now.unit.now (run_of reader.now.state.now))
        (completing_of about.entry) completion.now) }
{
    match completion {
        Some(completion) => read_completion_rule(reader, about, completion, list, steps),
        None => Ok(()),
    }
}

/// Gathers what is read to know whether the completion rule holds.
fn read_completion_rule<L: Ledger>(
    reader: &Reader<'_>,
    about: Completing<'_>,
    completion: &Completion,
    list: &mut SlotList,
    steps: &mut Steps<L>,
) -> Result<(), NoMemory>
    ensures gathers { OnOk result (Gathers reader.now.unit.now (run_of reader.now.state.now)
        (completion_looks reader.now.unit.now
        (seen_in reader.now.unit.now (run_of reader.now.state.now))
        (completing_of about.entry) completion.now) list.old list.new) }
    ensures short { OnErr result (FallsShort reader.now.unit.now (run_of reader.now.state.now)
        (completion_looks reader.now.unit.now
        (seen_in reader.now.unit.now (run_of reader.now.state.now))
        (completing_of about.entry) completion.now) list.old) }
    ensures room { list.old.room ≤ list.new.room }
    ensures cost { steps.new ≤ steps.old + length (completion_looks reader.now.unit.now
        (seen_in reader.now.unit.now (run_of reader.now.state.now))
        (completing_of about.entry) completion.now) }
{
    match completion {
        Completion::UserChoice => reader.put_if(about.chosen, list),
        Completion::TimeLimit(_) => read_start(reader, about.start, list),
        Completion::WhenPropertyValueIsSet(property, _) => {
            read_property(reader, about.owner, property, list)
        }
        Completion::WhenRolePartCompleted(parts) => {
            read_marks(reader, Owner::Run, parts.as_slice(), list)
        }
        Completion::WhenConditionTrue(role, test) => read_users(reader, role, test, list, steps),
        Completion::WhenLastActCompleted => read_last_act(reader, about.last_act, list),
        Completion::WhenPlayCompleted(plays) => {
            read_marks(reader, Owner::Run, plays.as_slice(), list)
        }
    }
}

/// Gathers what is read to know how long ago it began.
fn read_start(
    reader: &Reader<'_>,
    start: Option<CellName>,
    list: &mut SlotList,
) -> Result<(), NoMemory>
    ensures gathers { OnOk result (Gathers reader.now.unit.now (run_of reader.now.state.now)
        (cell_list start ++ Now ∷ []) list.old list.new) }
    ensures short { OnErr result (FallsShort reader.now.unit.now (run_of reader.now.state.now)
        (cell_list start ++ Now ∷ []) list.old) }
    ensures room { list.old.room ≤ list.new.room }
{
    reader.put_if(start, list)?;
    reader.put(CellName::Now, list)
}

/// Gathers what is read to know whether the last act, if there is one, is done.
fn read_last_act(reader: &Reader<'_>, act: Option<&Id>, list: &mut SlotList) -> Result<(), NoMemory>
    ensures gathers { OnOk result (Gathers reader.now.unit.now (run_of reader.now.state.now)
        (list_from (done_looks reader.now.unit.now
        (seen_in reader.now.unit.now (run_of reader.now.state.now)) Owner.Run)
        (option_copied act.entry)) list.old list.new) }
    ensures short { OnErr result (FallsShort reader.now.unit.now (run_of reader.now.state.now)
        (list_from (done_looks reader.now.unit.now
        (seen_in reader.now.unit.now (run_of reader.now.state.now)) Owner.Run)
        (option_copied act.entry)) list.old) }
    ensures room { list.old.room ≤ list.new.room }
{
    match act {
        Some(act) => read_mark(reader, Owner::Run, act, list),
        None => Ok(()),
    }
}
