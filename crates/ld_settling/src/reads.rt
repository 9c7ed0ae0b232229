//! Which cells the test of a site reads: their slots, each once. What a site reads follows from
//! what it reads: as long as nothing changes there, neither its test nor its reads do.
ghost use Rattle.std.specs.Prelude.{◌≡◌, ◌+◌, ◌≤◌, ◌<◌, [], OnErr, OnOk, length};
ghost use Rattle.ld_rules.specs.SiteLooks.{looks_by, open_looks, rule_looks, site_looks};
ghost use Rattle.ld_rules.specs.SiteView.{site_of};
ghost use Rattle.ld_state.specs.RunState.{seen_in};
ghost use Rattle.ld_state.specs.StateView.{IsStateOf, run_of};
ghost use Rattle.ld_settling.specs.Gathering.{FallsShort, Gathers, looks_until_latched, with_cells};

mod completion;
mod marks;
mod members;
mod method_rules;
mod person_rules;
mod reader;
mod terms;
mod test_reads;

use crate::reads::method_rules::read_for_run;
use crate::reads::person_rules::read_for_person;
use crate::reads::reader::Reader;
use ld_base::{NoMemory, Steps};
use ld_expr::says_yes;
use ld_graph::SlotList;
use ld_model::{CellName, Owner};
use ld_names::Rule;
use ld_rules::{PreparedUnit, Site, says_for_good};
use ld_state::State;
use std::alloc::Global;
use std::sync::ledger::Ledger;

/// Empties the list, and puts the slots that the site reads into it, each once. Where the list has
/// no room for them it gets more; the only error is out of memory, which does not come where the
/// room was enough. It takes at most a step for each cell at which the site's rule asks to look.
/// (docs/MEANING.md, "Rules and sites")
pub fn site_reads<L: Ledger>(
    alloc: Global,
    unit: &PreparedUnit,
    site: Site,
    state: &State,
    list: &mut SlotList,
    steps: &mut Steps<L>,
) -> Result<(), NoMemory>
    requires { IsStateOf unit.now state.now }
    ensures reads { OnOk result (list.new.items ≡ with_cells unit.now (run_of state.now) []
        (site_looks unit.now (seen_in unit.now (run_of state.now)) (site_of site))) }
    ensures short { OnErr result (list.old.room < length (with_cells unit.now (run_of state.now) []
        (site_looks unit.now (seen_in unit.now (run_of state.now)) (site_of site)))) }
    ensures room { list.old.room ≤ list.new.room }
    ensures cost { steps.new ≤ steps.old + length (open_looks unit.now
        (seen_in unit.now (run_of state.now)) (site_of site)) }
{
    list.clear();
    let Some(rule) = unit.rules().get(site.rule.0 as usize) else {
        return Ok(());
    };
    read_site(&Reader { alloc, unit, state }, site, *rule, list, steps)
}

/// Gathers the mark of the site, unless its rule is judged again each time, and where the mark has
/// not said yes, what is read to know what the rule asks.
fn read_site<L: Ledger>(
    reader: &Reader<'_>,
    site: Site,
    rule: Rule,
    list: &mut SlotList,
    steps: &mut Steps<L>,
) -> Result<(), NoMemory>
    ensures gathers { OnOk result (Gathers reader.now.unit.now (run_of reader.now.state.now)
        (looks_until_latched reader.now.unit.now
        (seen_in reader.now.unit.now (run_of reader.now.state.now))
        (site_of site) rule) list.old list.new) }
    ensures short { OnErr result (FallsShort reader.now.unit.now (run_of reader.now.state.now)
        (looks_until_latched reader.now.unit.now
        (seen_in reader.now.unit.now (run_of reader.now.state.now))
        (site_of site) rule) list.old) }
    ensures room { list.old.room ≤ list.new.room }
    ensures cost { steps.new ≤ steps.old + length (looks_by reader.now.unit.now
        (seen_in reader.now.unit.now (run_of reader.now.state.now)) (site_of site) rule) }
{
    if !says_for_good(rule) {
        return read_rule(reader, rule, site.owner, list, steps);
    }
    let mark = CellName::Mark(site.rule, site.owner);
    reader.put(mark, list)?;
    if says_yes(reader.state, mark, steps) {
        return Ok(());
    }
    read_rule(reader, rule, site.owner, list, steps)
}

/// Gathers what is read to know what the rule asks of the run or the person.
fn read_rule<L: Ledger>(
    reader: &Reader<'_>,
    rule: Rule,
    owner: Owner,
    list: &mut SlotList,
    steps: &mut Steps<L>,
) -> Result<(), NoMemory>
    ensures gathers { OnOk result (Gathers reader.now.unit.now (run_of reader.now.state.now)
        (rule_looks reader.now.unit.now
        (seen_in reader.now.unit.now (run_of reader.now.state.now)) owner rule) list.old list.new) }
    ensures short { OnErr result (FallsShort reader.now.unit.now (run_of reader.now.state.now)
        (rule_looks reader.now.unit.now
        (seen_in reader.now.unit.now (run_of reader.now.state.now)) owner rule) list.old) }
    ensures room { list.old.room ≤ list.new.room }
    ensures cost { steps.new ≤ steps.old + length (rule_looks reader.now.unit.now
        (seen_in reader.now.unit.now (run_of reader.now.state.now)) owner rule) }
{
    match owner {
        Owner::Run => read_for_run(reader, rule, list, steps),
        Owner::Person(person) => read_for_person(reader, rule, person, list, steps),
    }
}
