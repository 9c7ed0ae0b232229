//! The sites of a run: what one reads and does, and how all settle.
ghost use Rattle.std.specs.Prelude.{IfSome, OnOk, length, Contains};
ghost use Rattle.ld_firing.specs.RunSystem.{IsSoundRun};
ghost use Rattle.ld_names.specs.Rules.{sites_of};
ghost use Rattle.ld_rules.specs.SiteView.{site_of};
ghost use Rattle.ld_settling.specs.RunLinking.{AreCleanLinks, AreLinksOf};
ghost use Rattle.ld_sharing.specs.StoreView.{Serves};
ghost use Rattle.ld_state.specs.StateView.{IsStateOf, run_of};

use crate::begun::{Subject, begin, test};
use crate::units::check;
use ld_base::{Fired, RuleNo, Steps};
use ld_cascade::Settled;
use ld_firing::fire;
use ld_globals::Globals;
use ld_graph::SlotList;
use ld_model::{Owner, View};
use ld_names::RuleKind;
use ld_rules::judge::judge;
use ld_rules::{PreparedUnit, Site};
use ld_settling::{RunLinks, restore, settle, site_reads};
use ld_state::State;
use std::alloc::Global;
use std::sync::ledger::Ledger;
use std::test::Fail;

#[test]
fn sites_fire_and_settle(rt: HostRuntime) -> Result<(), Fail> {
    test(rt.alloc(), Subject::Sites)
}

/// Fires one site of a new run, and settles another run.
pub(crate) fn go<L: Ledger>(
    alloc: Global,
    unit: &PreparedUnit,
    globals: &Globals,
    steps: &mut Steps<L>,
) -> Result<(), Fail>
    requires serves { Serves globals.now unit.now }
{
    go_first(alloc, unit, globals, steps)?;
    go_all(alloc, unit, globals, steps)
}

/// Fires one site of a new run.
fn go_first<L: Ledger>(
    alloc: Global,
    unit: &PreparedUnit,
    globals: &Globals,
    steps: &mut Steps<L>,
) -> Result<(), Fail>
    requires serves { Serves globals.now unit.now }
{
    let mut state = begin(alloc, unit, globals, steps)?;
    check(fires(alloc, unit, &mut state, steps), "the act opens")
}

/// Whether the opening of the first act reads its mark alone, is due, and tells two cells.
fn fires<L: Ledger>(
    alloc: Global,
    unit: &PreparedUnit,
    state: &mut State,
    steps: &mut Steps<L>,
) -> bool
    requires own { IsStateOf unit.now state.old }
    requires sound { IsSoundRun unit.now (run_of state.old) }
{
    let Some(site) = opening(unit, state) else {
        return false;
    };
    if !reads_one(alloc, unit, site, state, steps) {
        return false;
    }
    let verdict = judge(unit, site, state, steps);
    let mut changed = Vec::new(alloc);
    let fired = fire(alloc, unit, site, verdict, state, &mut changed, steps);
    let nothing = Fired {
        rejected: 0,
        sent: 0,
    };
    verdict && fired == Ok(nothing) && changed.len() == 2
}

/// The site of the opening of the first act, whose rule is the second one.
fn opening(unit: &PreparedUnit, state: &State) -> Option<Site>
    ensures there { IfSome result (λ site.
        Contains (sites_of unit.now (length state.now.rows)) (site_of site)) }
{
    let Some(rule) = unit.rules().get(1) else {
        return None;
    };
    match rule.kind() {
        RuleKind::Run => Some(Site {
            rule: RuleNo(1),
            owner: Owner::Run,
        }),
        RuleKind::Person => None,
    }
}

/// Whether the site reads one slot.
fn reads_one<L: Ledger>(
    alloc: Global,
    unit: &PreparedUnit,
    site: Site,
    state: &State,
    steps: &mut Steps<L>,
) -> bool
    requires { IsStateOf unit.now state.now }
{
    let mut list = SlotList::new(alloc);
    let Ok(()) = site_reads(alloc, unit, site, state, &mut list, steps) else {
        return false;
    };
    list.len() == 1
}

/// Settles a new run.
fn go_all<L: Ledger>(
    alloc: Global,
    unit: &PreparedUnit,
    globals: &Globals,
    steps: &mut Steps<L>,
) -> Result<(), Fail>
    requires serves { Serves globals.now unit.now }
{
    let mut state = begin(alloc, unit, globals, steps)?;
    go_linked(alloc, unit, &mut state, steps)
}

/// Settles the run, with new links.
fn go_linked<L: Ledger>(
    alloc: Global,
    unit: &PreparedUnit,
    state: &mut State,
    steps: &mut Steps<L>,
) -> Result<(), Fail>
    requires own { IsStateOf unit.now state.old }
    requires sound { IsSoundRun unit.now (run_of state.old) }
{
    let mut links = RunLinks::new(alloc);
    links.begin();
    links.clear();
    go_with(alloc, unit, state, &mut links, steps)
}

/// Settles the run, all of whose sites are dirty: the first act opens.
fn go_with<L: Ledger>(
    alloc: Global,
    unit: &PreparedUnit,
    state: &mut State,
    links: &mut RunLinks,
    steps: &mut Steps<L>,
) -> Result<(), Fail>
    requires own { IsStateOf unit.now state.old }
    requires sound { IsSoundRun unit.now (run_of state.old) }
{
    links.renew(unit, state)?;
    settle_so(alloc, unit, state, links, 1, steps)?;
    go_restored(alloc, unit, state, links, steps);
    go_told(alloc, unit, state, links, steps)
}

/// Restores clean links: they stay clean.
fn go_restored<L: Ledger>(
    alloc: Global,
    unit: &PreparedUnit,
    state: &mut State,
    links: &mut RunLinks,
    steps: &mut Steps<L>,
)
    requires own { IsStateOf unit.now state.old }
    requires sound { IsSoundRun unit.now (run_of state.old) }
    requires clean { AreCleanLinks unit.now (run_of state.old) links.old }
    ensures own { IsStateOf unit.now state.new }
    ensures sound { IsSoundRun unit.now (run_of state.new) }
    ensures clean { AreCleanLinks unit.now (run_of state.new) links.new }
{
    links.begin();
    restore(alloc, unit, state, links, steps);
}

/// Settles the run after nothing is told: nothing fires.
fn go_told<L: Ledger>(
    alloc: Global,
    unit: &PreparedUnit,
    state: &mut State,
    links: &mut RunLinks,
    steps: &mut Steps<L>,
) -> Result<(), Fail>
    requires own { IsStateOf unit.now state.old }
    requires sound { IsSoundRun unit.now (run_of state.old) }
    requires clean { AreCleanLinks unit.now (run_of state.old) links.old }
{
    links.tell(&[]);
    settle_so(alloc, unit, state, links, 0, steps)?;
    go_joined(alloc, unit, state, links, steps)
}

/// Settles the run after it is told that no person joined: nothing fires.
fn go_joined<L: Ledger>(
    alloc: Global,
    unit: &PreparedUnit,
    state: &mut State,
    links: &mut RunLinks,
    steps: &mut Steps<L>,
) -> Result<(), Fail>
    requires own { IsStateOf unit.now state.old }
    requires sound { IsSoundRun unit.now (run_of state.old) }
    requires clean { AreCleanLinks unit.now (run_of state.old) links.old }
{
    links.tell_persons(unit, state, state.persons(), &[])?;
    settle_so(alloc, unit, state, links, 0, steps)
}

/// Settles the run, where this many sites fire, in one turn at most. It tells slots where one fires,
/// such as that of its mark, and else none. Its links are clean then.
fn settle_so<L: Ledger>(
    alloc: Global,
    unit: &PreparedUnit,
    state: &mut State,
    links: &mut RunLinks,
    fired: u32,
    steps: &mut Steps<L>,
) -> Result<(), Fail>
    requires own { IsStateOf unit.now state.old }
    requires sound { IsSoundRun unit.now (run_of state.old) }
    requires linked { AreLinksOf unit.now (run_of state.old) links.old }
    ensures own { IsStateOf unit.now state.new }
    ensures sound { OnOk result (IsSoundRun unit.now (run_of state.new)) }
    ensures clean { OnOk result (AreCleanLinks unit.now (run_of state.new) links.new) }
{
    let mut told = Vec::new(alloc);
    let settled = settle(alloc, unit, state, links, &mut told, steps)?;
    let wanted = Settled {
        turns: fired,
        fired: fired as u64,
        rejected: 0,
        sent: 0,
    };
    check(settled == wanted, "a settling")?;
    check(told.is_empty() == (fired == 0), "what a settling tells")
}
