//! The settling of a run, and the restoring of its links.
ghost use Rattle.std.specs.Prelude.{◌≡◌, ◌+◌, ◌≤◌, ◌++◌, IfOk, IsOk, OnOk, Some, None};
ghost use Rattle.ld_cascade.specs.Settling.{all_firings, changes_of};
ghost use Rattle.ld_cascade.specs.Wiring.{IsEmpty};
ghost use Rattle.ld_cascade.specs.Work.{Spends, weight_of};
ghost use Rattle.ld_state.specs.StateView.{IsStateOf, run_of};
ghost use Rattle.ld_firing.specs.RunSettling.{run_settling};
ghost use Rattle.ld_firing.specs.RunSystem.{IsSoundRun, run_system};
ghost use Rattle.ld_firing.specs.SettledView.{settlement_of};
ghost use Rattle.ld_settling.specs.RunLinking.{AreCleanLinks, AreLinksOf, RunLinksFollow, RunWiring, linked_with};
ghost use Rattle.ld_settling.specs.SettlingTold.{TellsSlots};

use crate::links::RunLinks;
use crate::run_sites::RunSites;
use ld_base::Steps;
use ld_cascade::restore::restore as restore_cascade;
use ld_cascade::settle::settle as cascade;
use ld_cascade::{Links, Settled, Stop};
use ld_rules::PreparedUnit;
use ld_state::State;
use std::alloc::Global;
use std::sync::ledger::Ledger;

/// Settles the run: sweeps over its sites in their order, of which each fires those whose test and
/// mark differ, until a sweep fires nothing. Only dirty sites are judged, and those that read what
/// a firing changes. It answers `TurnBudget` exactly where one sweep more than the unit's turns
/// fires. After either error the state is another one of the same persons, with the same savepoint:
/// it has to be rolled back, and then the links by `restore`, or by `clear` where the run was not
/// started before. (docs/MEANING.md, "Firing, sweeping, settling")
pub fn settle<L: Ledger>(
    alloc: Global,
    unit: &PreparedUnit,
    state: &mut State,
    links: &mut RunLinks,
    changed: &mut Vec<u32>,
    steps: &mut Steps<L>,
) -> Result<Settled, Stop>
    requires own { IsStateOf unit.now state.old }
    requires sound { IsSoundRun unit.now (run_of state.old) }
    requires linked { AreLinksOf unit.now (run_of state.old) links.old }
    ensures settled { IfOk result (λ settled. run_settling unit.now (run_of state.old)
        ≡ Some (settlement_of settled (run_of state.new))) }
    ensures budget { result ≡ Err Stop.TurnBudget
        → run_settling unit.now (run_of state.old) ≡ None }
    ensures sound { OnOk result (IsSoundRun unit.now (run_of state.new)) }
    ensures clean { OnOk result (AreCleanLinks unit.now (run_of state.new) links.new) }
    ensures changed { OnOk result (changed.new.items ≡ changed.old.items
        ++ changes_of (run_system unit.now)
        (all_firings (run_system unit.now) (run_of state.old) unit.now.turns)) }
    ensures told { OnOk result (TellsSlots unit.now (run_of state.old) (run_of state.new)
        changed.old.items changed.new.items) }
    ensures idle { IsEmpty links.old.wiring.dirty → IsOk result }
    ensures own { IsStateOf unit.now state.new }
    ensures rows { state.new.rows ≡ state.old.rows }
    ensures kept { state.new.kept ≡ state.old.kept }
    ensures follows { RunLinksFollow links.old links.new }
    ensures sites { links.new.wiring.sites ≡ links.old.wiring.sites }
    ensures spends { Spends (run_system unit.now) (run_of state.old)
        (all_firings (run_system unit.now) (run_of state.old) unit.now.turns)
        links.old.wiring links.new.wiring steps.old steps.new }
{
    let mut sites = RunSites {
        alloc,
        unit,
        state,
        list: &mut links.list,
    };
    settle_sites(&mut sites, &mut links.links, changed, steps)
}

/// Settles the run of these sites. What they are lent stays so.
fn settle_sites<L: Ledger>(
    sites: &mut RunSites<'_>,
    links: &mut Links,
    changed: &mut Vec<u32>,
    steps: &mut Steps<L>,
) -> Result<Settled, Stop>
    requires own { IsStateOf sites.old.unit.now sites.old.state.now }
    requires sound { IsSoundRun sites.old.unit.now (run_of sites.old.state.now) }
    requires linked { AreLinksOf sites.old.unit.now (run_of sites.old.state.now)
        (linked_with links.old sites.old.list.now.room) }
    ensures settled { IfOk result (λ settled.
        run_settling sites.old.unit.now (run_of sites.old.state.now)
        ≡ Some (settlement_of settled (run_of sites.new.state.now))) }
    ensures budget { result ≡ Err Stop.TurnBudget
        → run_settling sites.old.unit.now (run_of sites.old.state.now) ≡ None }
    ensures sound { OnOk result (IsSoundRun sites.old.unit.now (run_of sites.new.state.now)) }
    ensures clean { OnOk result (AreCleanLinks sites.old.unit.now (run_of sites.new.state.now)
        (linked_with links.new sites.new.list.now.room)) }
    ensures changed { OnOk result (changed.new.items ≡ changed.old.items
        ++ changes_of (run_system sites.old.unit.now)
        (all_firings (run_system sites.old.unit.now) (run_of sites.old.state.now)
        sites.old.unit.now.turns)) }
    ensures told { OnOk result (TellsSlots sites.old.unit.now (run_of sites.old.state.now)
        (run_of sites.new.state.now) changed.old.items changed.new.items) }
    ensures idle { IsEmpty links.old.dirty → IsOk result }
    ensures own { IsStateOf sites.old.unit.now sites.new.state.now }
    ensures rows { sites.new.state.now.rows ≡ sites.old.state.now.rows }
    ensures kept { sites.new.state.now.kept ≡ sites.old.state.now.kept }
    ensures state { sites.new.state.ghost_name ≡ sites.old.state.ghost_name }
    ensures list { sites.new.list.ghost_name ≡ sites.old.list.ghost_name }
    ensures follows { RunLinksFollow (linked_with links.old sites.old.list.now.room)
        (linked_with links.new sites.new.list.now.room) }
    ensures sites { links.new.sites ≡ links.old.sites }
    ensures spends { Spends (run_system sites.old.unit.now) (run_of sites.old.state.now)
        (all_firings (run_system sites.old.unit.now) (run_of sites.old.state.now)
        sites.old.unit.now.turns) links.old links.new steps.old steps.new }
{
    let turns = sites.unit.unit().turns;
    cascade(sites, links, turns, changed, steps)
}

/// Makes the links those of the run as it was where they began, once its state was rolled back:
/// only the sites that were linked since then are asked for their reads. It takes no memory.
pub fn restore<L: Ledger>(
    alloc: Global,
    unit: &PreparedUnit,
    state: &mut State,
    links: &mut RunLinks,
    steps: &mut Steps<L>,
)
    requires own { IsStateOf unit.now state.old }
    requires sound { IsSoundRun unit.now (run_of state.old) }
    requires begun { (begun : RunWiring) × AreCleanLinks unit.now (run_of state.old) begun
        × RunLinksFollow begun links.old }
    ensures run { run_of state.new ≡ run_of state.old }
    ensures clean { AreCleanLinks unit.now (run_of state.new) links.new }
    ensures own { IsStateOf unit.now state.new }
    ensures rows { state.new.rows ≡ state.old.rows }
    ensures kept { state.new.kept ≡ state.old.kept }
    ensures ticks { steps.new ≤ steps.old + weight_of (run_system unit.now) (run_of state.old)
        links.old.wiring.sites links.old.wiring.relinked }
{
    let mut sites = RunSites {
        alloc,
        unit,
        state,
        list: &mut links.list,
    };
    restore_sites(&mut sites, &mut links.links, steps);
}

/// Makes the links those of the run of these sites. What they are lent stays so.
fn restore_sites<L: Ledger>(sites: &mut RunSites<'_>, links: &mut Links, steps: &mut Steps<L>)
    requires own { IsStateOf sites.old.unit.now sites.old.state.now }
    requires sound { IsSoundRun sites.old.unit.now (run_of sites.old.state.now) }
    requires begun { (begun : RunWiring)
        × AreCleanLinks sites.old.unit.now (run_of sites.old.state.now) begun
        × RunLinksFollow begun (linked_with links.old sites.old.list.now.room) }
    ensures run { run_of sites.new.state.now ≡ run_of sites.old.state.now }
    ensures clean { AreCleanLinks sites.old.unit.now (run_of sites.new.state.now)
        (linked_with links.new sites.new.list.now.room) }
    ensures own { IsStateOf sites.old.unit.now sites.new.state.now }
    ensures rows { sites.new.state.now.rows ≡ sites.old.state.now.rows }
    ensures kept { sites.new.state.now.kept ≡ sites.old.state.now.kept }
    ensures state { sites.new.state.ghost_name ≡ sites.old.state.ghost_name }
    ensures list { sites.new.list.ghost_name ≡ sites.old.list.ghost_name }
    ensures ticks { steps.new ≤ steps.old + weight_of (run_system sites.old.unit.now)
        (run_of sites.old.state.now) links.old.sites links.old.relinked }
{
    restore_cascade(sites, links, steps)
}
