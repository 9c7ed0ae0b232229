//! The links of a run.
ghost use Rattle.std.specs.Prelude.{◌≡◌, ◌≤◌, ◌<◌, ◌⊎◌, ◌↔◌, ℕ, true, [], is_some, length, Contains, OnOk};
ghost use Rattle.ld_graph.specs.Edges.{IsLinked};
ghost use Rattle.ld_graph.specs.Slots.{AreDistinct};
ghost use Rattle.ld_graph.specs.Table.{has};
ghost use Rattle.ld_cascade.specs.Wiring.{IsEmpty, IsSameTable};
ghost use Rattle.ld_names.specs.SiteNumbers.{site_count};
ghost use Rattle.ld_roles.specs.declared.limit.TheConstants.{SEATS};
ghost use Rattle.ld_model.specs.declared.unit.Unit.{Unit};
ghost use Rattle.ld_state.specs.RunState.{RunState};
ghost use Rattle.ld_state.specs.StateView.{IsStateOf, run_of};
ghost use Rattle.ld_firing.specs.RunSystem.{IsSoundRun, run_system, site_at};
ghost use Rattle.ld_firing.specs.Telling.{Tells, TellsPersons};
ghost use Rattle.ld_settling.specs.RunLinking.{AreBare, AreCleanLinks, AreDirty, AreLinksOf, AreNewcomers, IsNewcomer, Loosens, RunLinksFollow};
ghost use Rattle.ld_settling.specs.SiteParts.{IsAmong};

use crate::site_numbers::{Numbers, SiteNumbers};
use ld_base::NoMemory;
use ld_cascade::Links;
use ld_graph::SlotList;
use ld_graph::readers::Readers;
use ld_model::View;
use ld_rules::PreparedUnit;
use ld_state::State;
use std::alloc::Global;
use std::marker::Model;

/// Which of a run's sites read which slots, and which are dirty: to be judged at the next settling.
/// With them stands the list that lends a site's reads: its room is enough to restore the links
/// without memory. A run that is not started keeps no edge. (docs/MEANING.md, "Firing, sweeping,
/// settling")
#[derive(Drop)]
pub struct RunLinks {
    pub(crate) links: Links,
    pub(crate) list: SlotList,
}

impl Model for RunLinks {
    ghost use Rattle.ld_settling.specs.RunLinking.{RunWiring};

    ghost Value = { RunWiring };

    ghost view = { λ s. record { wiring = s.links; room = s.list.room } };
}

impl RunLinks {
    /// The links of a run that is not started: no site and no slot is in range, which takes no
    /// memory.
    pub fn new(alloc: Global) -> RunLinks
        ensures bare { AreBare result }
        ensures sites { result.wiring.sites ≡ 0 }
        ensures slots { result.wiring.edges.slots ≡ 0 }
    {
        RunLinks {
            links: Links::new(alloc),
            list: SlotList::new(alloc),
        }
    }

    /// The numbers of the sites that read the slot, each once, in no stated order. It costs what it
    /// gives. (`site_of_number` gives the sites themselves.)
    pub fn readers(&self, slot: u32) -> Readers<'_>
        requires slot { slot < self.now.wiring.edges.slots }
        ensures sites { (unit : Unit) (s : RunState) → AreCleanLinks unit s self.now → (i : ℕ)
            → Contains result i ↔ Contains ((run_system unit).reads s i) slot }
        ensures there { (unit : Unit) (s : RunState) → AreCleanLinks unit s self.now → (i : ℕ)
            → Contains result i → is_some (site_at unit s i) ≡ true }
        ensures once { AreDistinct result }
    {
        self.links.readers(slot)
    }

    /// Sets the sites dirty that read one of the slots. Where these are told of all that changed
    /// from one state of the run to another, the links are those of the other state then. It takes
    /// no memory.
    pub fn tell(&mut self, changed: &[u32])
        requires told { (unit : Unit) × (s : RunState) × (t : RunState)
            × AreLinksOf unit s self.old × Tells unit s t [] changed.now }
        ensures linked { (unit : Unit) (s t : RunState) → IsSoundRun unit s → IsSoundRun unit t
            → AreLinksOf unit s self.old → Tells unit s t [] changed.now
            → AreLinksOf unit t self.new }
        ensures only { (i : ℕ) → has self.new.wiring.dirty i ≡ true
            → (has self.old.wiring.dirty i ≡ true)
            ⊎ ((k : ℕ) × Contains changed.now k × IsLinked self.old.wiring.edges k i) }
        ensures same_relinked { self.new.wiring.relinked ≡ self.old.wiring.relinked }
        ensures sites { self.new.wiring.sites ≡ self.old.wiring.sites }
        ensures follows { RunLinksFollow self.old self.new }
    {
        self.links.touch_all(changed);
    }

    /// Sets the sites dirty that read one of the slots, and those of the persons who joined, of
    /// which there were this many before, and no others; the reads of all these are asked again.
    /// Where the slots report all that changed from one state of the run to this one, as persons
    /// joined or got or lost roles, the links are those of this state then. After an error, which
    /// is out of memory, no range is smaller.
    pub fn tell_persons(
        &mut self,
        unit: &PreparedUnit,
        state: &State,
        before: u32,
        changed: &[u32],
    ) -> Result<(), NoMemory>
        requires own { IsStateOf unit.now state.now }
        requires sound { IsSoundRun unit.now (run_of state.now) }
        requires told { (s : RunState) × (length s.persons ≡ before) × IsSoundRun unit.now s
            × AreLinksOf unit.now s self.old
            × TellsPersons unit.now s (run_of state.now) changed.now }
        ensures linked { OnOk result (AreLinksOf unit.now (run_of state.now) self.new) }
        ensures only { (i : ℕ) → has self.new.wiring.dirty i ≡ true
            → (has self.old.wiring.dirty i ≡ true)
            ⊎ (((k : ℕ) × Contains changed.now k × IsLinked self.old.wiring.edges k i)
            ⊎ IsNewcomer unit.now before (length (run_of state.now).persons) i) }
        ensures same_relinked { (i : ℕ) → has self.new.wiring.relinked i ≡ has self.old.wiring.relinked i }
        ensures follows { RunLinksFollow self.old self.new }
    {
        let numbers = SiteNumbers { unit };
        self.links.grow(state.slot_count(), numbers.count())?;
        self.links.loosen_readers(changed);
        loosen_newcomers(&mut self.links, &numbers, before, state.persons());
        Ok(())
    }

    /// Empties the table of the sites that were linked: call it where the state keeps a savepoint.
    /// Clean links stay clean, and bare ones bare.
    pub fn begin(&mut self)
        ensures clean { (unit : Unit) (s : RunState) → AreCleanLinks unit s self.old
            → AreCleanLinks unit s self.new }
        ensures bare { AreBare self.old → AreBare self.new }
        ensures relinked { IsEmpty self.new.wiring.relinked }
        ensures sites { self.new.wiring.sites ≡ self.old.wiring.sites }
    {
        self.links.begin();
    }

    /// Leaves no edge and no dirty site: a run that is not started keeps none. It takes no memory.
    pub fn clear(&mut self)
        ensures bare { AreBare self.new }
        ensures room { self.new.room ≡ self.old.room }
    {
        self.links.clear();
    }

    /// Takes all edges away and sets all sites of the run dirty, however many it has got. After an
    /// error, which is out of memory, nothing is said of the links.
    pub fn renew(&mut self, unit: &PreparedUnit, state: &State) -> Result<(), NoMemory>
        requires own { IsStateOf unit.now state.now }
        requires sound { IsSoundRun unit.now (run_of state.now) }
        ensures linked { OnOk result (AreLinksOf unit.now (run_of state.now) self.new) }
        ensures none_relinked { IsEmpty self.new.wiring.relinked }
    {
        let numbers = SiteNumbers { unit };
        // First, since a run that starts has no site in range yet.
        self.links.clear();
        self.links.grow(state.slot_count(), numbers.count())?;
        set_all_dirty(&mut self.links, &numbers, state.persons());
        Ok(())
    }
}

/// Sets all sites of a run with this many persons dirty and loose.
fn set_all_dirty(links: &mut Links, numbers: &SiteNumbers<'_>, persons: u32)
    requires same { IsSameTable links.old.dirty links.old.loose }
    requires seats { persons ≤ SEATS }
    requires range { site_count numbers.now.unit.now SEATS ≤ links.old.sites }
    ensures dirty { AreDirty links.new.dirty numbers.now.unit.now persons }
    ensures loose { IsSameTable links.new.dirty links.new.loose }
    ensures rest { Loosens links.old links.new }
{
    let rules = numbers.rules();
    for rule in 0..rules {
        set_dirty(links, numbers.of_rule(rule, persons));
    }
}

/// Sets the sites dirty and loose that came with the persons from one on and below another.
fn loosen_newcomers(links: &mut Links, numbers: &SiteNumbers<'_>, from: u32, below: u32)
    requires order { from ≤ below }
    requires seats { below ≤ SEATS }
    requires range { site_count numbers.now.unit.now SEATS ≤ links.old.sites }
    ensures dirty { AreNewcomers numbers.now.unit.now links.new.dirty from below }
    ensures loose { AreNewcomers numbers.now.unit.now links.new.loose from below }
    ensures only { (i : ℕ) → has links.new.dirty i ≡ true
        → (has links.old.dirty i ≡ true) ⊎ IsNewcomer numbers.now.unit.now from below i }
    ensures rest { Loosens links.old links.new }
{
    let rules = numbers.rules();
    for rule in 0..rules {
        set_dirty(links, numbers.newcomers(rule, from, below));
    }
}

/// Sets the sites of these numbers dirty, and loose.
fn set_dirty(links: &mut Links, numbers: Numbers)
    requires range { numbers.below ≤ links.old.sites }
    ensures dirty { (i : ℕ) → IsAmong numbers i → has links.new.dirty i ≡ true }
    ensures loosened { (i : ℕ) → IsAmong numbers i → has links.new.loose i ≡ true }
    ensures only { (i : ℕ) → has links.new.dirty i ≡ true
        → (has links.old.dirty i ≡ true) ⊎ IsAmong numbers i }
    ensures rest { Loosens links.old links.new }
    ensures loose { IsSameTable links.old.dirty links.old.loose
        → IsSameTable links.new.dirty links.new.loose }
{
    for number in numbers.from..numbers.below {
        links.fresh(number);
    }
}
