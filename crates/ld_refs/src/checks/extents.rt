//! The check of sizes: what the role-parts of a unit and the unit expand to.
#![tactic(auto, unfolding(crate::specs::Extents::size_faults), using(ld_json::proofs::First::first_of_both))]

ghost use Rattle.std.specs.Prelude.{◌≡◌, [], IfErr, OnOk, min, option_copied};
ghost use Rattle.ld_json.specs.Fault.{SaysFirst};
ghost use Rattle.ld_walk.specs.PartView.{what_of};
ghost use Rattle.ld_refs.specs.Edges.{edges_of};
ghost use Rattle.ld_refs.specs.Extents.{is_role_part, part_size, size_counted, size_faults, size_faults_with, size_in, unit_size, unit_size_faults, feedback_size};
ghost use Rattle.ld_refs.specs.Reaching.{environment_graph, structure_graph};
ghost use Rattle.ld_refs.specs.SizeView.{sizes_by};

use crate::checks::cycles::Graphs;
use crate::checks::each::{PartCheck, check_each};
use crate::checks::limits::method_fault;
use crate::checks::sizes::{Sizes, add, feedback_size};
use crate::checks::targets::kind_of;
use crate::method::{act_at, play_at, role_part_at};
use ld_json::{Code, ReadFault};
use ld_model::{Level, OnCompletion, RolePart, Unit};
use ld_names::Names;
use ld_parts::Listing;
use ld_walk::{Kind, Place, Spot, What};
use std::alloc::Global;

/// The greatest size of a role-part.
const PART_LIMIT: u64 = 20_000;

/// The greatest size of a unit.
const UNIT_LIMIT: u64 = 200_000;

/// That no role-part of the unit expands to more than its limit, nor the unit to more than its own,
/// where these are the names, the graphs and the parts of the unit.
pub(crate) fn check_extents(
    alloc: Global,
    unit: &Unit,
    names: &Names,
    graphs: &Graphs,
    listing: &Listing<'_>,
) -> Result<(), ReadFault>
    requires environments { edges_of graphs.now.environments.items
        ≡ environment_graph unit.now names.now }
    requires structures { edges_of graphs.now.structures.items
        ≡ structure_graph unit.now names.now }
    ensures faultless { OnOk result (size_faults unit.now names.now listing.now ≡ []) }
    ensures first { IfErr result (SaysFirst (size_faults unit.now names.now listing.now)) }
{
    let sizes = Sizes::of(alloc, unit, names, graphs)?;
    let measure = Measure {
        unit,
        names,
        sizes: &sizes,
    };
    measure.check_all(alloc, listing)?;
    Ok(())
}

/// What the parts of a unit expand to.
#[derive(Clone, Copy)]
struct Measure<'a> {
    unit: &'a Unit,
    names: &'a Names,
    sizes: &'a Sizes,
}

impl<'a> Measure<'a> {
    /// That no role-part is too big, and the unit is not.
    fn check_all(&self, alloc: Global, listing: &Listing<'_>) -> Result<(), ReadFault>
        ensures faultless { OnOk result
            (size_faults_with self.now.unit.now (sizes_by self.now.sizes.now)
            self.now.names.now listing.now ≡ []) }
        ensures first { IfErr result (SaysFirst (size_faults_with self.now.unit.now
            (sizes_by self.now.sizes.now) self.now.names.now listing.now)) }
    {
        check_each(alloc, self, listing)?;
        self.check_unit(alloc, listing)?;
        Ok(())
    }

    /// That the unit is not too big.
    fn check_unit(&self, alloc: Global, listing: &Listing<'_>) -> Result<(), ReadFault>
        ensures faultless { OnOk result (unit_size_faults (unit_size self.now.unit.now
            (sizes_by self.now.sizes.now) self.now.names.now listing.now) ≡ []) }
        ensures first { IfErr result (SaysFirst (unit_size_faults (unit_size self.now.unit.now
            (sizes_by self.now.sizes.now) self.now.names.now listing.now))) }
    {
        if self.unit_size(listing) > UNIT_LIMIT {
            return Err(method_fault(alloc, Code::TooBig));
        }
        Ok(())
    }

    /// The size of the unit, or a million where that is less.
    fn unit_size(&self, listing: &Listing<'_>) -> u64
        ensures { result ≡ min 1000000 (unit_size self.now.unit.now (sizes_by self.now.sizes.now)
            self.now.names.now listing.now) }
    {
        let mut sum = 0;
        for index in 0..listing.len() {
            sum = add(sum, self.size_in(listing.what(index)));
        }
        sum
    }

    /// What it counts in the size of the unit.
    fn size_in(&self, what: What<'_>) -> u64
        ensures { result ≡ min 1000000 (size_in self.now.unit.now (sizes_by self.now.sizes.now)
            self.now.names.now (what_of what.entry)) }
    {
        match what {
            What::Declares(kind, _, _) => self.size_counted(kind),
            _ => 0,
        }
    }

    /// What an object of this kind counts.
    fn size_counted(&self, kind: Kind) -> u64
        ensures { result ≡ min 1000000 (size_counted self.now.unit.now (sizes_by self.now.sizes.now)
            self.now.names.now kind) }
    {
        match kind {
            Kind::Thing(Place::RolePart(p, a, r)) => self.part_size(role_part_at(
                self.unit, p, a, r,
            )),
            Kind::Thing(Place::Act(p, a)) => match act_at(self.unit, p, a) {
                Some(act) => feedback(&act.on_completion),
                None => 0,
            },
            Kind::Thing(Place::Play(p)) => match play_at(self.unit, p) {
                Some(play) => feedback(&play.on_completion),
                None => 0,
            },
            Kind::Unit => feedback(&self.unit.method.on_completion),
            _ => 0,
        }
    }

    /// The role-part with what it names.
    fn part_size(&self, part: Option<&RolePart>) -> u64
        ensures { result ≡ min 1000000 (part_size (sizes_by self.now.sizes.now) self.now.names.now
            (option_copied part.entry)) }
    {
        match part {
            Some(part) => add(1, self.sizes.size_of(kind_of(self.names, &part.target))),
            None => 0,
        }
    }
}

/// The feedback on a completion, or a million where that is less.
fn feedback(follows: &Option<OnCompletion>) -> u64
    ensures { result ≡ min 1000000 (feedback_size follows.now) }
{
    add(0, feedback_size(follows))
}

impl<'a> PartCheck for Measure<'a> {
    ghost use Rattle.ld_refs.specs.Extents.{part_size_faults};
    ghost use Rattle.ld_refs.specs.SizeView.{sizes_by};

    ghost faults = { λ s. part_size_faults s.unit.now (sizes_by s.sizes.now) s.names.now };

    fn check(
        &self,
        alloc: Global,
        at: &Spot<'_>,
        _level: Level,
        what: What<'_>,
    ) -> Result<(), ReadFault> {
        if is_role_part(what) && self.size_in(what) > PART_LIMIT {
            return Err(at.fault(alloc, Code::TooBig));
        }
        Ok(())
    }
}

/// Whether it is a role-part.
fn is_role_part(what: What<'_>) -> bool
    ensures { result ≡ is_role_part (what_of what.entry) }
{
    match what {
        What::Declares(Kind::Thing(Place::RolePart(_, _, _)), _, _) => true,
        _ => false,
    }
}
