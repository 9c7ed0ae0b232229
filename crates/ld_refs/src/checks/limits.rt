//! The checks of the limits on what a unit may have.
#![tactic(auto, unfolding(crate::specs::Bounds::count_faults, crate::specs::Bounds::object_limit_faults), using(ld_json::proofs::First::first_of_both))]

ghost use Rattle.std.specs.Prelude.{◌≡◌, ◌≤◌, [], IfErr, IfOk, OnOk, false, length};
ghost use Rattle.ld_json.specs.Fault.{Says, SaysFirst};
ghost use Rattle.ld_parts.specs.Listing.{method_at};
ghost use Rattle.ld_walk.specs.PartView.{what_of};
ghost use Rattle.ld_walk.specs.Places.{fault_at};
ghost use Rattle.ld_refs.specs.Bounds.{beyond, count_faults, declares, is_counted, is_leaf, leaves_in, object_limit_faults, over};

use ld_json::{Code, FileNo, ReadFault};
use ld_names::Names;
use ld_parts::Listing;
use ld_walk::{Kind, Place, Spot, What};
use std::alloc::Global;

/// What is counted together.
#[derive(Clone, Copy, PartialEq, Eq)]
pub(crate) enum Counted {
    Roles,
    Properties,
    Environments,
    ObjectsAndServices,
    Items,
    ActivitiesAndStructures,
}

impl Counted {
    /// Whether it is an object that is counted.
    fn counts(self, what: What<'_>) -> bool
        ensures { result ≡ declares (is_counted self) (what_of what.entry) }
    {
        match what {
            What::Declares(Kind::Role, _, _) => self == Counted::Roles,
            What::Declares(Kind::Property, _, _) => self == Counted::Properties,
            What::Declares(Kind::Thing(place), _, _) => self.counts_thing(place),
            _ => false,
        }
    }

    /// Whether the thing at the place is counted.
    fn counts_thing(self, place: Place) -> bool
        ensures { result ≡ is_counted self (Kind.Thing place) }
    {
        match place {
            Place::Environment(_) => self == Counted::Environments,
            Place::Object(_, _) | Place::Service(_, _) => self == Counted::ObjectsAndServices,
            Place::Item => self == Counted::Items,
            Place::Activity(_) | Place::Structure(_) => self == Counted::ActivitiesAndStructures,
            Place::Play(_) | Place::Act(_, _) | Place::RolePart(_, _, _) => false,
        }
    }
}

/// That the objects keep to their limits.
pub(crate) fn check_objects(alloc: Global, listing: &Listing<'_>) -> Result<(), ReadFault>
    ensures faultless { OnOk result (object_limit_faults listing.now ≡ []) }
    ensures first { IfErr result (SaysFirst (object_limit_faults listing.now)) }
{
    check_limit(alloc, 60, Counted::Roles, listing)?;
    check_limit(alloc, 300, Counted::Properties, listing)?;
    check_limit(alloc, 400, Counted::Environments, listing)?;
    check_limit(alloc, 1_000, Counted::ObjectsAndServices, listing)?;
    check_limit(alloc, 4_000, Counted::Items, listing)?;
    check_limit(alloc, 400, Counted::ActivitiesAndStructures, listing)?;
    Ok(())
}

/// That there are at most this many of what is counted.
fn check_limit(
    alloc: Global,
    limit: usize,
    counted: Counted,
    listing: &Listing<'_>,
) -> Result<(), ReadFault>
    ensures faultless { OnOk result (beyond limit (is_counted counted) listing.now ≡ []) }
    ensures first { IfErr result (SaysFirst (beyond limit (is_counted counted) listing.now)) }
{
    let mut left = limit;
    for index in 0..listing.len() {
        if !counted.counts(listing.what(index)) {
            continue;
        }
        if left == 0 {
            return Err(listing.spot(index).fault(alloc, Code::TooMany));
        }
        left -= 1;
    }
    Ok(())
}

/// That rules and leaves keep to their limits; the number of leaves.
pub(crate) fn check_counts(
    alloc: Global,
    names: &Names,
    listing: &Listing<'_>,
) -> Result<u32, ReadFault>
    ensures few_rules { OnOk result (length names.now.rules ≤ 600) }
    ensures leaves { IfOk result (λ leaves. leaves ≡ leaves_in false listing.now) }
    ensures faultless { OnOk result (count_faults names.now listing.now ≡ []) }
    ensures first { IfErr result (SaysFirst (count_faults names.now listing.now)) }
{
    check_over(alloc, 600, names.rules().len())?;
    let leaves = count_leaves(listing, false);
    check_over(alloc, 4_000, leaves)?;
    check_over(alloc, 100, count_leaves(listing, true))?;
    Ok(leaves as u32)
}

/// That the unit has no more than `limit`.
fn check_over(alloc: Global, limit: usize, count: usize) -> Result<(), ReadFault>
    ensures within { OnOk result (count ≤ limit) }
    ensures faultless { OnOk result (over limit count ≡ []) }
    ensures first { IfErr result (SaysFirst (over limit count)) }
{
    if count > limit {
        return Err(method_fault(alloc, Code::TooMany));
    }
    Ok(())
}

/// The refusal that the method has the fault of this code, or `NoMemory`.
pub(crate) fn method_fault(alloc: Global, code: Code) -> ReadFault
    ensures { Says (fault_at code method_at) result }
{
    let unit = Spot::whole(FileNo::Unit);
    unit.member("method").fault(alloc, code)
}

/// The number of leaves; if so asked, only of those that are asked of each member of a role.
fn count_leaves(listing: &Listing<'_>, of_members_only: bool) -> usize
    ensures { result ≡ leaves_in of_members_only listing.now }
{
    let mut count = 0;
    for index in 0..listing.len() {
        if is_leaf(listing.what(index), of_members_only) {
            count += 1;
        }
    }
    count
}

/// Whether it is a leaf; if so asked, one that is asked of each member of a role.
fn is_leaf(what: What<'_>, of_members_only: bool) -> bool
    ensures { result ≡ is_leaf of_members_only (what_of what.entry) }
{
    match what {
        What::Leaf(of_members) => !of_members_only || of_members,
        _ => false,
    }
}
