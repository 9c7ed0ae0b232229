//! Checks that look at one part of a unit after another.
ghost use Rattle.std.specs.Prelude.{◌≡◌, [], IfErr, OnOk, flat_map};
ghost use Rattle.ld_json.specs.Fault.{SaysFirst};

use ld_json::ReadFault;
use ld_model::Level;
use ld_parts::Listing;
use ld_walk::{Spot, What};
use std::alloc::Global;

/// A check that looks at one part alone.
pub(crate) trait PartCheck {
    ghost use Rattle.std.specs.Prelude.{◌≡◌, List, [], IfErr, OnOk};
    ghost use Rattle.ld_json.specs.Fault.{SaysFirst, Told};
    ghost use Rattle.ld_walk.specs.Parts.{Part};
    ghost use Rattle.ld_refs.specs.Seen.{part_seen};

    ghost faults: { Self → Part → List Told };

    /// That what stands at the place has no fault.
    fn check(
        &self,
        alloc: Global,
        at: &Spot<'_>,
        level: Level,
        what: What<'_>,
    ) -> Result<(), ReadFault>
        ensures faultless { OnOk result (faults self.now (part_seen at.now level what.entry) ≡ []) }
        ensures first { IfErr result
            (SaysFirst (faults self.now (part_seen at.now level what.entry))) };
}

/// That no part has a fault.
pub(crate) fn check_each<C: PartCheck>(
    alloc: Global,
    check: &C,
    listing: &Listing<'_>,
) -> Result<(), ReadFault>
    ensures faultless { OnOk result (flat_map (C.faults check.now) listing.now ≡ []) }
    ensures first { IfErr result (SaysFirst (flat_map (C.faults check.now) listing.now)) }
{
    for index in 0..listing.len() {
        let at = listing.spot(index);
        check.check(alloc, &at, listing.level(index), listing.what(index))?;
    }
    Ok(())
}
