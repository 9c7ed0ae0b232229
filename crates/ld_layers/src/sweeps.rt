//! What numbers of sites tell of a settling of any system. The functions do nothing: each is there
//! for what it ensures.
ghost use Rattle.std.specs.Prelude.{ℕ};
ghost use Rattle.ld_cascade.specs.Settling.{PassesBudget};
ghost use Rattle.ld_layers.specs.Ranked.{FiresInTime, IsAtMost, IsRanked};

use ld_cascade::sites::Sites;

/// From any situation a site with the number k fires in the sweeps 1 to k alone.
pub fn sites_fire_in_time<G: Sites>(_sites: &G)
    ensures { (rank : G.system.Situation → ℕ → ℕ) → IsRanked G.system rank
        → (s : G.system.Situation) → FiresInTime G.system rank s }
{}

/// Where no number is greater than the turns that it may take, no settling passes its budget.
pub fn settlings_end<G: Sites>(_sites: &G)
    ensures { (rank : G.system.Situation → ℕ → ℕ) (turns : ℕ) → IsRanked G.system rank
        → IsAtMost G.system rank turns → (s : G.system.Situation)
        → PassesBudget G.system s turns → ⊥ }
{}
