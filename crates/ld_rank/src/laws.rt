//! What a ranking of a unit's rules says of its runs. The functions do nothing: each is there for
//! what it ensures.
ghost use Rattle.std.specs.Prelude.{◌≡◌, ◌<◌, ◌≤◌, ◌↔◌, ℕ, List, Some, true, is_some, Contains};
ghost use Rattle.ld_cascade.specs.Settling.{Firing, PassesBudget, after_sweeps, sweep_firings};
ghost use Rattle.ld_model.specs.declared.unit.Unit.{Unit};
ghost use Rattle.ld_names.specs.Rules.{Site};
ghost use Rattle.ld_refs.specs.Checks.{IsValid};
ghost use Rattle.ld_state.specs.RunState.{RunState};
ghost use Rattle.ld_firing.specs.RunSettling.{run_settling};
ghost use Rattle.ld_firing.specs.RunSystem.{run_system, site_at};
ghost use Rattle.ld_rank.specs.Alone.{feeds_between};
ghost use Rattle.ld_rank.specs.Feeding.{Feeds};
ghost use Rattle.ld_rank.specs.Ranking.{IsRanking, depth_of, rank_at};

/// From any state a rule with the number k fires in the sweeps 1 to k alone.
pub fn rules_fire_in_time()
    ensures { (unit : Unit) (ranks : List ℕ) → IsValid unit → IsRanking unit ranks
        → (s : RunState) (sweeps : ℕ) (f : Firing (run_system unit)) (site : Site)
        → Contains (sweep_firings (run_system unit) (after_sweeps (run_system unit) s sweeps)) f
        → site_at unit f.before f.site ≡ Some site → sweeps < rank_at ranks site.rule }
{}

/// Where the depth of a ranking is at most the unit's turns, no settling from any state passes the
/// budget.
pub fn ranked_runs_never_pass()
    ensures { (unit : Unit) (ranks : List ℕ) → IsValid unit → IsRanking unit ranks
        → depth_of ranks ≤ unit.turns → (s : RunState)
        → PassesBudget (run_system unit) s unit.turns → ⊥ }
{}

/// So each settling gives a settled state.
pub fn ranked_runs_settle()
    ensures { (unit : Unit) (ranks : List ℕ) → IsValid unit → IsRanking unit ranks
        → depth_of ranks ≤ unit.turns → (s : RunState) → is_some (run_settling unit s) ≡ true }
{}

/// One rule feeds another exactly where it does in a run of one person who holds every role.
pub fn feeding_is_decided()
    ensures { (unit : Unit) (a b : ℕ) → (feeds_between unit a b ≡ true) ↔ Feeds unit a b }
{}
