//! A ranked unit keeps its budget. The function does nothing: it is there for what it ensures.
ghost use Rattle.std.specs.Prelude.{◌≡◌, ◌≤◌, ℕ, ℤ, List, Err};
ghost use Rattle.ld_admission.specs.Refusals.{TurnBudget};
ghost use Rattle.ld_lines.specs.declared.command.RunCommand.{RunCommand};
ghost use Rattle.ld_model.specs.declared.unit.Unit.{Unit};
ghost use Rattle.ld_rank.specs.Ranking.{IsRanking, depth_of};
ghost use Rattle.ld_refs.specs.Checks.{IsValid};
ghost use Rattle.ld_run.specs.RunStep.{run_step};
ghost use Rattle.ld_state.specs.GlobalValues.{GlobalValues};
ghost use Rattle.ld_state.specs.RunState.{RunState};

/// Where the depth of a ranking is at most the unit's turns, no command of any run is refused for
/// passing the budget, from whatever state and store. (docs/RANKS.md, "What a rank means")
pub fn ranked_units_keep_their_budget()
    ensures { (unit : Unit) (ranks : List ℕ) → IsValid unit → IsRanking unit ranks
        → depth_of ranks ≤ unit.turns → (s : RunState) (store : GlobalValues) (moment : ℤ)
        → (asked : RunCommand) → run_step unit s store moment asked ≡ Err TurnBudget → ⊥ }
{}
