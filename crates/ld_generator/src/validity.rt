//! That the generator's unit is valid.
ghost use Rattle.std.specs.Prelude.{◌≡◌};
ghost use Rattle.ld_generator.specs.GeneratedUnit.{generated_unit};
ghost use Rattle.ld_refs.specs.Checks.{IsValid};

use ld_model::Unit;

/// The generator's unit is valid. The function does nothing: it is there for what it ensures.
pub fn generated_unit_is_valid(unit: &Unit)
    requires { unit.now ≡ generated_unit }
    ensures { IsValid unit.now }
{}
