//! What the checks of a unit are good for. The function does nothing: it is there for what it
//! ensures.
ghost use Rattle.std.specs.Prelude.{All};
ghost use Rattle.ld_refs.specs.Checks.{IsValid};
ghost use Rattle.ld_refs.specs.ValuesKept.{KeepsValues};

use ld_model::Unit;

/// In a valid unit each text that is to be a value is one: the names of the unit lose no initial
/// value, no bound and no listed value. The body is empty: the law is about the definitions, and
/// holds for all units.
pub fn no_value_is_lost(unit: &Unit)
    ensures { IsValid unit.now → All KeepsValues unit.now.properties }
{}
