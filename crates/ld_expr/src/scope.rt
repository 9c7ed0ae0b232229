//! What terms and tests are asked in.
ghost use Rattle.std.specs.Prelude.{◌≡◌};
ghost use Rattle.ld_names.specs.Names.{names_of};

use ld_model::{Unit, View};
use ld_names::Names;

/// A view of a run, with its unit and the unit's names: all that the value of a term depends on but
/// for the owner. The owner is named at each call, as one walk may ask for many: whether a test
/// holds for the users in a role is asked for each member in turn. (docs/MEANING.md, "Terms and
/// tests")
#[derive(Drop)]
pub struct Scope<'a, V: View> {
    pub unit: &'a Unit,
    pub names: &'a Names,
    pub view: &'a V,
    ghost named: { names.now ≡ names_of unit.now },
}
