//! Texts of values.
ghost use Rattle.std.specs.Prelude.{◌≡◌, IfOk};
ghost use Rattle.ld_types.specs.TermFaults.{is_no_value};

use ld_base::{NoMemory, PlainText};
use ld_value::{Kind, ValueFault, read_value};
use std::alloc::Global;

/// Whether the text is no value of the datatype.
pub(crate) fn is_no_value(alloc: Global, kind: Kind, text: &PlainText) -> Result<bool, NoMemory>
    ensures { IfOk result (λ none. none ≡ is_no_value kind text.now) }
{
    match read_value(alloc, kind, text.as_str()) {
        Ok(_) => Ok(false),
        Err(ValueFault::BadValue) => Ok(true),
        Err(ValueFault::NoMemory) => Err(NoMemory),
    }
}
