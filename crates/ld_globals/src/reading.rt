//! Reading the value that a key is to be set to.
ghost use Rattle.std.specs.Prelude.{◌≡◌, Ok, Err, IfOk, IfErr, is_some};
ghost use Rattle.ld_value.specs.Datum.{datum_of};
ghost use Rattle.ld_globals.specs.Kept.{read_in};
ghost use Rattle.ld_globals.specs.Store.{IsRefused};

use crate::declared::{Declared, suits};
use crate::faults::SetFault;
use ld_base::Id;
use ld_value::fits::fits;
use ld_value::{Value, ValueFault, read_value};
use std::alloc::Global;

/// The value of the text for a key that is declared so, if it may be set to it.
pub(crate) fn read_declared(
    alloc: Global,
    declared: &Declared,
    person: Option<&Id>,
    text: &str,
) -> Result<Value, SetFault>
    ensures ok { IfOk result (λ v. read_in declared.now (is_some person.entry) text.now
        ≡ Ok (datum_of v)) }
    ensures refused { IfErr result (IsRefused (read_in declared.now (is_some person.entry)
        text.now)) }
{
    let value = match read_value(alloc, declared.datatype, text) {
        Ok(value) => value,
        Err(ValueFault::BadValue) => return Err(SetFault::BadValue),
        Err(ValueFault::NoMemory) => return Err(SetFault::NoMemory),
    };
    if !fits(declared.datatype, &declared.limits, &value) {
        return Err(SetFault::BadValue);
    }
    if !suits(declared.kind, person) {
        return Err(SetFault::NotAllowed);
    }
    Ok(value)
}
