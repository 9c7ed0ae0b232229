//! Reading values from texts.
#![tactic(auto, unfolding(crate::specs::Values::truth_of, crate::specs::Values::value_of))]

ghost use Rattle.std.specs.Prelude.{◌≡◌, ◌↔◌, IsTrue, IfOk, IfSome, Some, None, Err, option_map, false};
ghost use Rattle.ld_value.specs.Datum.{datum_of};
ghost use Rattle.ld_value.specs.Values.{value_of, is_value, is_scalar, HasText, text_if as spec_text_if, truth_of};

use crate::duration::read_duration;
use crate::fault::ValueFault;
use crate::forms::{is_text, is_uri};
use crate::integer::read_integer;
use crate::kind::Kind;
use crate::moment::read_moment;
use crate::value::Value;
use ld_base::Text;
use std::alloc::Global;

/// The value that the text has as one of the datatype. `BadValue` comes exactly where it has none,
/// and `NoMemory` only where the value is a text.
pub fn read_value(alloc: Global, kind: Kind, text: &str) -> Result<Value, ValueFault>
    ensures ok { IfOk result (λ v. value_of kind text.now ≡ Some (datum_of v)) }
    ensures bad { (result ≡ Err ValueFault.BadValue) ↔ (value_of kind text.now ≡ None) }
    ensures memory { result ≡ Err ValueFault.NoMemory → is_scalar kind ≡ false }
    ensures sort { IfOk result (λ v. IsTrue (is_value kind (datum_of v))) }
    ensures printable { IfOk result (λ v. HasText (datum_of v)) }
{
    match kind {
        Kind::String | Kind::Text => text_if(alloc, is_text(text.as_bytes()), text),
        Kind::Uri => text_if(alloc, is_uri(text.as_bytes()), text),
        _ => read_scalar(kind, text).ok_or(ValueFault::BadValue),
    }
}

/// The text as a value, if it is one.
fn text_if(alloc: Global, good: bool, text: &str) -> Result<Value, ValueFault>
    ensures ok { IfOk result (λ v. spec_text_if good text.now ≡ Some (datum_of v)) }
    ensures bad { (result ≡ Err ValueFault.BadValue) ↔ (spec_text_if good text.now ≡ None) }
{
    if !good {
        return Err(ValueFault::BadValue);
    }
    Ok(Value::Text(Text::of(alloc, text)?))
}

/// The value that the text has as one of a datatype other than string, text and uri, whose values
/// take no memory; None exactly where it has none.
pub fn read_scalar(kind: Kind, text: &str) -> Option<Value>
    requires { IsTrue (is_scalar kind) }
    ensures value { option_map datum_of result ≡ value_of kind text.now }
    ensures sort { IfSome result (λ v. IsTrue (is_value kind (datum_of v))) }
    ensures printable { IfSome result (λ v. HasText (datum_of v)) }
{
    match kind {
        Kind::Boolean => Some(Value::Bool(read_truth(text)?)),
        Kind::Integer => Some(Value::Int(read_integer(text.as_bytes())?)),
        Kind::Datetime => Some(Value::Moment(read_moment(text)?)),
        Kind::Duration => Some(Value::Span(read_duration(text)?)),
        Kind::String | Kind::Text | Kind::Uri => unreachable!(),
    }
}

/// The truth value that the text names.
fn read_truth(text: &str) -> Option<bool>
    ensures { result ≡ truth_of text.now }
{
    match text {
        "true" => Some(true),
        "false" => Some(false),
        _ => None,
    }
}
