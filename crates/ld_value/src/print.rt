//! Printing values.
#![tactic(auto, unfolding(crate::specs::Values::text_of), using(crate::proofs::Laws::printed_back))]

ghost use Rattle.std.specs.Prelude.{◌≡◌, ◌≤◌, ◌++◌, ℕ, List, length, Some, OnOk, OnErr, IsOk};
ghost use Rattle.ld_base.specs.Roomy.{KeepsRoom};
ghost use Rattle.ld_value.specs.declared.kind.Kind.{Kind};
ghost use Rattle.ld_value.specs.Datum.{datum_of};
ghost use Rattle.ld_value.specs.Values.{value_of, text_of, HasText};

use crate::duration::print_span;
use crate::integer::print_integer;
use crate::moment::print_moment;
use crate::value::Value;
use ld_base::{NoMemory, Text};

/// Appends the value's text; a moment lies in the years 1 to 9999. Where memory runs out the
/// bytes stay as they were, which cannot come within the spare room.
pub fn print_value(value: &Value, out: &mut Text) -> Result<(), NoMemory>
    requires { HasText (datum_of value.now) }
    ensures ok { OnOk result (out.new.bytes ≡ out.old.bytes ++ text_of (datum_of value.now)) }
    ensures err { OnErr result (out.new.bytes ≡ out.old.bytes) }
    ensures within { length (text_of (datum_of value.now)) ≤ out.old.spare → IsOk result }
    ensures room { KeepsRoom out.old out.new }

    // A value that was read from a text is read again from what is printed.
    ensures back { (kind : Kind) (text : List ℕ) → value_of kind text ≡ Some (datum_of value.now)
        → value_of kind (text_of (datum_of value.now)) ≡ Some (datum_of value.now) }
{
    match value {
        Value::Text(text) => out.push(text.as_str()),
        Value::Bool(true) => out.push("true"),
        Value::Bool(false) => out.push("false"),
        Value::Int(number) => out.push_ascii(print_integer(*number).as_bytes()),
        Value::Moment(moment) => out.push_ascii(&print_moment(*moment)),
        Value::Span(seconds) => out.push_ascii(print_span(*seconds).as_bytes()),
    }
}
