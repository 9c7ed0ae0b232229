//! A value of a property, of whatever datatype.
ghost use Rattle.std.specs.Prelude.{◌≡◌, ◌↔◌, IsTrue, IfOk, OnErr};
ghost use Rattle.ld_value.specs.Datum.{datum_of, same_datum, is_text_datum};

use crate::moment::Moment;
use ld_base::{NoMemory, Text};
use std::alloc::Global;

/// A value: a text (of the datatypes string, text and uri), a truth value, a whole number, a moment
/// or a span of seconds (of the datatype duration).
#[derive(Drop)]
pub enum Value {
    Text(Text),
    Bool(bool),
    Int(i64),
    Moment(Moment),
    Span(u64),
}

impl Value {
    /// The same value once more. Only the copy of a text takes memory.
    pub fn copy(&self, alloc: Global) -> Result<Value, NoMemory>
        ensures ok { IfOk result (λ v. datum_of v ≡ datum_of self.now) }
        ensures memory { OnErr result (IsTrue (is_text_datum (datum_of self.now))) }
    {
        match self {
            Value::Text(text) => Ok(Value::Text(Text::of(alloc, text.as_str())?)),
            Value::Bool(truth) => Ok(Value::Bool(*truth)),
            Value::Int(number) => Ok(Value::Int(*number)),
            Value::Moment(moment) => Ok(Value::Moment(*moment)),
            Value::Span(seconds) => Ok(Value::Span(*seconds)),
        }
    }
}

/// Whether the two are one value. Texts are compared by their bytes, and values of two sorts
/// differ.
pub fn same_value(first: &Value, second: &Value) -> bool
    ensures test { result ≡ same_datum (datum_of first.now) (datum_of second.now) }
    ensures same { IsTrue result ↔ (datum_of first.now ≡ datum_of second.now) }
{
    match (first, second) {
        (Value::Text(a), Value::Text(b)) => a.as_str() == b.as_str(),
        (Value::Bool(a), Value::Bool(b)) => *a == *b,
        (Value::Int(a), Value::Int(b)) => *a == *b,
        (Value::Moment(a), Value::Moment(b)) => *a == *b,
        (Value::Span(a), Value::Span(b)) => *a == *b,
        _ => false,
    }
}
