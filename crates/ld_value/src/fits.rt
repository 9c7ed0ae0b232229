//! Whether a value fits the restrictions of a property.
#![tactic(auto, unfolding(crate::specs::Values::fits_in))]

ghost use Rattle.std.specs.Prelude.{◌≡◌, map, option_map, length, chars};
ghost use Rattle.std.specs.List.{list_any};
ghost use Rattle.ld_value.specs.Datum.{datum_of, same_datum};
ghost use Rattle.ld_value.specs.Values.{fits_in, restrictions_of, is_value as spec_is_value, is_at_most as spec_is_at_most, meets_least as spec_meets_least, meets_most as spec_meets_most, meets_min_length as spec_meets_min_length, meets_max_length as spec_meets_max_length, meets_one_of as spec_meets_one_of};

use crate::duration::LONGEST_SPAN;
use crate::forms::{is_text, is_uri};
use crate::kind::Kind;
use crate::limits::{Limits, ValueList};
use crate::moment::{FIRST_MOMENT, LAST_MOMENT};
use crate::value::{Value, same_value};

/// Whether the value is one of the datatype and meets each of the restrictions.
pub fn fits(kind: Kind, limits: &Limits, value: &Value) -> bool
    ensures { result ≡ fits_in kind (restrictions_of limits.now) (datum_of value.now) }
{
    is_value(kind, value)
        && meets_least(&limits.least, value)
        && meets_most(&limits.most, value)
        && meets_min_length(limits.min_length, value)
        && meets_max_length(limits.max_length, value)
        && meets_one_of(&limits.one_of, value)
}

/// Whether the value is one of the datatype.
fn is_value(kind: Kind, value: &Value) -> bool
    ensures { result ≡ spec_is_value kind (datum_of value.now) }
{
    match (kind, value) {
        (Kind::String | Kind::Text, Value::Text(text)) => is_text(text.as_str().as_bytes()),
        (Kind::Uri, Value::Text(text)) => is_uri(text.as_str().as_bytes()),
        (Kind::Boolean, Value::Bool(_)) => true,
        // Each number of 64 bits is one.
        (Kind::Integer, Value::Int(number)) => (i64::MIN..=i64::MAX).contains(number),
        (Kind::Datetime, Value::Moment(moment)) => {
            FIRST_MOMENT.0 <= moment.0 && moment.0 <= LAST_MOMENT.0
        }
        (Kind::Duration, Value::Span(seconds)) => *seconds <= LONGEST_SPAN,
        _ => false,
    }
}

/// Whether the value is at least the least one, where there is one.
fn meets_least(least: &Option<Value>, value: &Value) -> bool
    ensures { result ≡ spec_meets_least (option_map datum_of least.now) (datum_of value.now) }
{
    match least {
        None => true,
        Some(least) => is_at_most(least, value),
    }
}

/// Whether the value is at most the greatest one, where there is one.
fn meets_most(most: &Option<Value>, value: &Value) -> bool
    ensures { result ≡ spec_meets_most (option_map datum_of most.now) (datum_of value.now) }
{
    match most {
        None => true,
        Some(most) => is_at_most(value, most),
    }
}

/// Whether the first is at most the second, of two whole numbers, two moments or two spans.
fn is_at_most(first: &Value, second: &Value) -> bool
    ensures { result ≡ spec_is_at_most (datum_of first.now) (datum_of second.now) }
{
    match (first, second) {
        (Value::Int(a), Value::Int(b)) => *a <= *b,
        (Value::Moment(a), Value::Moment(b)) => a.0 <= b.0,
        (Value::Span(a), Value::Span(b)) => *a <= *b,
        _ => false,
    }
}

/// Whether a text has the least number of characters, where there is one. A value of another type
/// has no length, and meets any.
fn meets_min_length(least: Option<u32>, value: &Value) -> bool
    ensures { result ≡ spec_meets_min_length least (datum_of value.now) }
{
    match (least, value) {
        (Some(least), Value::Text(text)) => least as usize <= count_characters(text.as_str()),
        _ => true,
    }
}

/// Whether a text has no more than the greatest number of characters, where there is one. A value
/// of another type has no length, and meets any.
fn meets_max_length(most: Option<u32>, value: &Value) -> bool
    ensures { result ≡ spec_meets_max_length most (datum_of value.now) }
{
    match (most, value) {
        (Some(most), Value::Text(text)) => count_characters(text.as_str()) <= most as usize,
        _ => true,
    }
}

/// The number of characters of the text.
fn count_characters(text: &str) -> usize
    ensures { result ≡ length (chars text.now) }
{
    text.chars().count()
}

/// Whether the value is one of the list, or the list is empty.
fn meets_one_of(list: &ValueList, value: &Value) -> bool
    ensures { result ≡ spec_meets_one_of (map datum_of list.now) (datum_of value.now) }
{
    if list.is_empty() {
        return true;
    }
    is_among(list.as_slice(), value)
}

/// Whether one of the list is the value.
fn is_among(list: &[Value], value: &Value) -> bool
    ensures { result ≡ list_any (same_datum (datum_of value.now)) (map datum_of list.now) }
{
    for each in list {
        if same_value(value, each) {
            return true;
        }
    }
    false
}
