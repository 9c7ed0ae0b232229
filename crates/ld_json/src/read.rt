//! Values of the `json` library, which borrow their texts, as serde_json takes them: a member that
//! comes twice has its last value, and a number that is too large for a float is none.
#![tactic(auto, using(crate::proofs::Trees::elements_from, crate::proofs::Trees::members_from))]

ghost use Rattle.std.specs.Prelude.{◌≡◌, option_map};
ghost use Rattle.std.specs.List.{list_all, list_any};
ghost use Rattle.std.specs.Str.{bytes_eq};
ghost use Rattle.json.specs.Find.{as_array, as_object};
ghost use Rattle.json.specs.Value.{value_view, items_view, members_view};
ghost use Rattle.serde_json.specs.Data.{no_members};
ghost use Rattle.ld_json.specs.Access.{only_name as sole_name};
ghost use Rattle.ld_json.specs.Trees.{members_into, is_in_range, are_in_range, have_range};

use crate::names::is_listed;
use crate::numbers::is_number_in_range;
use json::Value;

/// The elements of an array.
pub(crate) fn elements_of<'v, 'a>(value: &'v Value<'a>) -> Option<&'v [Value<'a>]>
    ensures { option_map (λ elements. items_view elements.now) result
        ≡ as_array (value_view value.now) }
{
    if let Value::Array(elements) = value {
        Some(elements.as_slice())
    } else {
        None
    }
}

/// The members of an object, in their order.
pub(crate) fn members_of<'v, 'a>(value: &'v Value<'a>) -> Option<&'v [(&'a str, Value<'a>)]>
    ensures { option_map (λ members. members_view members.now) result
        ≡ as_object (value_view value.now) }
{
    if let Value::Object(members) = value {
        Some(members.as_slice())
    } else {
        None
    }
}

/// The name of the members, if all have one.
pub(crate) fn only_name<'a>(members: &[(&'a str, Value<'a>)]) -> Option<&'a str>
    ensures { option_map (λ name. name.now) result
        ≡ sole_name (members_into no_members (members_view members.now)) }
{
    let (first, more) = members.split_first()?;
    if are_named(more, first.0) {
        Some(first.0)
    } else {
        None
    }
}

/// Whether each member has this name.
fn are_named(members: &[(&str, Value<'_>)], name: &str) -> bool
    ensures { result ≡ list_all (λ member. bytes_eq member.0.now name.now) members.now }
{
    members.iter().all(|member| member.0 == name)
}

/// Whether each member has one of the names.
pub(crate) fn are_listed(members: &[(&str, Value<'_>)], names: &[&str]) -> bool
    ensures { result ≡ list_all (λ member. list_any (λ name. bytes_eq member.0.now name.now)
        names.now) members.now }
{
    members.iter().all(|member| is_listed(member.0, names))
}

/// Whether each number of the value is in range.
#[cycle(range)]
pub(crate) fn is_in_range(value: &Value<'_>) -> bool
    ensures { result ≡ is_in_range (value_view value.now) }
{
    match value {
        Value::Number(text) => is_number_in_range(*text),
        Value::Array(elements) => are_in_range(elements.as_slice()),
        Value::Object(members) => have_range(members.as_slice()),
        Value::Null | Value::Bool(_) | Value::String(_) => true,
    }
}

/// Whether each number of the elements is in range.
#[cycle(range)]
fn are_in_range(elements: &[Value<'_>]) -> bool
    ensures { result ≡ are_in_range (items_view elements.now) }
{
    for element in elements {
        if !is_in_range(element) {
            return false;
        }
    }
    true
}

/// Whether each number of the members is in range.
#[cycle(range)]
fn have_range(members: &[(&str, Value<'_>)]) -> bool
    ensures { result ≡ have_range (members_view members.now) }
{
    for member in members {
        if !is_in_range(&member.1) {
            return false;
        }
    }
    true
}
