//! How a global property is declared.
ghost use Rattle.std.specs.Prelude.{◌≡◌, ◌↔◌, IsTrue, option_map, is_some, map};
ghost use Rattle.std.specs.Option.{option_eq};
ghost use Rattle.ld_value.specs.Datum.{datum_of, same_datum};
ghost use Rattle.ld_value.specs.Values.{restrictions_of};
ghost use Rattle.ld_globals.specs.Declarations.{declaration_of, suits as is_suited};

use ld_base::{Id, Items, Text};
use ld_value::{Kind, Limits, Value, same_value};

/// Whether a global property has one value for all, or one for each person.
#[derive(Clone, Copy, Debug, PartialEq, Eq)]
pub enum GlobalKind {
    /// One value for all.
    Glob,
    /// One value for each person.
    GlobPers,
}

/// How a global property is declared.
pub struct Declared {
    pub kind: GlobalKind,
    pub datatype: Kind,
    pub limits: Limits,
    /// The value of a key that was never written.
    pub initial: Option<Value>,
}

impl Drop for Declared {
    fn drop(self) {
        let Declared {
            kind: _,
            datatype: _,
            limits: _,
            initial: _,
        } = self;
    }
}

/// A list of uris, each with how it is declared.
pub type DeclaredList = Items<(Text, Declared)>;

/// Whether the two declare alike: one kind, one datatype, and equal restrictions and initial
/// values.
pub fn same_declared(first: &Declared, second: &Declared) -> bool
    ensures { IsTrue result ↔ (declaration_of first.now ≡ declaration_of second.now) }
{
    first.kind == second.kind
        && first.datatype == second.datatype
        && same_limits(&first.limits, &second.limits)
        && same_optional(&first.initial, &second.initial)
}

/// Whether a key of this kind has a person exactly where one is given.
pub fn suits(kind: GlobalKind, person: Option<&Id>) -> bool
    ensures { result ≡ is_suited kind (is_some person.entry) }
{
    match kind {
        GlobalKind::Glob => person.is_none(),
        GlobalKind::GlobPers => person.is_some(),
    }
}

/// Whether the two restrict alike.
fn same_limits(first: &Limits, second: &Limits) -> bool
    ensures { IsTrue result ↔ (restrictions_of first.now ≡ restrictions_of second.now) }
{
    same_optional(&first.least, &second.least)
        && same_optional(&first.most, &second.most)
        && first.min_length == second.min_length
        && first.max_length == second.max_length
        && same_values(first.one_of.as_slice(), second.one_of.as_slice())
}

/// Whether both are absent or are one value.
pub(crate) fn same_optional(first: &Option<Value>, second: &Option<Value>) -> bool
    ensures test { result ≡ option_eq same_datum (option_map datum_of first.now)
        (option_map datum_of second.now) }
    ensures same { IsTrue result ↔ (option_map datum_of first.now
        ≡ option_map datum_of second.now) }
{
    match (first, second) {
        (Some(a), Some(b)) => same_value(a, b),
        (None, None) => true,
        _ => false,
    }
}

/// Whether the two lists have the same values in the same order.
fn same_values(first: &[Value], second: &[Value]) -> bool
    ensures { IsTrue result ↔ (map datum_of first.now ≡ map datum_of second.now) }
{
    let mut left = first;
    let mut right = second;
    while let Some((a, after)) = left.split_first() {
        let Some((b, behind)) = right.split_first() else {
            return false;
        };
        if !same_value(a, b) {
            return false;
        }
        left = after;
        right = behind;
    }
    right.is_empty()
}
