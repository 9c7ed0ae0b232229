//! Value texts, as their values are printed.
ghost use Rattle.std.specs.Prelude.{◌≡◌, Some, IfOk};
ghost use Rattle.serde_json.specs.Data.{string};
ghost use Rattle.serde_json.specs.View.{view};
ghost use Rattle.ld_canon.specs.Canonical.{canonical_of, canonical_text};
ghost use Rattle.ld_value.specs.Datum.{datum_of};
ghost use Rattle.ld_value.specs.Values.{value_of, HasText};
ghost use Rattle.ld_prints.specs.Forms.{seconds};

use ld_base::{NoMemory, Text};
use ld_prints::prints::Prints;
use ld_prints::values::text_tree;
use ld_value::{Kind, Value as Datum, ValueFault, print_value, read_value};
use serde_json::Value;
use std::alloc::Global;

/// The text as its value of the datatype is printed; a text that has no value as it is.
pub(crate) fn value_text(alloc: Global, kind: Kind, text: &str) -> Result<Value, NoMemory>
    ensures { IfOk result (λ tree. view tree ≡ string (canonical_text kind text.now)) }
{
    match read_value(alloc, kind, text) {
        Ok(value) => printed(alloc, kind, text, &value),
        Err(ValueFault::BadValue) => text_tree(alloc, text),
        Err(ValueFault::NoMemory) => Err(NoMemory),
    }
}

/// The text as a value of a property of this datatype; as it is where there is no such property.
pub(crate) fn text_of_property(
    alloc: Global,
    kind: Option<Kind>,
    text: &str,
) -> Result<Value, NoMemory>
    ensures { IfOk result (λ tree. view tree ≡ string (canonical_of kind text.now)) }
{
    match kind {
        Some(kind) => value_text(alloc, kind, text),
        None => text_tree(alloc, text),
    }
}

/// The text of the value, which the text has as one of the datatype.
fn printed(alloc: Global, kind: Kind, text: &str, value: &Datum) -> Result<Value, NoMemory>
    requires read { value_of kind text.now ≡ Some (datum_of value.now) }
    requires printable { HasText (datum_of value.now) }
    ensures { IfOk result (λ tree. view tree ≡ string (canonical_text kind text.now)) }
{
    let mut out = Text::new(alloc);
    print_value(value, &mut out)?;
    text_tree(alloc, out.as_str())
}

/// A span of time.
pub(crate) struct SpanTree;

impl Prints for SpanTree {
    type Of = u64;

    ghost printed = { seconds };

    #[tactic(auto, unfolding(ld_value::specs::Values::text_of))]
    fn tree(alloc: Global, value: &u64) -> Result<Value, NoMemory> {
        let mut out = Text::new(alloc);
        print_value(&Datum::Span(*value), &mut out)?;
        text_tree(alloc, out.as_str())
    }
}
