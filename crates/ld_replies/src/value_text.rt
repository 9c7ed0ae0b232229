//! The text of a property's value.
ghost use Rattle.std.specs.Prelude.{◌≡◌, ◌++◌, IfSome, OnOk, false, option_copied, option_map};
ghost use Rattle.ld_base.specs.Roomy.{KeepsRoom};
ghost use Rattle.ld_json.specs.Print.{json_text};
ghost use Rattle.ld_value.specs.Datum.{datum_of, is_text_datum};
ghost use Rattle.ld_value.specs.Values.{HasText, text_of};
ghost use Rattle.ld_replies.specs.Replies.{printed_value};

use ld_base::{NoMemory, Text};
use ld_json::print_text;
use ld_value::{Value, print_value};
use std::alloc::Global;

/// Appends the value as a JSON text, or `none` where there is no value. (docs/COMMANDS.md,
/// "Replies")
///
/// # Errors
/// `NoMemory` leaves what stood in `out`, and behind it maybe a part of the text.
pub fn push_value(alloc: Global, value: Option<&Value>, out: &mut Text) -> Result<(), NoMemory>
    requires { IfSome (option_map datum_of (option_copied value)) HasText }
    ensures text { OnOk result (out.new.bytes
        ≡ out.old.bytes ++ printed_value (option_map datum_of (option_copied value.entry))) }
    ensures room { KeepsRoom out.old out.new }
{
    match value {
        Some(value) => push_known(alloc, value, out),
        None => out.push("none"),
    }
}

/// Appends the value as a JSON text.
fn push_known(alloc: Global, value: &Value, out: &mut Text) -> Result<(), NoMemory>
    requires { HasText (datum_of value.now) }
    ensures text { OnOk result
        (out.new.bytes ≡ out.old.bytes ++ json_text (text_of (datum_of value.now))) }
    ensures room { KeepsRoom out.old out.new }
{
    match value {
        Value::Text(text) => print_text(alloc, text.as_str(), out),
        _ => push_scalar(value, out),
    }
}

/// Appends a value that is no text as a JSON text: none of its characters needs an escape.
fn push_scalar(value: &Value, out: &mut Text) -> Result<(), NoMemory>
    requires printable { HasText (datum_of value.now) }
    requires scalar { is_text_datum (datum_of value.now) ≡ false }
    ensures text { OnOk result
        (out.new.bytes ≡ out.old.bytes ++ json_text (text_of (datum_of value.now))) }
    ensures room { KeepsRoom out.old out.new }
{
    out.push("\"")?;
    print_value(value, out)?;
    out.push("\"")
}
