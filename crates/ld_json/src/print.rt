//! Printing texts as JSON.
#![tactic(auto, using(crate::proofs::Plain::plain_json))]

ghost use Rattle.std.specs.Prelude.{◌≡◌, ◌≤◌, ◌+◌, ◌++◌, ◌∷◌, [], length, OnOk, OnErr};
ghost use Rattle.ld_base.specs.Roomy.{KeepsRoom};
ghost use Rattle.ld_json.specs.Plain.{is_plain, is_plain_byte};
ghost use Rattle.ld_json.specs.Print.{json_text};

use crate::doc::Doc;
use ld_base::{NoMemory, Text};
use serde_json::Value;
use std::alloc::Global;

/// Appends the text as a JSON text. Where memory runs out the bytes stay as they were.
pub fn print_text(alloc: Global, text: &str, out: &mut Text) -> Result<(), NoMemory>
    ensures ok { OnOk result (out.new.bytes ≡ out.old.bytes ++ json_text text.now) }
    ensures err { OnErr result (out.new.bytes ≡ out.old.bytes) }
    ensures room { KeepsRoom out.old out.new }
{
    if is_plain(text) {
        return push_quoted(text, out);
    }
    let tree = Value::String(String::from_str(alloc, text)?);
    Doc::of(tree).print(alloc, out)
}

/// Appends the text between quotes. Where memory runs out the bytes stay as they were.
fn push_quoted(text: &str, out: &mut Text) -> Result<(), NoMemory>
    ensures ok { OnOk result (out.new.bytes ≡ out.old.bytes ++ 34 ∷ (text.now ++ 34 ∷ [])) }
    ensures err { OnErr result (out.new.bytes ≡ out.old.bytes) }
    ensures room { KeepsRoom out.old out.new }
{
    out.reserve(text.len() + 2)?;
    push_within("\"", out);
    push_within(text, out);
    push_within("\"", out);
    Ok(())
}

/// Appends the piece, for which there is room.
fn push_within(piece: &str, out: &mut Text)
    requires { length piece.now ≤ out.old.spare }
    ensures bytes { out.new.bytes ≡ out.old.bytes ++ piece.now }
    ensures spare { out.old.spare ≤ out.new.spare + length piece.now }
    ensures room { KeepsRoom out.old out.new }
{
    let Ok(()) = out.push(piece) else {
        unreachable!();
    };
}

/// Whether the text needs no escapes as a JSON text: whether it stands between quotes as it is. It
/// looks at all of its bytes, which is quicker than to stop at the first that needs one.
pub fn is_plain(text: &str) -> bool
    ensures { result ≡ is_plain text.now }
{
    let mut plain = true;
    for byte in text.as_bytes() {
        plain &= is_plain_byte(*byte);
    }
    plain
}

/// Whether the byte needs no escape in a JSON text: it is no quote, no backslash, and no control
/// character.
fn is_plain_byte(byte: u8) -> bool
    ensures { result ≡ is_plain_byte byte }
{
    (byte != b'"') & (byte != b'\\') & (byte >= 0x20)
}
