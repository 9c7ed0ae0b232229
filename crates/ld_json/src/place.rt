//! Writing places: JSON pointers, in which `~` of a name stands as `~0` and `/` as `~1`.
ghost use Rattle.std.specs.Prelude.{◌≡◌, ◌++◌, ◌∷◌, OnOk, OnErr, IfOk, string_bytes};
ghost use Rattle.std.specs.Char.{encode_utf8};
ghost use Rattle.ld_base.specs.Roomy.{KeepsRoom};
ghost use Rattle.ld_json.specs.Places.{escaped, member_place, item_place};

use ld_base::{NoMemory, Text};
use std::alloc::Global;

/// Goes on with a place to the member of this name. Where memory runs out the bytes stay as they
/// were.
pub fn push_member(alloc: Global, name: &str, place: &mut Text) -> Result<(), NoMemory>
    ensures ok { OnOk result (place.new.bytes ≡ member_place place.old.bytes name.now) }
    ensures err { OnErr result (place.new.bytes ≡ place.old.bytes) }
    ensures room { KeepsRoom place.old place.new }
{
    let mut step = String::from_str(alloc, "/")?;
    push_escaped(name, &mut step)?;
    place.push(step.as_str())
}

/// Goes on with a place to the element at this index, counted from 0. Where memory runs out the
/// bytes stay as they were.
pub fn push_item(alloc: Global, index: usize, place: &mut Text) -> Result<(), NoMemory>
    ensures ok { OnOk result (place.new.bytes ≡ item_place place.old.bytes index) }
    ensures err { OnErr result (place.new.bytes ≡ place.old.bytes) }
    ensures room { KeepsRoom place.old place.new }
{
    let step = format!(in alloc; "/{index}")?;
    place.push(step.as_str())
}

/// Appends the name with its escapes.
fn push_escaped(name: &str, out: &mut String) -> Result<(), NoMemory>
    ensures ok { OnOk result (string_bytes out.new ≡ string_bytes out.old ++ escaped name.now) }
{
    for c in name.chars() {
        push_character(c, out)?;
    }
    Ok(())
}

/// Appends one character with its escape.
fn push_character(c: char, out: &mut String) -> Result<(), NoMemory>
    ensures ok { OnOk result
        (string_bytes out.new ≡ string_bytes out.old ++ escaped (encode_utf8 c)) }
{
    if c == '~' {
        out.push_str("~0")?;
        return Ok(());
    }
    if c == '/' {
        out.push_str("~1")?;
        return Ok(());
    }
    out.push(c)?;
    Ok(())
}
