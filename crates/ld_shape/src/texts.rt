//! Texts: identifiers, titles, addresses, durations.
#![tactic(auto, unfolding(crate::specs::Forms::address_of, crate::specs::Forms::identifier_of, crate::specs::Forms::text_within, crate::specs::Spans::span_of), using(ld_json::proofs::First::says_more))]

ghost use Rattle.std.specs.Prelude.{◌≡◌, [], Some, IfOk, OnOk, IfErr};
ghost use Rattle.std.specs.List.{list_all};
ghost use Rattle.ld_json.specs.Fault.{SaysFirst};
ghost use Rattle.ld_shape.specs.Forms.{text as text_shape, title, identifier, href, uri, address, is_visible_ascii};
ghost use Rattle.ld_shape.specs.Spans.{seconds};
ghost use Rattle.ld_shape.specs.Reading.{GivesOrSays};

use crate::reads::Reads;
use ld_base::{Id, PlainText};
use ld_json::{Code, Node, ReadFault};
use ld_value::read_duration;
use std::alloc::Global;

/// An identifier or a reference.
pub struct Identifier;

impl Reads for Identifier {
    type Value = Id;

    ghost shape = { identifier };

    fn read(alloc: Global, node: &Node<'_, '_>) -> Result<Id, ReadFault> {
        let text = node.text(alloc)?;
        match Id::read(alloc, text.as_bytes())? {
            Some(identifier) => Ok(identifier),
            None => Err(node.fault(alloc, Code::WrongShape)),
        }
    }
}

/// The text of `least` to `most` bytes that the node is.
fn text_between<'a>(
    alloc: Global,
    node: &Node<'a, '_>,
    least: usize,
    most: usize,
) -> Result<&'a str, ReadFault>
    ensures value { IfOk result (λ text.
        ((text_shape least most).reading node.now).value ≡ Some text.now) }
    ensures faultless { OnOk result (((text_shape least most).reading node.now).faults ≡ []) }
    ensures first { IfErr result (SaysFirst ((text_shape least most).reading node.now).faults) }
{
    let text = node.text(alloc)?;
    if text.len() < least {
        return Err(node.fault(alloc, Code::WrongShape));
    }
    if text.len() > most {
        return Err(node.fault(alloc, Code::WrongShape));
    }
    Ok(text)
}

/// A text of `LEAST` to `MOST` bytes.
pub struct Text<const LEAST: usize, const MOST: usize>;

impl<const LEAST: usize, const MOST: usize> Reads for Text<LEAST, MOST> {
    type Value = PlainText;

    ghost shape = { text_shape LEAST MOST };

    fn read(alloc: Global, node: &Node<'_, '_>) -> Result<PlainText, ReadFault> {
        let text = text_between(alloc, node, LEAST, MOST)?;
        let own = PlainText::of(alloc, text)?;
        Ok(own)
    }
}

/// A title or a subject.
pub struct Title;

impl Reads for Title {
    type Value = PlainText;

    ghost shape = { title };

    fn read(alloc: Global, node: &Node<'_, '_>) -> Result<PlainText, ReadFault> {
        Text::<1, 256>::read(alloc, node)
    }
}

/// The text of 1 to `most` visible characters of ASCII that the node is.
fn read_address(alloc: Global, node: &Node<'_, '_>, most: usize) -> Result<PlainText, ReadFault>
    ensures { GivesOrSays ((address most).reading node.now) result }
{
    let text = text_between(alloc, node, 1, most)?;
    if !are_visible_ascii(text.as_bytes()) {
        return Err(node.fault(alloc, Code::WrongShape));
    }
    let own = PlainText::of(alloc, text)?;
    Ok(own)
}

/// Whether each byte is from 0x21 to 0x7E.
fn are_visible_ascii(bytes: &[u8]) -> bool
    ensures { result ≡ list_all is_visible_ascii bytes.now }
{
    // Each byte is looked at, whatever was found before it, so that many are looked at at once.
    let mut visible = true;
    for byte in bytes {
        visible &= byte.is_ascii_graphic();
    }
    visible
}

/// An address: 1 to 1,024 visible characters of ASCII.
pub struct Href;

impl Reads for Href {
    type Value = PlainText;

    ghost shape = { href };

    fn read(alloc: Global, node: &Node<'_, '_>) -> Result<PlainText, ReadFault> {
        read_address(alloc, node, 1024)
    }
}

/// The name that properties of several units share: 1 to 4,096 visible characters of ASCII.
pub struct Uri;

impl Reads for Uri {
    type Value = PlainText;

    ghost shape = { uri };

    fn read(alloc: Global, node: &Node<'_, '_>) -> Result<PlainText, ReadFault> {
        read_address(alloc, node, 4096)
    }
}

/// The seconds of a duration.
pub struct Seconds;

impl Reads for Seconds {
    type Value = u64;

    ghost shape = { seconds };

    fn read(alloc: Global, node: &Node<'_, '_>) -> Result<u64, ReadFault> {
        let text = node.text(alloc)?;
        match read_duration(text) {
            Some(seconds) => Ok(seconds),
            None => Err(node.fault(alloc, Code::WrongShape)),
        }
    }
}
