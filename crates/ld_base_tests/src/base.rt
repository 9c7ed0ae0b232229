//! Texts, identifiers and lists; the outside over memory and over the machine.
mod machine;
mod memory;

use ld_base::{Id, NoMemory, PersonList, PersonNo, PlainText, Shelf, ShelfRefusal, Text, number};
use std::alloc::Global;
use std::test::Fail;

/// Whether a text is an identifier, and the text: the empty one and one of 65 letters are none.
const IDENTIFIERS: &str = "\
yes|A
yes|z
yes|_
yes|aZ09_-.
yes|of-16-characters
yes|of-17-characters.
yes|xxxxxxxxxxxxxxxxxxxxxxxxxxxxxxxxxxxxxxxxxxxxxxxxxxxxxxxxxxxxxxxx
no|xxxxxxxxxxxxxxxxxxxxxxxxxxxxxxxxxxxxxxxxxxxxxxxxxxxxxxxxxxxxxxxxx
no|
no|9a
no|-a
no|.a
no|a/b
no|a:b
no|a@b
no|a[b
no|a`b
no|a{b
no|a b
no|aé";

/// Whether the text is read as an identifier, which has that text, equals its copy, and keeps the
/// number that it is to remember.
fn is_identifier(alloc: Global, text: &str) -> Result<bool, NoMemory> {
    match Id::read(alloc, text.as_bytes())? {
        Some(id) => {
            id.remember(7);
            Ok(id.as_str() == text && id.copy()? == id && id.hint() == 7)
        }
        None => Ok(false),
    }
}

/// Whether the text itself makes an identifier, which has that text.
fn is_identifier_text(alloc: Global, text: &str) -> Result<bool, NoMemory> {
    match Id::from_text(alloc, text)? {
        Some(id) => Ok(id.as_str() == text),
        None => Ok(false),
    }
}

/// The two parts of a line, around its first bar.
fn cut(line: &str) -> Result<(&str, &str), &'static str> {
    line.split_once('|').ok_or("a line without a bar")
}

/// Whether the shelf answers so: `=` and the bytes of the file, `none`, `failed` or `too-big`.
fn answers<S: Shelf>(shelf: &mut S, alloc: Global, folder: &str, line: &str) -> bool {
    let Some((file, wanted)) = line.split_once('|') else {
        return false;
    };
    match shelf.read(alloc, folder, file) {
        Ok(Some(bytes)) => wanted.as_bytes().strip_prefix(b"=".as_slice())
            == Some(bytes.as_slice()),
        Ok(None) => wanted == "none",
        Err(ShelfRefusal::Failed) => wanted == "failed",
        Err(ShelfRefusal::TooBig) => wanted == "too-big",
        Err(ShelfRefusal::NoMemory) => false,
    }
}

/// Whether a text with room for five bytes has what was pushed last, three times over.
fn has_room(alloc: Global) -> Result<bool, NoMemory> {
    let mut text = Text::with_room(alloc, 5)?;
    for _ in 0..3 {
        text.clear();
        text.push("é")?;
        text.push_ascii(b"abc")?;
    }
    Ok(text.as_str() == "éabc")
}

/// Whether a text with no room grows.
fn grows(alloc: Global) -> Result<bool, NoMemory> {
    let mut text = Text::new(alloc);
    text.push("grows beyond its room")?;
    Ok(text.as_str() == "grows beyond its room")
}

/// Whether a text is taken over where none stands yet, and stands behind one that does.
fn takes_over(alloc: Global) -> Result<bool, NoMemory> {
    let mut text = Text::new(alloc);
    text.append(String::from_str(alloc, "whole")?)?;
    text.reserve(9)?;
    text.append(String::from_str(alloc, " and part")?)?;
    Ok(text.as_str() == "whole and part")
}

/// Whether a text that changes and one that does not are what they were made of.
fn is_copied(alloc: Global, title: &str) -> Result<bool, NoMemory> {
    let text = Text::of(alloc, title)?;
    let plain = PlainText::of(alloc, title)?;
    Ok(text.as_str() == title && plain.as_str() == title)
}

#[test]
fn texts_have_room(rt: HostRuntime) -> Result<(), Fail> {
    assert!(rt; has_room(rt.alloc())? && grows(rt.alloc())? && takes_over(rt.alloc())?);
    for title in ["", "A title", "é \"1\"\n"] {
        assert!(rt; is_copied(rt.alloc(), title)?, "{title}");
    }
    Ok(())
}

#[test]
fn identifiers_have_a_form(rt: HostRuntime) -> Result<(), Fail> {
    for line in IDENTIFIERS.lines() {
        let (wanted, text) = cut(line)?;
        let wanted = wanted == "yes";
        assert!(rt; is_identifier(rt.alloc(), text)? == wanted, "{text}");
        assert!(rt; is_identifier_text(rt.alloc(), text)? == wanted, "{text}");
    }
    Ok(())
}

/// The persons 7, 3 and 7.
fn three_persons(alloc: Global) -> Result<PersonList, NoMemory> {
    let mut persons = PersonList::new(alloc);
    persons.push(PersonNo(number(7)?))?;
    persons.push(PersonNo(3))?;
    persons.push(PersonNo(7))?;
    Ok(persons)
}

#[test]
fn lists_grow_at_their_end(rt: HostRuntime) -> Result<(), Fail> {
    let persons = three_persons(rt.alloc())?;
    assert!(rt; persons.get(1).copied() == Some(PersonNo(3)) && persons.get(3).is_none());
    assert!(rt; persons.len() == 3 && persons.as_slice()[2] == PersonNo(7));
    assert!(rt; !persons.is_empty() && persons.into_vec().len() == 3);
    Ok(())
}
