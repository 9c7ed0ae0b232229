//! What serde_json reads and prints, byte by byte, and where the faults of a node stand. Which
//! bytes are no JSON is shown by tests/first_faults/texts.py, where the program reads them.
use json::Scratch;
use ld_base::{NoMemory, Text};
use ld_json::{Code, Doc, FileNo, Node, ReadFault, document, is_plain, print_text};
use serde_json::json;
use std::alloc::Global;
use std::test::Fail;

/// A tree, and a letter for each access that it allows: text, whole, flag, count, sole, only `a`;
/// and `u` where it has an unknown member.
const SHAPES: &str = "\
null|
true|f
7|w
18446744073709551615|w
18446744073709551616|
1.0|
1e2|
-0|
-7|
\"7\"|t
[7]|c
{\"a\":7}|so
{\"b\":7}|su
{\"a\":7,\"b\":7}|u
{\"a\":7,\"a\":8}|so
{}|o";

/// Whether the tree of the text allows just these accesses.
fn allows(alloc: Global, doc: &Doc<'_>, letters: &str) -> bool {
    let node = doc.root(FileNo::Roles);
    let only = node.only(alloc, &["a"]);
    node.text(alloc).is_ok() == letters.contains('t')
        && node.whole(alloc).is_ok() == letters.contains('w')
        && node.flag(alloc).is_ok() == letters.contains('f')
        && node.count(alloc).is_ok() == letters.contains('c')
        && node.sole(alloc).is_ok() == letters.contains('s')
        && only.is_ok() == letters.contains('o')
        && is_refused(only, Code::UnknownMember, ".") == letters.contains('u')
}

/// Whether the outcome is the refusal of this code at this place.
fn is_refused<T: Drop>(outcome: Result<T, ReadFault>, code: Code, place: &str) -> bool {
    match outcome {
        Err(ReadFault::Refused(fault)) => fault.code == code && fault.place_text() == place,
        _ => false,
    }
}

#[test]
fn each_access_on_each_shape(rt: HostRuntime) -> Result<(), Fail> {
    for line in SHAPES.lines() {
        let (text, letters) = line.split_once('|').ok_or("a line without a bar")?;
        let mut scratch = Scratch::new(rt.alloc());
        let doc = document(rt.alloc(), text.as_bytes(), &mut scratch)?;
        assert!(rt; allows(rt.alloc(), &doc, letters), "{line}");
    }
    Ok(())
}

/// Whether faults in this object stand at escaped places, and its text comes out as it went in.
fn has_places(alloc: Global, last: &Node<'_, '_>) -> Result<bool, ReadFault> {
    let name = last.sole(alloc)?;
    let below = last.member(alloc, name)?;
    below.only(alloc, &["é"])?;
    let leaf = below.member(alloc, "é")?;
    Ok(
        below.optional("a").is_none()
            && leaf.text(alloc)? == "text"
            && is_refused(leaf.flag(alloc), Code::WrongShape, "/a~0b~1c/10//é")
            && is_refused(
                below.member(alloc, "~/"),
                Code::Missing,
                "/a~0b~1c/10//~0~1",
            ),
    )
}

/// Whether the list has eleven elements, the number 3 and, as its last, that object.
fn has_elements(alloc: Global, list: &Node<'_, '_>) -> Result<bool, ReadFault> {
    if list.count(alloc)? != 11 {
        return Ok(false);
    }
    Ok(list.item(3).whole(alloc)? == 3 && has_places(alloc, &list.item(10))?)
}

/// Whether the only member of the document, whose name is escaped in places, is that list.
fn has_list(alloc: Global, doc: &Doc<'_>) -> Result<bool, ReadFault> {
    let root = doc.root(FileNo::Unit);
    root.only(alloc, &["x", "a~b/c"])?;
    let list = root.member(alloc, "a~b/c")?;
    has_elements(alloc, &list)
}

#[test]
fn places(rt: HostRuntime) -> Result<(), Fail> {
    let text = "{\"a~b/c\":[0,1,2,3,4,5,6,7,8,9,{\"\":{\"é\":\"text\"}}]}";
    let mut scratch = Scratch::new(rt.alloc());
    let doc = document(rt.alloc(), text.as_bytes(), &mut scratch)?;
    assert!(rt; has_list(rt.alloc(), &doc)?);
    Ok(())
}

/// Whether each escape of a text is printed.
fn prints_escapes(alloc: Global) -> Result<bool, NoMemory> {
    let mut out = Text::new(alloc);
    let text = "\"\\/\u{8}\u{c}\n\r\t\u{0}\u{1f}\u{7f}\u{e9}\u{1f600}";
    let wanted = "\"\\\"\\\\/\\b\\f\\n\\r\\t\\u0000\\u001f\u{7f}\u{e9}\u{1f600}\"";
    print_text(alloc, text, &mut out)?;
    Ok(out.as_str() == wanted)
}

/// Whether a text without escapes stands between quotes, behind what stood there.
fn prints_plain(alloc: Global) -> Result<bool, NoMemory> {
    let mut out = Text::of(alloc, "value=")?;
    print_text(alloc, "10 \u{e9}", &mut out)?;
    Ok(out.as_str() == "value=\"10 \u{e9}\"")
}

/// Whether an array with numbers is printed, and members in byte order.
fn prints_numbers(alloc: Global, out: &mut Text) -> Result<bool, NoMemory> {
    let tree = json!(in alloc; {"b": [true, 7, -7], "B": null})?;
    Doc::of(tree).print(alloc, out)?;
    Ok(out.as_str() == "{\"B\":null,\"b\":[true,7,-7]}")
}

/// Whether an empty object and a text are printed, and members in byte order.
fn prints_texts(alloc: Global, out: &mut Text) -> Result<bool, NoMemory> {
    let tree = json!(in alloc; {"aa": "\n", "a": {}})?;
    Doc::of(tree).print(alloc, out)?;
    Ok(out.as_str() == "{\"a\":{},\"aa\":\"\\n\"}")
}

/// Whether the members of a document that was made of a tree are found from its root.
fn has_built_root(alloc: Global) -> Result<bool, ReadFault> {
    let doc = Doc::of(json!(in alloc; {"b": [true, 7], "a": "text"})?);
    let root = doc.root(FileNo::Unit);
    root.only(alloc, &["a", "b"])?;
    let text = root.member(alloc, "a")?;
    let list = root.member(alloc, "b")?;
    Ok(text.text(alloc)? == "text" && list.count(alloc)? == 2)
}

#[test]
fn a_built_document_is_read(rt: HostRuntime) -> Result<(), Fail> {
    assert!(rt; has_built_root(rt.alloc())?);
    Ok(())
}

#[test]
fn prints(rt: HostRuntime) -> Result<(), Fail> {
    let alloc = rt.alloc();
    assert!(rt; prints_escapes(alloc)? && prints_plain(alloc)?);
    assert!(rt;
        is_plain("10 é\u{7f}") && !is_plain("\"") && !is_plain("\\") && !is_plain("\u{1f}")
    );
    assert!(rt; prints_numbers(alloc, &mut Text::new(alloc))?);
    assert!(rt; prints_texts(alloc, &mut Text::new(alloc))?);
    Ok(())
}
