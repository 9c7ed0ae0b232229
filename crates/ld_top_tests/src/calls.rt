//! Calls of the program over memory, and what they leave.
ghost use Rattle.std.specs.Prelude.{◌≡◌, ◌<◌};

use ld_base::{
    Bytes, CallList, File, FileList, Items, MemoryShelf, MemorySink, MemorySource, NoMemory, Steps,
    Text,
};
use ld_refs::Checked;
use ld_top::{Status, ld_main, read_folder};
use std::alloc::Global;
use std::marker::Brand;
use std::sync::ledger::{Blank, Ledger};
use std::test::Fail;

/// A file: its name and its bytes.
pub type Named<'a> = (&'a str, &'a [u8]);

/// The documents of the first unit.
pub const FIRST_FILES: [Named; 3] = [
    (
        "roles.json",
        br#"{"roles":[{"identifier":"learner","kind":"learner"}]}"#,
    ),
    (
        "activities.json",
        br#"{"activities":[{"identifier":"read","title":"Read","complete":{"user-choice":true},"items":[{"identifier":"i1","title":"Text","href":"text.html"}]}]}"#,
    ),
    (
        "unit.json",
        br#"{"format":1,"identifier":"u1","level":"A","title":"First","method":{"plays":[{"identifier":"p","acts":[{"identifier":"a","role-parts":[{"identifier":"rp","role":"learner","ref":"read"}]}]}]}}"#,
    ),
];

/// The document of a second unit, which has the same roles and activities.
pub const SECOND_UNIT: Named = (
    "unit.json",
    br#"{"format":1,"identifier":"u2","level":"A","method":{"plays":[{"identifier":"p","acts":[{"identifier":"a","role-parts":[{"identifier":"rp","role":"learner","ref":"read"}]}]}]}}"#,
);

/// What a call finds: its words; its lines, in pieces of this many bytes; how much fits into the
/// sink; and the numbers of the calls that fail, 0 for none.
#[derive(Drop)]
pub struct Case<'a> {
    pub words: &'a [&'static str],
    pub lines: &'a [u8],
    pub piece: usize,
    pub room: usize,
    pub shelf_fails: u64,
    pub source_fails: u64,
    pub sink_fails: u64,
}

/// These words and lines, and nothing that fails.
pub fn case_of<'a>(words: &'a [&'static str], lines: &'a [u8]) -> Case<'a> {
    Case {
        words,
        lines,
        piece: 4096,
        room: 100_000,
        shelf_fails: 0,
        source_fails: 0,
        sink_fails: 0,
    }
}

/// These lines, for the folder of the first unit, and nothing that fails.
pub fn first<'a>(lines: &'a [u8]) -> Case<'a> {
    case_of(&["replay", "u1"], lines)
}

/// The bytes as a list.
pub fn bytes(alloc: Global, from: &[u8]) -> Result<Bytes, NoMemory> {
    Ok(Items::from_vec(Vec::from_slice(alloc, from)?))
}

/// The list of this one call; of none where the number is 0.
pub fn call(alloc: Global, number: u64) -> Result<CallList, NoMemory> {
    let mut calls = Items::new(alloc);
    if number != 0 {
        calls.push(number)?;
    }
    Ok(calls)
}

/// A file of the folder.
pub fn file_in(alloc: Global, folder: &str, name: &str, content: &[u8]) -> Result<File, NoMemory> {
    Ok(File {
        folder: Text::of(alloc, folder)?,
        file: Text::of(alloc, name)?,
        bytes: bytes(alloc, content)?,
    })
}

/// A file of the folder `u1`.
pub fn file(alloc: Global, name: &str, content: &[u8]) -> Result<File, NoMemory> {
    file_in(alloc, "u1", name, content)
}

/// The documents of the first course.
pub fn first_files(alloc: Global) -> Result<FileList, NoMemory> {
    let mut files = Items::new(alloc);
    for (name, content) in FIRST_FILES {
        files.push(file(alloc, name, content)?)?;
    }
    Ok(files)
}

/// The documents of both units, in the folders `u1` and `u2`.
pub fn both_files(alloc: Global) -> Result<FileList, NoMemory> {
    let mut files = first_files(alloc)?;
    let (unit, content) = SECOND_UNIT;
    files.push(file_in(alloc, "u2", unit, content)?)?;
    for (name, content) in FIRST_FILES {
        if name != unit {
            files.push(file_in(alloc, "u2", name, content)?)?;
        }
    }
    Ok(files)
}

/// The words as strings.
pub fn strings(alloc: Global, words: &[&str]) -> Result<Vec<String>, NoMemory> {
    let mut all = Vec::new(alloc);
    for word in words {
        all.push(String::from_str(alloc, *word)?)?;
    }
    Ok(all)
}

/// The status of the call over these objects.
fn status_of<L: Ledger>(
    alloc: Global,
    words: &[String],
    shelf: &mut MemoryShelf,
    source: &mut MemorySource,
    sink: &mut MemorySink,
    blank: Blank,
) -> u8
    requires name { blank.name ≡ L.name }
    requires parts { blank.parts ≡ L.parts }
    requires some { 0 < L.parts }
{
    let mut steps = Steps::<L>::new(blank);
    let Status(status) = ld_main(alloc, words, shelf, source, sink, &mut steps);
    status
}

/// The source of the call.
pub fn source(alloc: Global, case: &Case<'_>) -> Result<MemorySource, NoMemory> {
    let lines = bytes(alloc, case.lines)?;
    let failing = call(alloc, case.source_fails)?;
    Ok(MemorySource::new(lines, case.piece.max(1), failing))
}

/// The status of the call over this shelf and this source, and what it wrote.
fn written(
    alloc: Global,
    shelf: &mut MemoryShelf,
    source: &mut MemorySource,
    case: &Case<'_>,
) -> Result<(u8, Vec<u8>), NoMemory> {
    let words = strings(alloc, case.words)?;
    let mut sink = MemorySink::new(alloc, case.room, call(alloc, case.sink_fails)?)?;
    let status = status_of::<Brand>(alloc, &words, shelf, source, &mut sink, Blank::new(1));
    let written = Vec::from_slice(alloc, sink.bytes())?;
    Ok((status, written))
}

/// The status of the call over these files, and what it wrote.
pub fn ran_over(
    alloc: Global,
    files: FileList,
    case: &Case<'_>,
) -> Result<(u8, Vec<u8>), NoMemory> {
    let mut source = source(alloc, case)?;
    let mut shelf = MemoryShelf::new(files, call(alloc, case.shelf_fails)?);
    written(alloc, &mut shelf, &mut source, case)
}

/// The same over the documents of the first unit.
pub fn ran(alloc: Global, case: &Case<'_>) -> Result<(u8, Vec<u8>), NoMemory> {
    ran_over(alloc, first_files(alloc)?, case)
}

/// The checked unit of these files.
pub fn checked(alloc: Global, files: FileList) -> Result<Checked, Fail> {
    let mut shelf = MemoryShelf::new(files, Items::new(alloc));
    match read_folder(alloc, &mut shelf, "u1") {
        Ok(checked) => Ok(checked),
        Err(_) => Err("the folder is refused".into()),
    }
}
