//! Lines that are answered over a journal.
ghost use Rattle.std.specs.Prelude.{◌≡◌, ◌<◌};

use crate::calls::{Case, bytes, call, case_of, first_files, source, strings};
use ld_base::{MemoryShelf, MemorySink, MemorySource, NoMemory, Steps};
use ld_keep::MemoryDisk;
use ld_top::{Status, ld_top};
use std::alloc::Global;
use std::marker::Brand;
use std::sync::ledger::{Blank, Ledger};
use std::test::Fail;

/// A line that makes a run, and one that enrols a person in it.
const LINES: &[u8] =
    b"[\"2024-01-01T08:00:00Z\",\"create\",\"r\",\"u1\"]\n[\"2024-01-01T08:00:00Z\",\"enrol\",\"r\",\"ann\"]\n";

/// How many bytes of them the first line has, without its line feed.
const FIRST: usize = 42;

/// A call of `keep u1` over the documents of the first unit: its status, what it wrote, and what
/// the journal holds after it.
#[derive(Drop)]
struct Kept {
    status: u8,
    written: Vec<u8>,
    journal: Vec<u8>,
}

/// The status of the call over these objects.
fn status_of<L: Ledger>(
    alloc: Global,
    words: &[String],
    shelf: &mut MemoryShelf,
    source: &mut MemorySource,
    sink: &mut MemorySink,
    disk: &mut MemoryDisk,
    blank: Blank,
) -> u8
    requires name { blank.name ≡ L.name }
    requires parts { blank.parts ≡ L.parts }
    requires some { 0 < L.parts }
{
    let mut steps = Steps::<L>::new(blank);
    let Status(status) = ld_top(alloc, words, shelf, source, sink, disk, &mut steps);
    status
}

/// The call over a journal of these bytes. The disk's call of this number fails, none where it is 0.
fn call_of_keep(
    alloc: Global,
    case: &Case<'_>,
    journal: &[u8],
    fails: u64,
) -> Result<Kept, NoMemory> {
    let words = strings(alloc, case.words)?;
    let mut source = source(alloc, case)?;
    let mut shelf = MemoryShelf::new(first_files(alloc)?, call(alloc, 0)?);
    let mut sink = MemorySink::new(alloc, case.room, call(alloc, 0)?)?;
    let mut disk = MemoryDisk::new(alloc, bytes(alloc, journal)?, 10_000, call(alloc, fails)?)?;
    let status = status_of::<Brand>(
        alloc,
        &words,
        &mut shelf,
        &mut source,
        &mut sink,
        &mut disk,
        Blank::new(1),
    );
    Ok(Kept {
        status,
        written: Vec::from_slice(alloc, sink.bytes())?,
        journal: Vec::from_slice(alloc, disk.bytes())?,
    })
}

#[test]
fn a_line_is_kept_and_the_next_call_goes_on(rt: HostRuntime) -> Result<(), Fail> {
    let words = ["keep", "u1"];
    let one = call_of_keep(rt.alloc(), &case_of(&words, &LINES[..FIRST + 1]), b"", 0)?;
    let answer: &[u8] = b"ok create\n";
    assert_eq!(rt; (one.status, one.written.as_slice()), (0, answer));
    let start: &[u8] = &[1, 0, 0, 0, 42];
    assert_eq!(rt; one.journal.len(), 48);
    assert_eq!(rt; (&one.journal[..5], one.journal[47]), (start, 0));
    assert_eq!(rt; &one.journal[5..47], &LINES[..FIRST]);
    let case = case_of(&words, &LINES[FIRST + 1..]);
    let two = call_of_keep(rt.alloc(), &case, one.journal.as_slice(), 0)?;
    let answer: &[u8] = b"ok enrol turns=0 fired=0 rejected=0 sent=0\n";
    assert_eq!(rt; (two.status, two.written.as_slice()), (0, answer));
    Ok(())
}

#[test]
fn a_disk_that_fails_ends_the_call(rt: HostRuntime) -> Result<(), Fail> {
    let case = case_of(&["keep", "u1"], LINES);
    let lost = call_of_keep(rt.alloc(), &case, b"", 1)?;
    assert_eq!(rt; (lost.status, lost.written.len()), (9, 0));
    Ok(())
}
