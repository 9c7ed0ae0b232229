//! The shelf, the source and the sink over memory, and writing to a sink.
ghost use Rattle.std.specs.Prelude.{Some, None};

use super::{answers, cut};
use ld_base::{
    Bytes, CallList, FILE_LIMIT, File, FileList, Items, MemoryShelf, MemorySink, MemorySource,
    NoMemory, Shelf, Sink, SinkFailed, Source, Text, write_all,
};
use std::alloc::{AllocError, Global};
use std::test::Fail;

/// A folder, a file there, and what each call of a shelf answers whose second and fourth call fail.
const READS: &str = "\
u1|roles.json|=first
u1|roles.json|failed
u2|roles.json|=other
u2|unit.json|failed
u2|unit.json|none
u3|roles.json|none
big|more|too-big";

/// How many bytes are asked for, and what each call gives of `abcdefg` in pieces of three, where
/// the second and the fifth call fail.
const TAKES: &str = "\
8|abc
8|failed
2|de
8|fg
8|failed
8|";

/// A piece, and what each call answers where there is room for five bytes and the second call
/// fails.
const PUTS: &str = "\
ab|2
|failed
cdef|failed
cde|3
|0
f|failed";

fn bytes_of(alloc: Global, text: &str) -> Result<Bytes, AllocError> {
    Ok(Items::from_vec(Vec::from_slice(alloc, text.as_bytes())?))
}

fn calls_of(alloc: Global, calls: &[u64]) -> Result<CallList, AllocError> {
    Ok(Items::from_vec(Vec::from_slice(alloc, calls)?))
}

/// Adds a file.
fn add(
    files: &mut FileList,
    alloc: Global,
    folder: &str,
    file: &str,
    bytes: Bytes,
) -> Result<(), NoMemory> {
    let (folder, file) = (Text::of(alloc, folder)?, Text::of(alloc, file)?);
    files.push(File {
        folder,
        file,
        bytes,
    })
}

/// Whether the source gives these bytes where this many are asked for, or is said to fail.
fn gives(source: &mut MemorySource, asked: usize, wanted: &str) -> bool {
    let mut into = [0u8; 8];
    match source.take(&mut into[..asked.clamp(1, 8)]) {
        Ok(count) => &into[..count.min(8)] == wanted.as_bytes(),
        Err(_) => wanted == "failed",
    }
}

/// Whether the sink answers so.
fn takes(sink: &mut MemorySink, piece: &str, wanted: &str) -> bool {
    match sink.put(piece.as_bytes()) {
        Ok(count) => wanted.parse() == Ok(count),
        Err(SinkFailed) => wanted == "failed",
    }
}

/// The files of three folders, one of which has a file of the greatest size and one beyond.
fn files_of_three(alloc: Global) -> Result<FileList, NoMemory> {
    let mut files = FileList::new(alloc);
    add(
        &mut files,
        alloc,
        "u1",
        "roles.json",
        bytes_of(alloc, "first")?,
    )?;
    add(
        &mut files,
        alloc,
        "u1",
        "roles.json",
        bytes_of(alloc, "second")?,
    )?;
    add(
        &mut files,
        alloc,
        "u2",
        "roles.json",
        bytes_of(alloc, "other")?,
    )?;
    let (most, more) = (
        vec![in alloc; 0u8; FILE_LIMIT]?,
        vec![in alloc; 0u8; FILE_LIMIT + 1]?,
    );
    add(&mut files, alloc, "big", "most", Items::from_vec(most))?;
    add(&mut files, alloc, "big", "more", Items::from_vec(more))?;
    Ok(files)
}

#[test]
fn shelf_in_memory(rt: HostRuntime) -> Result<(), Fail> {
    let alloc = rt.alloc();
    let files = files_of_three(alloc)?;
    let mut shelf = MemoryShelf::new(files, calls_of(alloc, &[2, 4])?);
    for line in READS.lines() {
        let (folder, rest) = cut(line)?;
        assert!(rt; answers(&mut shelf, alloc, folder, rest), "{line}");
    }
    let most = shelf.read(alloc, "big", "most");
    assert!(rt; matches!(&most, Ok(Some(bytes)) if bytes.len() == FILE_LIMIT));
    Ok(())
}

#[test]
fn streams_in_memory(rt: HostRuntime) -> Result<(), Fail> {
    let alloc = rt.alloc();
    let mut source = MemorySource::new(bytes_of(alloc, "abcdefg")?, 3, calls_of(alloc, &[2, 5])?);
    for line in TAKES.lines() {
        let (asked, wanted) = cut(line)?;
        assert!(rt; gives(&mut source, asked.parse()?, wanted), "{line}");
    }
    let mut sink = MemorySink::new(alloc, 5, calls_of(alloc, &[2])?)?;
    for line in PUTS.lines() {
        let (piece, wanted) = cut(line)?;
        assert!(rt; takes(&mut sink, piece, wanted), "{line}");
    }
    assert!(rt; sink.bytes() == b"abcde".as_slice());
    Ok(())
}

/// A sink that takes at most two bytes at a time.
#[derive(Drop)]
struct ShortSink {
    sink: MemorySink,
}

impl Sink for ShortSink {
    ghost written = { λ s. Some s.sink.written };

    ghost faults = { λ s. s.sink.calls.faults };

    fn put(&mut self, piece: &[u8]) -> Result<usize, SinkFailed> {
        let count = piece.len().min(2);
        self.sink.put(&piece[..count])
    }
}

/// A sink that is full.
#[derive(Drop)]
struct FullSink {
    faults: u64,
}

impl Sink for FullSink {
    ghost written = { λ _. None };

    ghost faults = { λ s. s.faults };

    fn put(&mut self, _piece: &[u8]) -> Result<usize, SinkFailed> {
        self.faults = self.faults.saturating_add(1);
        Ok(0)
    }
}

/// Whether just this is written of `abcde` to a sink with that room, of which one call fails: all
/// of it, or a beginning and the call is said to fail.
fn writes(alloc: Global, room: usize, failing: u64, written: &str) -> Result<bool, Fail> {
    let sink = MemorySink::new(alloc, room, calls_of(alloc, &[failing])?)?;
    let mut short = ShortSink { sink };
    let well = write_all(&mut short, b"abcde").is_ok();
    Ok(well == (written == "abcde") && short.sink.bytes() == written.as_bytes())
}

#[test]
fn all_is_written_or_a_beginning(rt: HostRuntime) -> Result<(), Fail> {
    for (room, failing, written) in [(9, 0, "abcde"), (9, 3, "abcd"), (3, 0, "ab")] {
        assert!(rt; writes(rt.alloc(), room, failing, written)?, "{written}");
    }
    let mut full = FullSink { faults: 0 };
    assert!(rt; write_all(&mut full, b"").is_ok());
    assert!(rt; write_all(&mut full, b"a").is_err() && full.faults == 1);
    Ok(())
}
