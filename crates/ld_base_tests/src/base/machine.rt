//! The shelf, the source and the sink over the machine.
use super::{answers, cut};
use ld_base::{FILE_LIMIT, FolderShelf, Shelf, Source, StdinSource, StdoutSink, write_all};
use std::test::Fail;
use std::{env, fs, io};

/// A folder, a file there, and what a shelf answers.
const READS: &str = "\
/course|roles.json|=[1, 2]
/course|unit.json|none
/gone|roles.json|none
|course|failed
/course/roles.json|unit.json|failed
/course|more|too-big";

/// A path in the folder for temporary files that no other process takes.
fn room(rt: &HostRuntime) -> io::Result<String> {
    let (base, process) = (env::temp_dir(rt)?, std::process::id(rt.process()));
    Ok(format!(in rt.alloc(); "{}/ld_base_tests.{process}", base.as_path().as_str())?)
}

/// Writes a file of the course in this folder.
fn put(rt: &HostRuntime, room: &str, file: &str, bytes: &[u8]) -> io::Result<()> {
    fs::write(rt, format!(in rt.alloc(); "{room}/course/{file}")?, bytes)
}

/// Writes a file of this many blanks of the course in this folder.
fn put_blanks(rt: &HostRuntime, room: &str, file: &str, count: usize) -> io::Result<()> {
    let blanks = vec![in rt.alloc(); b' '; count]?;
    put(rt, room, file, blanks.as_slice())
}

/// Writes the files of a course into this folder.
fn put_course(rt: &HostRuntime, room: &str) -> io::Result<()> {
    fs::create_dir_all(rt, format!(in rt.alloc(); "{room}/course")?)?;
    put(rt, room, "roles.json", b"[1, 2]")?;
    put_blanks(rt, room, "more", FILE_LIMIT + 1)?;
    put_blanks(rt, room, "most", FILE_LIMIT)
}

/// Whether the shelf answers so of a folder in this one.
fn is_read<S: Shelf>(
    shelf: &mut S,
    rt: &HostRuntime,
    room: &str,
    line: &str,
) -> Result<bool, Fail> {
    let (folder, rest) = cut(line)?;
    let folder = format!(in rt.alloc(); "{room}{folder}")?;
    Ok(answers(shelf, rt.alloc(), folder.as_str(), rest))
}

/// Whether the course in this folder has a file of the greatest size, and the shelf reads it whole.
fn is_read_whole<S: Shelf>(shelf: &mut S, rt: &HostRuntime, room: &str) -> Result<bool, Fail> {
    let folder = format!(in rt.alloc(); "{room}/course")?;
    match shelf.read(rt.alloc(), folder.as_str(), "most") {
        Ok(Some(bytes)) => Ok(bytes.len() == FILE_LIMIT),
        _ => Ok(false),
    }
}

#[test]
fn folders_of_the_machine(rt: HostRuntime) -> Result<(), Fail> {
    let room = room(&rt)?;
    put_course(&rt, room.as_str())?;
    let mut shelf = FolderShelf::new(&rt);
    for line in READS.lines() {
        assert!(rt; is_read(&mut shelf, &rt, room.as_str(), line)?, "{line}");
    }
    assert!(rt; is_read_whole(&mut shelf, &rt, room.as_str())?);
    fs::remove_dir_all(&rt, room)?;
    Ok(())
}

#[test]
fn streams_of_the_machine(rt: HostRuntime) -> Result<(), Fail> {
    let mut source = StdinSource::new(&rt);
    let mut into = [0u8; 256];
    for _ in 0..u64::MAX {
        if source.take(&mut into)? == 0 {
            break;
        }
    }
    assert!(rt; source.take(&mut into) == Ok(0));
    let mut sink = StdoutSink::new(&rt);
    write_all(&mut sink, b"a line\n")?;
    Ok(())
}
