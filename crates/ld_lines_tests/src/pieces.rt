//! Lines of small inputs and at the limit of a line, however the bytes come.
ghost use Rattle.std.specs.Prelude.{◌<◌};

use ld_base::{Items, MemorySource};
use ld_lines::{LineStop, Lines, Next};
use std::alloc::Global;
use std::test::Fail;

const PIECES: [usize; 4] = [1, 2, 7, 65_536];

/// What five calls of `next` answer: a short line as it is, a long one by its length.
fn answers(alloc: Global, bytes: &[u8], piece: usize, failing: &[u64]) -> Result<String, Fail>
    requires { 0 < piece }
{
    let Ok(mut lines) = Lines::new(alloc) else {
        return Ok(String::from_str(alloc, "no memory")?);
    };
    let bytes = Items::from_vec(Vec::from_slice(alloc, bytes)?);
    let failing = Items::from_vec(Vec::from_slice(alloc, failing)?);
    let mut source = MemorySource::new(bytes, piece, failing);
    let mut told = String::new(alloc);
    for _ in 0..5 {
        match lines.next(&mut source) {
            Ok(Next::Whole(line)) => push_line(&mut told, line)?,
            Ok(Next::Over) => told.push_str("over ")?,
            Ok(Next::End) => told.push_str("end ")?,
            Err(LineStop::ReadFault) => told.push_str("fault ")?,
            Err(LineStop::InputTooLong) => told.push_str("too-long ")?,
        }
    }
    Ok(told)
}

fn push_line(told: &mut String, line: &[u8]) -> Result<(), Fail> {
    let length = line.len();
    if length > 20 {
        write!(told, "{length} ")?;
        return Ok(());
    }
    match str::from_utf8(line) {
        Ok(text) => write!(told, "[{text}] ")?,
        Err(_) => told.push_str("? ")?,
    }
    Ok(())
}

/// Whether a line is held before each of four calls of `next`.
fn held(alloc: Global, bytes: &[u8], piece: usize) -> Result<String, Fail>
    requires { 0 < piece }
{
    let Ok(mut lines) = Lines::new(alloc) else {
        return Ok(String::from_str(alloc, "no memory")?);
    };
    let bytes = Items::from_vec(Vec::from_slice(alloc, bytes)?);
    let mut source = MemorySource::new(bytes, piece, Items::new(alloc));
    let mut told = String::new(alloc);
    for _ in 0..4 {
        told.push_str(if lines.holds_line() { "yes " } else { "no " })?;
        let _ = lines.next(&mut source);
    }
    Ok(told)
}

#[test]
fn a_line_is_held_that_came_with_the_one_before(rt: HostRuntime) -> Result<(), Fail> {
    let bytes = b"a\n \nb\nc";
    assert_eq!(rt; held(rt.alloc(), bytes, 65_536)?.as_str(), "no yes no no ");
    assert_eq!(rt; held(rt.alloc(), bytes, 1)?.as_str(), "no no no no ");
    Ok(())
}

#[test]
fn small_inputs(rt: HostRuntime) -> Result<(), Fail> {
    let table = [
        (b"".as_slice(), "end end end end end "),
        (b"\n", "end end end end end "),
        (b"a", "[a] end end end end "),
        (b"a\n", "[a] end end end end "),
        (b"a\nbc\nd", "[a] [bc] [d] end end "),
        (b"a\r\nb\r\n", "[a\r] [b\r] end end end "),
        (b"\n \t\r\n\na\n\r\n\nb\n \n\n", "[a] [b] end end end "),
        (b"a\n \t", "[a] end end end end "),
        (b" a \n\tb", "[ a ] [\tb] end end end "),
        (b"1\n2\n3\n4\n5\n6", "[1] [2] [3] [4] [5] "),
    ];
    for (bytes, wanted) in table {
        for piece in PIECES {
            let told = answers(rt.alloc(), bytes, piece, &[])?;
            assert_eq!(rt; told.as_str(), wanted, "{bytes:?} by {piece}");
        }
    }
    Ok(())
}

#[test]
fn lines_at_the_limit(rt: HostRuntime) -> Result<(), Fail> {
    let table = [
        (b'x', 65_536, "", "65536 end end end end "),
        (b'x', 65_536, "\n", "65536 end end end end "),
        (b'x', 65_536, "\nb\n", "65536 [b] end end end "),
        (b'x', 65_537, "", "over end end end end "),
        (b'x', 65_537, "\n", "over end end end end "),
        (b'x', 65_537, "\n\nb", "over [b] end end end "),
        (b'x', 200_000, "\nb\nc", "over [b] [c] end end "),
        (b' ', 65_536, "\nb", "[b] end end end end "),
        (b' ', 65_536, "", "end end end end end "),
        (b' ', 65_537, "\nb", "over [b] end end end "),
        (b' ', 65_537, "", "over end end end end "),
    ];
    for (byte, count, rest, wanted) in table {
        let mut bytes = vec![in rt.alloc(); byte; count]?;
        bytes.extend_from_slice(rest.as_bytes())?;
        for piece in PIECES {
            let told = answers(rt.alloc(), &bytes, piece, &[])?;
            assert_eq!(rt;
                told.as_str(),
                wanted,
                "{count} bytes and {rest:?} by {piece}"
            );
        }
    }
    Ok(())
}

/// The source gives `a\n`, `b\n`, `c`, and tells its end in its fourth call.
#[test]
fn faults_at_each_call(rt: HostRuntime) -> Result<(), Fail> {
    let table = [
        (1, "fault [a] [b] [c] end "),
        (2, "[a] fault [b] [c] end "),
        (3, "[a] [b] fault [c] end "),
        (4, "[a] [b] fault [c] end "),
        (5, "[a] [b] [c] end end "),
    ];
    for (call, wanted) in table {
        let told = answers(rt.alloc(), b"a\nb\nc", 2, &[call])?;
        assert_eq!(rt; told.as_str(), wanted, "at call {call}");
    }
    Ok(())
}
