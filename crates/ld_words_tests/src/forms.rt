//! The forms of words.
use ld_base::NoMemory;
use ld_words::{Form, form_of};
use std::alloc::Global;
use std::test::Fail;

/// The words of the line, with one space between each and the next.
fn words_in(alloc: Global, line: &str) -> Result<Vec<String>, NoMemory> {
    let mut words = Vec::new(alloc);
    for word in line.split(' ') {
        words.push(String::from_str(alloc, word)?)?;
    }
    Ok(words)
}

#[test]
fn each_form_has_its_folders(rt: HostRuntime) -> Result<(), Fail> {
    let words = words_in(rt.alloc(), "replay u1 u2")?;
    let Some(Form::Replay(folders)) = form_of(rt.alloc(), &words)? else {
        return Err("not the form of `replay`".into());
    };
    assert_eq!(rt; folders.len(), 2);
    let words = words_in(rt.alloc(), "check u1")?;
    let Some(Form::Check(folder)) = form_of(rt.alloc(), &words)? else {
        return Err("not the form of `check`".into());
    };
    assert_eq!(rt; folder, "u1");
    let words = words_in(rt.alloc(), "canon u1")?;
    let Some(Form::Canon(folder)) = form_of(rt.alloc(), &words)? else {
        return Err("not the form of `canon`".into());
    };
    assert_eq!(rt; folder, "u1");
    let words = words_in(rt.alloc(), "rank u1")?;
    let Some(Form::Rank(folder)) = form_of(rt.alloc(), &words)? else {
        return Err("not the form of `rank`".into());
    };
    assert_eq!(rt; folder, "u1");
    let words = words_in(rt.alloc(), "keep u1")?;
    let Some(Form::Keep(folders)) = form_of(rt.alloc(), &words)? else {
        return Err("not the form of `keep`".into());
    };
    assert_eq!(rt; folders.len(), 1);
    Ok(())
}

#[test]
fn other_words_have_no_form(rt: HostRuntime) -> Result<(), Fail> {
    for line in [
        "",
        "replay",
        "check",
        "keep",
        "gen",
        "gen 7",
        "gen 7 0",
        "gen 7 201",
        "gen 7 0003",
        "gen 7 3 1",
        "gen +7 3",
        "gen 7a 3",
        "gen 4294967296 3",
        "gen 00000000007 3",
        "gen u1 3",
        "gen 7 -3",
        "Replay u1",
        "rep u1",
        "help",
        "help check",
        "version",
        "check -x",
        "check u1 u2",
        "check  u1",
        "canon",
        "canon u1 u2",
        "rank u1 u2",
        "replay --help",
        "replay u1 -",
        "replay -- u1",
        "--help",
        "-V",
    ] {
        let words = words_in(rt.alloc(), line)?;
        assert!(rt; form_of(rt.alloc(), &words)?.is_none(), "{line}");
    }
    assert!(rt; form_of(rt.alloc(), &[])?.is_none());
    Ok(())
}

#[test]
fn at_most_64_folders_are_named(rt: HostRuntime) -> Result<(), Fail> {
    for verb in ["replay", "keep"] {
        let mut words = words_in(rt.alloc(), verb)?;
        for _ in 0..64 {
            words.push(String::from_str(rt.alloc(), "u1")?)?;
        }
        assert!(rt; form_of(rt.alloc(), &words)?.is_some(), "{verb}");
        words.push(String::from_str(rt.alloc(), "u1")?)?;
        assert!(rt; form_of(rt.alloc(), &words)?.is_none(), "{verb}");
    }
    Ok(())
}

#[test]
fn the_generator_has_two_numbers(rt: HostRuntime) -> Result<(), Fail> {
    for (line, numbers) in [
        ("gen 7 3", (7, 3)),
        ("gen 0 1", (0, 1)),
        ("gen 4294967295 200", (4294967295, 200)),
        ("gen 0000000007 003", (7, 3)),
    ] {
        let words = words_in(rt.alloc(), line)?;
        let Some(Form::Gen { number, persons }) = form_of(rt.alloc(), &words)? else {
            return Err("not the form of `gen`".into());
        };
        assert_eq!(rt; (number, persons), numbers, "{line}");
    }
    Ok(())
}
