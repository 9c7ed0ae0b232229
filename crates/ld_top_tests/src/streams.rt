//! Lines in pieces, and sources and sinks that fail.
use crate::calls::{file, first, ran, ran_over};
use ld_base::Items;
use std::test::Fail;

/// A run of one person from its making to the completion of its activity.
const FIRST_RUN: &str = r#"["2024-01-01T08:00:00Z","create","r","u1"]
["2024-01-01T08:00:00Z","enrol","r","ann"]
["2024-01-01T08:00:00Z","assign","r","ann","learner"]
["2024-01-01T09:00:00Z","start","r"]
["2024-01-01T09:10:00Z","complete","r","ann","read"]
["2024-01-01T09:11:00Z","tree","r","ann"]
["2024-01-01T09:12:00Z","complete","r","ann","read"]
"#;

const FIRST_REPLIES: &str = r#"ok create
ok enrol turns=0 fired=0 rejected=0 sent=0
ok assign turns=0 fired=0 rejected=0 sent=0
ok start turns=1 fired=1 rejected=0 sent=0
ok complete turns=1 fired=2 rejected=0 sent=0
ok tree turns=0 fired=0 rejected=0 sent=0 lines=6
unit u1 open "First"
  play p open
    act a open
      part rp done
        activity read done "Read"
          item i1 text.html "Text"
no 31 not-open
"#;

#[test]
fn lines_are_answered_however_they_are_cut(rt: HostRuntime) -> Result<(), Fail> {
    for piece in [1, 2, 7, 65_536] {
        let mut case = first(FIRST_RUN.as_bytes());
        case.piece = piece;
        let (status, written) = ran(rt.alloc(), &case)?;
        assert_eq!(rt; status, 0, "in pieces of {piece}");
        assert_eq!(rt;
            written.as_slice(),
            FIRST_REPLIES.as_bytes(),
            "in pieces of {piece}"
        );
    }
    Ok(())
}

#[test]
fn a_source_that_fails_ends_the_call(rt: HostRuntime) -> Result<(), Fail> {
    // The take that fails, the status, and how much of the replies stands: the lines that were ended
    // before it. The run has nine takes.
    let table = [
        (1, 5, 0),
        (2, 5, 10),
        (3, 5, 53),
        (4, 5, 53),
        (5, 5, 97),
        (6, 5, 140),
        (7, 5, 186),
        (8, 5, 374),
        (9, 5, 389),
        (10, 0, 389),
    ];
    for (number, ending, length) in table {
        let mut case = first(FIRST_RUN.as_bytes());
        case.piece = 44;
        case.source_fails = number;
        let (status, written) = ran(rt.alloc(), &case)?;
        assert_eq!(rt;
            (status, written.len()),
            (ending, length),
            "at take {number}"
        );
        assert!(rt;
            FIRST_REPLIES.as_bytes().starts_with(&written),
            "at take {number}"
        );
    }
    Ok(())
}

#[test]
fn a_sink_that_fails_ends_the_call(rt: HostRuntime) -> Result<(), Fail> {
    // The put that fails, the status, and how much of the replies stands: those to the lines before
    // it. The lines come in pieces of 44 bytes, so that each reply is written before more is taken.
    // The run has seven puts.
    for (number, ending, length) in [
        (1, 6, 0),
        (2, 6, 10),
        (3, 6, 53),
        (4, 6, 97),
        (5, 6, 140),
        (6, 6, 186),
        (7, 6, 374),
        (8, 0, 389),
    ] {
        let mut case = first(FIRST_RUN.as_bytes());
        case.piece = 44;
        case.sink_fails = number;
        let (status, written) = ran(rt.alloc(), &case)?;
        assert_eq!(rt;
            (status, written.len()),
            (ending, length),
            "at put {number}"
        );
        assert!(rt;
            FIRST_REPLIES.as_bytes().starts_with(&written),
            "at put {number}"
        );
    }
    Ok(())
}

#[test]
fn a_sink_that_is_full_ends_the_call(rt: HostRuntime) -> Result<(), Fail> {
    // The pieces of the lines, the room of the sink, and how much stands: the replies that fit. The
    // replies to lines that are all there are written together.
    for (piece, room, length) in [
        (44, 9, 0),
        (44, 10, 10),
        (44, 96, 53),
        (44, 388, 374),
        (4096, 388, 0),
    ] {
        let mut case = first(FIRST_RUN.as_bytes());
        case.piece = piece;
        case.room = room;
        let (status, written) = ran(rt.alloc(), &case)?;
        assert_eq!(rt; (status, written.len()), (6, length), "with room {room}");
        assert!(rt;
            FIRST_REPLIES.as_bytes().starts_with(&written),
            "with room {room}"
        );
    }
    Ok(())
}

#[test]
fn a_sink_that_fails_in_a_refusal_ends_the_call(rt: HostRuntime) -> Result<(), Fail> {
    let mut files = Items::new(rt.alloc());
    files.push(file(rt.alloc(), "roles.json", b"[")?)?;
    let mut case = first(FIRST_RUN.as_bytes());
    case.sink_fails = 1;
    let (status, written) = ran_over(rt.alloc(), files, &case)?;
    assert_eq!(rt; (status, written.len()), (6, 0));
    Ok(())
}
