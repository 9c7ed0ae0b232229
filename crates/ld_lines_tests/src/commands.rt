//! A line of each verb. The tables of lines that are no command stand in tests/lines.
use ld_base::Id;
use ld_lines::{CommandReader, Line, LineFault, RunCommand};
use std::alloc::Global;
use std::test::Fail;

/// The line's command in words: the seconds of its moment, its verb and the verb's words.
fn told(alloc: Global, reader: &mut CommandReader, words: &str) -> Result<String, Fail> {
    let mut bytes = String::from_str(alloc, r#"["1970-01-01T00:01:00Z""#)?;
    bytes.push_str(words)?;
    bytes.push_str("]")?;
    let mut told = String::new(alloc);
    match reader.read(alloc, bytes.as_bytes()) {
        Ok(line) => push_line(&mut told, &line)?,
        Err(LineFault::BadLine) => told.push_str("bad-line")?,
        Err(LineFault::NoMemory) => told.push_str("no-memory")?,
    }
    Ok(told)
}

fn push_line(told: &mut String, line: &Line) -> Result<(), Fail> {
    match line {
        Line::Create { moment, run, unit } => {
            write!(
                told,
                "{} create {} {}",
                moment.0,
                run.as_str(),
                unit.as_str()
            )?;
            Ok(())
        }
        Line::OfRun {
            moment,
            run,
            command,
        } => {
            write!(told, "{} {} ", moment.0, run.as_str())?;
            push_command(told, command)
        }
        Line::GlobalSet {
            moment,
            uri,
            person,
            value,
        } => {
            write!(told, "{} global-set {} ", moment.0, uri.as_str())?;
            push_person(told, person)?;
            write!(told, "[{}]", value.as_str())?;
            Ok(())
        }
        Line::GlobalGet {
            moment,
            uri,
            person,
        } => {
            write!(told, "{} global-get {} ", moment.0, uri.as_str())?;
            push_person(told, person)
        }
    }
}

fn push_person(told: &mut String, person: &Option<Id>) -> Result<(), Fail> {
    match person {
        Some(id) => write!(told, "{} ", id.as_str())?,
        None => told.push_str("nobody ")?,
    }
    Ok(())
}

fn push_command(told: &mut String, command: &RunCommand) -> Result<(), Fail> {
    match command {
        RunCommand::Enrol { person } => push_words(told, "enrol", person, None),
        RunCommand::Assign { person, role } => push_words(told, "assign", person, Some(role)),
        RunCommand::Drop { person, role } => push_words(told, "drop", person, Some(role)),
        RunCommand::Start => push_verb(told, "start"),
        RunCommand::Open { person, activity } => push_words(told, "open", person, Some(activity)),
        RunCommand::Complete { person, activity } => {
            push_words(told, "complete", person, Some(activity))
        }
        RunCommand::Set {
            person,
            property,
            value,
        } => {
            push_words(told, "set", person, Some(property))?;
            write!(told, " [{}]", value.as_str())?;
            Ok(())
        }
        RunCommand::Clear { person, property } => push_words(told, "clear", person, Some(property)),
        RunCommand::Get { person, property } => push_words(told, "get", person, Some(property)),
        RunCommand::Tree { person } => push_words(told, "tree", person, None),
        RunCommand::Outbox { person } => push_words(told, "outbox", person, None),
        RunCommand::Report => push_verb(told, "report"),
        RunCommand::Tick => push_verb(told, "tick"),
        RunCommand::Next => push_verb(told, "next"),
    }
}

fn push_verb(told: &mut String, verb: &str) -> Result<(), Fail> {
    told.push_str(verb)?;
    Ok(())
}

fn push_words(told: &mut String, verb: &str, person: &Id, other: Option<&Id>) -> Result<(), Fail> {
    write!(told, "{verb} {}", person.as_str())?;
    if let Some(id) = other {
        write!(told, " {}", id.as_str())?;
    }
    Ok(())
}

#[test]
fn each_verb(rt: HostRuntime) -> Result<(), Fail> {
    let table = [
        (r#","create","r","u1""#, "60 create r u1"),
        (r#","enrol","r","ann""#, "60 r enrol ann"),
        (
            r#","assign","r","ann","learner""#,
            "60 r assign ann learner",
        ),
        (r#","drop","r","ann","learner""#, "60 r drop ann learner"),
        (r#","start","r""#, "60 r start"),
        (r#","open","r","ann","read""#, "60 r open ann read"),
        (r#","complete","r","ann","read""#, "60 r complete ann read"),
        (r#","set","r","ann","p","4 \u0061""#, "60 r set ann p [4 a]"),
        (r#","clear","r","ann","p""#, "60 r clear ann p"),
        (r#","get","r","ann","p""#, "60 r get ann p"),
        (r#","tree","r","ann""#, "60 r tree ann"),
        (r#","outbox","r","ann""#, "60 r outbox ann"),
        (r#","report","r""#, "60 r report"),
        (r#","tick","r""#, "60 r tick"),
        (r#","next","r""#, "60 r next"),
        (
            r#","global-set","urn:g","ann","5""#,
            "60 global-set urn:g ann [5]",
        ),
        (
            r#","global-set","urn:g","","""#,
            "60 global-set urn:g nobody []",
        ),
        (r#","global-get","urn:g","""#, "60 global-get urn:g nobody "),
        (r#","fly","r""#, "bad-line"),
        (r#","tick","r","x""#, "bad-line"),
    ];
    let mut reader = CommandReader::new(rt.alloc());
    for (words, wanted) in table {
        let told = told(rt.alloc(), &mut reader, words)?;
        assert_eq!(rt; told.as_str(), wanted, "{words}");
    }
    Ok(())
}
