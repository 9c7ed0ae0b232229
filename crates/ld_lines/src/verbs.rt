//! What the words of a command line ask for, by its verb.
#![tactic(auto, unfolding(crate::specs::Commands::command_of_verb, crate::specs::Commands::line_of_verb, crate::specs::Commands::property_command, crate::specs::Commands::showing_command))]

ghost use Rattle.std.specs.Prelude.{◌≡◌, Some, None, IfOk, Err, IsTrue, codes, false};
ghost use Rattle.std.specs.Str.{bytes_eq};
ghost use Rattle.ld_lines.specs.Commands.{command_of_verb, showing_command, line_of_verb, line_in};
ghost use Rattle.ld_lines.specs.Elements.{left_of, ReadsForm};
ghost use Rattle.ld_lines.specs.LineMoment.{moment_of_line};
ghost use Rattle.ld_value.specs.Calendar.{IsMoment};

use crate::command::RunCommand;
use crate::fault::LineFault;
use crate::line::Line;
use crate::words::Words;
use ld_value::Moment;

/// The line that the words are, to the last of them.
pub(crate) fn read_line(words: &mut Words<'_>) -> Result<Line, LineFault>
    ensures ok { IfOk result (λ line. line_in (left_of words.old) ≡ Some line) }
    ensures bad { result ≡ Err LineFault.BadLine → line_in (left_of words.old) ≡ None }
    ensures years { IfOk result (λ line. IsMoment (moment_of_line line).0) }
{
    let moment = words.moment()?;
    let verb = words.text()?;
    let line = read_verb(moment, verb, words)?;
    words.end(line)
}

/// The line of a verb with the words that it takes.
fn read_verb(moment: Moment, verb: &str, words: &mut Words<'_>) -> Result<Line, LineFault>
    ensures reads { ReadsForm (line_of_verb moment verb.now) words.old result words.new }
    ensures moment { IfOk result (λ line. moment_of_line line ≡ moment) }
{
    if is_word(verb, "create") {
        return read_create(moment, words);
    }
    if is_word(verb, "global-set") {
        return read_global_set(moment, words);
    }
    if is_word(verb, "global-get") {
        return read_global_get(moment, words);
    }
    Ok(Line::OfRun {
        moment,
        run: words.identifier()?,
        command: read_run_verb(verb, words)?,
    })
}

/// The line of the verb `create`.
fn read_create(moment: Moment, words: &mut Words<'_>) -> Result<Line, LineFault>
    ensures reads { ReadsForm (line_of_verb moment (codes "create")) words.old result words.new }
    ensures moment { IfOk result (λ line. moment_of_line line ≡ moment) }
{
    Ok(Line::Create {
        moment,
        run: words.identifier()?,
        unit: words.identifier()?,
    })
}

/// The line of the verb `global-set`.
fn read_global_set(moment: Moment, words: &mut Words<'_>) -> Result<Line, LineFault>
    ensures reads { ReadsForm
        (line_of_verb moment (codes "global-set")) words.old result words.new }
    ensures moment { IfOk result (λ line. moment_of_line line ≡ moment) }
{
    Ok(Line::GlobalSet {
        moment,
        uri: words.uri()?,
        person: words.person_or_none()?,
        value: words.plain_text()?,
    })
}

/// The line of the verb `global-get`.
fn read_global_get(moment: Moment, words: &mut Words<'_>) -> Result<Line, LineFault>
    ensures reads { ReadsForm
        (line_of_verb moment (codes "global-get")) words.old result words.new }
    ensures moment { IfOk result (λ line. moment_of_line line ≡ moment) }
{
    Ok(Line::GlobalGet {
        moment,
        uri: words.uri()?,
        person: words.person_or_none()?,
    })
}

/// The command of a verb of one run, with the words behind the run's name. The verbs of properties
/// are the frequent ones.
fn read_run_verb(verb: &str, words: &mut Words<'_>) -> Result<RunCommand, LineFault>
    ensures { ReadsForm (command_of_verb verb.now) words.old result words.new }
{
    if is_word(verb, "get") {
        return Ok(RunCommand::Get {
            person: words.identifier()?,
            property: words.identifier()?,
        });
    }
    if is_word(verb, "set") {
        return Ok(RunCommand::Set {
            person: words.identifier()?,
            property: words.identifier()?,
            value: words.plain_text()?,
        });
    }
    if is_word(verb, "clear") {
        return Ok(RunCommand::Clear {
            person: words.identifier()?,
            property: words.identifier()?,
        });
    }
    read_acting_verb(verb, words)
}

/// The same of a verb that is none of properties.
fn read_acting_verb(verb: &str, words: &mut Words<'_>) -> Result<RunCommand, LineFault>
    requires get { bytes_eq verb.now (codes "get") ≡ false }
    requires set { bytes_eq verb.now (codes "set") ≡ false }
    requires clear { bytes_eq verb.now (codes "clear") ≡ false }
    ensures { ReadsForm (command_of_verb verb.now) words.old result words.new }
{
    if is_word(verb, "complete") {
        return Ok(RunCommand::Complete {
            person: words.identifier()?,
            activity: words.identifier()?,
        });
    }
    if is_word(verb, "tick") {
        return Ok(RunCommand::Tick);
    }
    if is_word(verb, "open") {
        return Ok(RunCommand::Open {
            person: words.identifier()?,
            activity: words.identifier()?,
        });
    }
    if is_word(verb, "enrol") {
        return Ok(RunCommand::Enrol {
            person: words.identifier()?,
        });
    }
    if is_word(verb, "assign") {
        return Ok(RunCommand::Assign {
            person: words.identifier()?,
            role: words.identifier()?,
        });
    }
    if is_word(verb, "drop") {
        return Ok(RunCommand::Drop {
            person: words.identifier()?,
            role: words.identifier()?,
        });
    }
    if is_word(verb, "start") {
        return Ok(RunCommand::Start);
    }
    read_showing_verb(verb, words)
}

/// The same of a verb that shows something.
fn read_showing_verb(verb: &str, words: &mut Words<'_>) -> Result<RunCommand, LineFault>
    ensures { ReadsForm (showing_command verb.now) words.old result words.new }
{
    match verb {
        "tree" => Ok(RunCommand::Tree {
            person: words.identifier()?,
        }),
        "outbox" => Ok(RunCommand::Outbox {
            person: words.identifier()?,
        }),
        "report" => Ok(RunCommand::Report),
        "next" => Ok(RunCommand::Next),
        _ => Err(LineFault::BadLine),
    }
}

/// Whether the verb is this word. Their bytes are compared, and not the texts, since words of
/// different lengths are then told apart without a call.
fn is_word(verb: &str, word: &str) -> bool
    ensures value { result ≡ bytes_eq verb.now word.now }
    ensures same { IsTrue result → verb.now ≡ word.now }
{
    verb.as_bytes() == word.as_bytes()
}
