//! The text of a line.
#![tactic(auto)]

ghost use Rattle.std.specs.Prelude.{◌≡◌, ◌++◌, decimal, OnOk};
ghost use Rattle.ld_generator.specs.GeneratedLines.{line_text, quoted_words, words_of};

use crate::ask::Ask;
use itoa::Buffer;
use ld_base::{NoMemory, Text};
use ld_value::{Moment, print_moment};

/// The moment of the first line, 2024-01-01T00:00:00Z.
const FIRST: i64 = 1_704_067_200;

/// Puts the line into the text, in place of what it held. The first line has the number 0.
pub(crate) fn write_line(number: u32, ask: Ask, line: &mut Text) -> Result<(), NoMemory>
    ensures { OnOk result (line.new.bytes ≡ line_text number ask) }
{
    line.clear();
    line.push("[\"")?;
    line.push_ascii(&print_moment(Moment(FIRST + i64::from(number))))?;
    push_words(ask, line)?;
    line.push("\"]")
}

/// Appends the words behind the moment, each behind a quotation mark, a comma and another one.
fn push_words(ask: Ask, line: &mut Text) -> Result<(), NoMemory>
    ensures { OnOk result (line.new.bytes ≡ line.old.bytes ++ quoted_words (words_of ask)) }
{
    match ask {
        Ask::Create => line.push("\",\"create\",\"g\",\"gen"),
        Ask::Enrol(person) => push_numbered("\",\"enrol\",\"g\",\"p", person, line),
        Ask::Assign(person) => {
            push_numbered("\",\"assign\",\"g\",\"p", person, line)?;
            line.push("\",\"learner")
        }
        Ask::Start => line.push("\",\"start\",\"g"),
        Ask::Complete(person, activity) => {
            push_numbered("\",\"complete\",\"g\",\"p", person, line)?;
            push_numbered("\",\"a", activity, line)
        }
    }
}

/// Appends the text and a number behind it.
fn push_numbered(front: &str, number: u8, line: &mut Text) -> Result<(), NoMemory>
    ensures { OnOk result (line.new.bytes ≡ line.old.bytes ++ (front.now ++ decimal number)) }
{
    line.push(front)?;
    line.push(Buffer::new().format(number))
}
