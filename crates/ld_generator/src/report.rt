//! The line that the generator prints.
#![tactic(auto)]

ghost use Rattle.std.specs.Prelude.{◌≡◌, ◌++◌, codes, IfOk, OnOk};
ghost use Rattle.ld_generator.specs.Tallies.{generated_line, last_text, tally_line};

use crate::asks::generated_asks;
use crate::play::{generated_world, play};
use crate::tally::Tally;
use itoa::Buffer;
use ld_base::{NoMemory, Steps, Text};
use std::alloc::Global;
use std::sync::ledger::Ledger;

/// The line that tells what the lines come to that the number chooses for so many persons, in a
/// world that has the generator's unit alone. (docs/GENERATOR.md, "The report")
pub fn generated_line<L: Ledger>(
    alloc: Global,
    number: u32,
    persons: u8,
    steps: &mut Steps<L>,
) -> Result<Text, NoMemory>
    ensures { IfOk result (λ line. line.bytes ≡ generated_line number persons) }
{
    let asks = generated_asks(alloc, number, persons)?;
    let mut world = generated_world(alloc)?;
    let tally = play(alloc, &mut world, asks.as_slice(), steps)?;
    tally_line(alloc, number, persons, tally)
}

/// `gen number=N persons=P lines=L ok=A no=B turns=T fired=F rejected=R sent=S last=aK`
fn tally_line(alloc: Global, number: u32, persons: u8, tally: Tally) -> Result<Text, NoMemory>
    ensures { IfOk result (λ line. line.bytes ≡ tally_line number persons tally) }
{
    let mut line = Text::of(alloc, "gen number=")?;
    line.push(Buffer::new().format(number))?;
    push_count(" persons=", Buffer::new().format(persons), &mut line)?;
    push_count(" lines=", Buffer::new().format(tally.lines), &mut line)?;
    push_count(" ok=", Buffer::new().format(tally.done), &mut line)?;
    push_count(" no=", Buffer::new().format(tally.refused), &mut line)?;
    push_count(" turns=", Buffer::new().format(tally.turns), &mut line)?;
    push_count(" fired=", Buffer::new().format(tally.fired), &mut line)?;
    push_count(
        " rejected=",
        Buffer::new().format(tally.rejected),
        &mut line,
    )?;
    push_count(" sent=", Buffer::new().format(tally.sent), &mut line)?;
    push_last(tally.last, &mut line)?;
    line.push("\n")?;
    Ok(line)
}

/// Appends the name and the digits behind it.
fn push_count(name: &str, digits: &str, line: &mut Text) -> Result<(), NoMemory>
    ensures { OnOk result (line.new.bytes ≡ line.old.bytes ++ (name.now ++ digits.now)) }
{
    line.push(name)?;
    line.push(digits)
}

/// Appends the activity that was completed last.
fn push_last(last: Option<u8>, line: &mut Text) -> Result<(), NoMemory>
    ensures { OnOk result (line.new.bytes
        ≡ line.old.bytes ++ (codes " last=" ++ last_text last)) }
{
    match last {
        None => line.push(" last=-"),
        Some(activity) => push_count(" last=a", Buffer::new().format(activity), line),
    }
}
