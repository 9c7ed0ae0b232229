//! A world of two units, and lines with the replies that a person expects.
ghost use Rattle.std.specs.Prelude.{◌≡◌, ◌≤◌, ◌<◌, OnOk};
ghost use Rattle.ld_base.specs.Roomy.{room_of};
ghost use Rattle.ld_world.specs.World.{first_world};
ghost use Rattle.ld_world.specs.WorldView.{world_of};

use crate::units::{COURSE, SWING, check, checked};
use ld_base::{Steps, Text};
use ld_json::{Code, ReadFault};
use ld_world::World;
use std::alloc::Global;
use std::marker::Brand;
use std::sync::ledger::{Blank, Ledger};
use std::test::Fail;

#[test]
fn a_line_that_is_too_long_is_answered(rt: HostRuntime) -> Result<(), Fail> {
    let mut world = World::new(rt.alloc());
    let mut out = Text::with_room(rt.alloc(), 128)?;
    world.answer_bad_line(&mut out);
    check(out.as_str() == "no 1 bad-line\n", "a bad line")
}

/// Refuses the test where a new world of both units answers a line otherwise than is told: each
/// text is a line, and behind its end the reply. The lines of `first` come before those of `then`.
pub(crate) fn tell(
    alloc: Global,
    first: &[&'static str],
    then: &[&'static str],
) -> Result<(), Fail> {
    let mut world = World::new(alloc);
    publish_both(alloc, &mut world)?;
    tell_both::<Brand>(alloc, &mut world, first, then, Blank::new(1))
}

/// Publishes both units in a world without units.
fn publish_both(alloc: Global, world: &mut World) -> Result<(), Fail>
    requires first { world_of world.old ≡ first_world world.old.units }
{
    publish(alloc, world, COURSE)?;
    publish(alloc, world, SWING)?;
    let again = checked(alloc, COURSE)?;
    let answer = world.publish(alloc, again);
    check(is_repeated(answer), "the same unit once more")
}

/// Whether the unit was refused, since there is one of its identifier.
fn is_repeated(answer: Result<(), ReadFault>) -> bool {
    matches!(answer, Err(ReadFault::Refused(fault)) if fault.code == Code::RepeatedUnit)
}

/// Publishes the unit of these documents.
fn publish(alloc: Global, world: &mut World, texts: [&'static str; 6]) -> Result<(), Fail>
    requires first { world_of world.old ≡ first_world world.old.units }
    ensures first { OnOk result (world_of world.new ≡ first_world world.new.units) }
{
    let unit = checked(alloc, texts)?;
    Ok(world.publish(alloc, unit)?)
}

/// Tells the lines, with steps that are counted from 0.
fn tell_both<L: Ledger>(
    alloc: Global,
    world: &mut World,
    first: &[&'static str],
    then: &[&'static str],
    blank: Blank,
) -> Result<(), Fail>
    requires name { blank.name ≡ L.name }
    requires parts { blank.parts ≡ L.parts }
    requires some { 0 < L.parts }
{
    let mut steps = Steps::<L>::new(blank);
    let mut out = Text::with_room(alloc, 128)?;
    tell_all(alloc, world, first, &mut out, &mut steps)?;
    tell_all(alloc, world, then, &mut out, &mut steps)
}

/// Tells these lines.
fn tell_all<L: Ledger>(
    alloc: Global,
    world: &mut World,
    told: &[&'static str],
    out: &mut Text,
    steps: &mut Steps<L>,
) -> Result<(), Fail>
    requires room { 128 ≤ room_of out.old }
    ensures room { 128 ≤ room_of out.new }
{
    for text in told {
        check(answers(alloc, world, *text, out, steps), *text)?;
    }
    Ok(())
}

/// Whether the world answers the text's first line by what stands behind it.
fn answers<L: Ledger>(
    alloc: Global,
    world: &mut World,
    text: &str,
    out: &mut Text,
    steps: &mut Steps<L>,
) -> bool
    requires room { 128 ≤ room_of out.old }
    ensures room { 128 ≤ room_of out.new }
{
    let Some((line, reply)) = text.split_once('\n') else {
        return false;
    };
    world.answer(alloc, line.as_bytes(), out, steps);
    out.as_str() == reply
}
