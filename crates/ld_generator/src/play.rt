//! Answering the lines of the generator.
#![tactic(auto)]

ghost use Rattle.std.specs.Prelude.{◌≡◌, ◌≤◌, ◌^◌, ◌∷◌, [], IfOk, length};
ghost use Rattle.ld_generator.specs.GeneratedLines.{lines_from};
ghost use Rattle.ld_generator.specs.GeneratedUnit.{generated_unit};
ghost use Rattle.ld_generator.specs.Tallies.{replied, tally_of};
ghost use Rattle.ld_world.specs.World.{first_world};
ghost use Rattle.ld_world.specs.WorldView.{world_of};

use crate::ask::Ask;
use crate::lines::write_line;
use crate::tally::Tally;
use crate::unit::generated_unit;
use crate::validity::generated_unit_is_valid;
use ld_base::{NoMemory, Steps, Text};
use ld_json::ReadFault;
use ld_refs::check::check;
use ld_world::World;
use std::alloc::Global;
use std::sync::ledger::Ledger;

/// A world that has the generator's unit alone.
pub fn generated_world(alloc: Global) -> Result<World, NoMemory>
    ensures { IfOk result (λ world. world_of world ≡ first_world (generated_unit ∷ [])) }
{
    let unit = generated_unit(alloc)?;
    generated_unit_is_valid(&unit);
    let checked = match check(alloc, unit) {
        Ok(checked) => checked,
        Err(ReadFault::NoMemory) => return Err(NoMemory),
        Err(ReadFault::Refused(_)) => unreachable!(),
    };
    let mut world = World::new(alloc);
    match world.publish(alloc, checked) {
        Ok(()) => Ok(world),
        Err(ReadFault::NoMemory) => Err(NoMemory),
        Err(ReadFault::Refused(_)) => unreachable!(),
    }
}

/// Answers the lines that ask for this, one after the other, and says what the replies come to.
pub fn play<L: Ledger>(
    alloc: Global,
    world: &mut World,
    asks: &[Ask],
    steps: &mut Steps<L>,
) -> Result<Tally, NoMemory>
    requires { length asks.now ≤ 2 ^ 16 }
    ensures { IfOk result (λ tally. tally
        ≡ tally_of asks.now (replied (world_of world.old) (lines_from 0 asks.now))) }
{
    let mut line = Text::with_room(alloc, LINE_ROOM)?;
    let mut out = Text::with_room(alloc, REPLY_ROOM)?;
    let mut tally = Tally::new();
    for ask in asks {
        write_line(tally.lines, *ask, &mut line)?;
        let reply = world.answer(alloc, line.as_str().as_bytes(), &mut out, steps);
        tally = tally.with_reply(*ask, reply)?;
    }
    Ok(tally)
}

/// The room that is taken for a line, in bytes.
const LINE_ROOM: usize = 128;

/// The room that is taken for a reply, in bytes.
const REPLY_ROOM: usize = 4096;
