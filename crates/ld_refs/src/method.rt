//! What stands where in the method of a unit.
ghost use Rattle.std.specs.Prelude.{◌≡◌, option_copied};
ghost use Rattle.ld_refs.specs.Extents.{act_at, play_at, role_part_at};

use ld_model::{Act, Play, RolePart, Unit};

/// The play of this number.
pub(crate) fn play_at(unit: &Unit, play: u32) -> Option<&Play>
    ensures { option_copied result ≡ play_at unit.now play }
{
    unit.method.plays.get(play as usize)
}

/// The act of this number in the play of a number.
pub(crate) fn act_at(unit: &Unit, play: u32, act: u32) -> Option<&Act>
    ensures { option_copied result ≡ act_at unit.now play act }
{
    play_at(unit, play)?.acts.get(act as usize)
}

/// The role-part of this number in the act of a number.
pub(crate) fn role_part_at(unit: &Unit, play: u32, act: u32, part: u32) -> Option<&RolePart>
    ensures { option_copied result ≡ role_part_at unit.now play act part }
{
    act_at(unit, play, act)?.role_parts.get(part as usize)
}
