//! The words of refusals.
ghost use Rattle.std.specs.Prelude.{◌≡◌, Some};
ghost use Rattle.ld_lines.specs.Refusals.{HasRefusal, word_of_refusal};

/// The word of the refusal of this number (docs/COMMANDS.md, "Refusals"). Takes no memory.
pub fn refusal_word(number: u8) -> &'static str
    requires { HasRefusal number }
    ensures { word_of_refusal number ≡ Some result.now }
{
    match number {
        1 => "bad-line",
        2 => "unknown-unit",
        3 => "run-exists",
        4 => "unknown-run",
        5 => "moment-back",
        6 => "not-started",
        7 => "started-already",
        8 => "unknown-person",
        9 => "person-exists",
        10 => "run-full",
        11 => "unknown-role",
        12 => "holds-already",
        13 => "not-held",
        14 => "role-full",
        15 => "role-exclusive",
        16 => "role-short",
        17 => "unknown-activity",
        18 => "not-by-choice",
        19 => "unknown-property",
        20 => "unknown-global",
        21 => "bad-value",
        22 => "not-allowed",
        30 => "turn-budget",
        31 => "not-open",
        99 => "no-memory",
        _ => unreachable!(),
    }
}
