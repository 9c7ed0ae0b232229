//! Lines that the generator prints.
ghost use Rattle.std.specs.Prelude.{◌≡◌, ◌<◌};

use ld_base::{NoMemory, Steps, Text};
use ld_generator::generated_line;
use std::alloc::Global;
use std::marker::Brand;
use std::sync::ledger::{Blank, Ledger};
use std::test::Fail;

/// The line for the number and so many persons.
fn printed(alloc: Global, number: u32, persons: u8) -> Result<Text, NoMemory> {
    printed_from::<Brand>(alloc, number, persons, Blank::new(1))
}

/// The same, with steps that are counted from 0.
fn printed_from<L: Ledger>(
    alloc: Global,
    number: u32,
    persons: u8,
    blank: Blank,
) -> Result<Text, NoMemory>
    requires name { blank.name ≡ L.name }
    requires parts { blank.parts ≡ L.parts }
    requires some { 0 < L.parts }
{
    let mut steps = Steps::<L>::new(blank);
    generated_line(alloc, number, persons, &mut steps)
}

#[test]
fn three_persons_do_all(rt: HostRuntime) -> Result<(), Fail> {
    let line = printed(rt.alloc(), 7, 3)?;
    assert_eq!(rt;
        line.as_str(),
        "gen number=7 persons=3 lines=158 ok=128 no=30 turns=121 fired=314 rejected=0 sent=3 last=a10\n"
    );
    Ok(())
}

#[test]
fn one_person_does_all(rt: HostRuntime) -> Result<(), Fail> {
    let line = printed(rt.alloc(), 0, 1)?;
    assert_eq!(rt;
        line.as_str(),
        "gen number=0 persons=1 lines=54 ok=44 no=10 turns=41 fired=108 rejected=0 sent=1 last=a29\n"
    );
    Ok(())
}
