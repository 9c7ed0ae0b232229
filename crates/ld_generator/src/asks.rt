//! All that the generator asks of its run.
#![tactic(auto)]

ghost use Rattle.std.specs.Prelude.{◌≡◌, ◌<◌, ◌++◌, flat_map, map, IfOk, OnOk};
ghost use Rattle.ld_base.specs.Numbers.{numbers_below};
ghost use Rattle.ld_generator.specs.GeneratedLines.{activity_of, generated_asks, round_of};
ghost use Rattle.ld_generator.specs.declared.ask.Ask.TheVariants as ask;

use crate::ask::Ask;
use ld_base::NoMemory;
use std::alloc::Global;

/// How many rounds there are.
const ROUNDS: u64 = 50;

/// How many activities there are.
pub(crate) const ACTIVITIES: u8 = 40;

/// What is asked: a run is made, the persons join and become learners, it begins, and in fifty
/// rounds each person completes an activity.
pub fn generated_asks(alloc: Global, number: u32, persons: u8) -> Result<Vec<Ask>, NoMemory>
    ensures { IfOk result (λ asks. asks.items ≡ generated_asks number persons) }
{
    let mut asks = Vec::new(alloc);
    asks.push(Ask::Create)?;
    push_enrols(persons, &mut asks)?;
    push_assigns(persons, &mut asks)?;
    asks.push(Ask::Start)?;
    push_rounds(number, persons, &mut asks)?;
    Ok(asks)
}

/// Each person joins.
#[tactic(auto, using(crate::proofs::Counting::one_more_behind))]
fn push_enrols(persons: u8, asks: &mut Vec<Ask>) -> Result<(), NoMemory>
    ensures { OnOk result (asks.new.items
        ≡ asks.old.items ++ map ask.Enrol (numbers_below persons)) }
{
    for person in 0..persons {
        asks.push(Ask::Enrol(person))?;
    }
    Ok(())
}

/// Each person becomes a learner.
#[tactic(auto, using(crate::proofs::Counting::one_more_behind))]
fn push_assigns(persons: u8, asks: &mut Vec<Ask>) -> Result<(), NoMemory>
    ensures { OnOk result (asks.new.items
        ≡ asks.old.items ++ map ask.Assign (numbers_below persons)) }
{
    for person in 0..persons {
        asks.push(Ask::Assign(person))?;
    }
    Ok(())
}

/// The rounds, one after the other.
#[tactic(auto, using(crate::proofs::Counting::one_list_more))]
fn push_rounds(number: u32, persons: u8, asks: &mut Vec<Ask>) -> Result<(), NoMemory>
    ensures { OnOk result (asks.new.items
        ≡ asks.old.items ++ flat_map (round_of number persons) (numbers_below 50)) }
{
    for round in 0..ROUNDS {
        push_round(number, round, persons, asks)?;
    }
    Ok(())
}

/// Each person completes an activity.
#[tactic(auto, using(crate::proofs::Counting::one_more_behind))]
fn push_round(number: u32, round: u64, persons: u8, asks: &mut Vec<Ask>) -> Result<(), NoMemory>
    requires { round < 50 }
    ensures { OnOk result (asks.new.items ≡ asks.old.items ++ round_of number persons round) }
{
    for person in 0..persons {
        asks.push(Ask::Complete(person, activity_of(number, round, person)))?;
    }
    Ok(())
}

/// The number of the activity that the person completes in this round.
fn activity_of(number: u32, round: u64, person: u8) -> u8
    requires { round < 50 }
    ensures { result ≡ activity_of number round person }
{
    ((u64::from(number) + 7 * u64::from(person) + 11 * round) % u64::from(ACTIVITIES)) as u8
}
