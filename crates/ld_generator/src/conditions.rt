//! The conditions of the generator's unit.
#![tactic(auto, unfolding(ld_base::specs::Identifier::begins_identifier, ld_base::specs::Identifier::continues_identifier))]

ghost use Rattle.std.specs.Prelude.{◌≡◌, ◌∷◌, ◌++◌, [], map, IfOk};
ghost use Rattle.ld_base.specs.Numbers.{numbers_below};
ghost use Rattle.ld_model.specs.Expressions.{literal_term};
ghost use Rattle.ld_value.specs.declared.kind.Kind.TheVariants.{Integer};
ghost use Rattle.ld_generator.specs.GeneratedUnit.{all_have_scored, notifying, one_more, score_term, scoring, telling};

use crate::ids::{activity_id, id_of, one_reference};
use ld_base::{Items, NoMemory, PlainText};
use ld_model::making::{term, test};
use ld_model::{Action, Change, Condition, ConditionList, Notice, Term, TermForm, Test, TestForm};
use std::alloc::Global;

/// How many activities have a condition that counts them.
const SCORED: u8 = 30;

/// A condition for each of the first thirty activities, and one that tells when all of these are
/// done.
pub(crate) fn conditions(alloc: Global) -> Result<ConditionList, NoMemory>
    ensures { IfOk result (λ conditions.
        conditions ≡ map scoring (numbers_below 30) ++ telling ∷ []) }
{
    let mut conditions = scorings(alloc)?;
    conditions.push(telling(alloc)?)?;
    Ok(conditions)
}

/// A condition for each of the first thirty activities.
#[tactic(auto, using(crate::proofs::Counting::one_more))]
fn scorings(alloc: Global) -> Result<ConditionList, NoMemory>
    ensures { IfOk result (λ conditions. conditions ≡ map scoring (numbers_below 30)) }
{
    let mut conditions = Items::new(alloc);
    for number in 0..SCORED {
        conditions.push(scoring(alloc, number)?)?;
    }
    Ok(conditions)
}

/// Whoever has done the activity of this number has one more in `score`.
fn scoring(alloc: Global, number: u8) -> Result<Condition, NoMemory>
    ensures { IfOk result (λ condition. condition ≡ scoring number) }
{
    let mut yes = Items::new(alloc);
    yes.push(one_more(alloc)?)?;
    let done = TestForm::Complete(activity_id(alloc, number)?);
    Ok(Condition {
        test: test(alloc, done)?,
        yes,
        no: Items::new(alloc),
    })
}

/// `score` becomes one more.
fn one_more(alloc: Global) -> Result<Action, NoMemory>
    ensures { IfOk result (λ action. action ≡ one_more) }
{
    let mut terms = Vec::new(alloc);
    terms.push(score(alloc)?)?;
    terms.push(whole(alloc, "1")?)?;
    let value = term(alloc, TermForm::Sum(terms))?;
    Ok(Action::Change(Change {
        property: id_of(alloc, "score")?,
        value,
    }))
}

/// The value of `score`.
fn score(alloc: Global) -> Result<Term, NoMemory>
    ensures { IfOk result (λ term. term ≡ score_term) }
{
    term(alloc, TermForm::Property(id_of(alloc, "score")?))
}

/// The whole number of the text.
fn whole(alloc: Global, text: &str) -> Result<Term, NoMemory>
    ensures { IfOk result (λ term. term ≡ literal_term Integer text.now) }
{
    term(alloc, TermForm::Integer(PlainText::of(alloc, text)?))
}

/// Once each learner has more than 29, the learners get a notice.
fn telling(alloc: Global) -> Result<Condition, NoMemory>
    ensures { IfOk result (λ condition. condition ≡ telling) }
{
    let mut yes = Items::new(alloc);
    yes.push(notice(alloc)?)?;
    Ok(Condition {
        test: all_have_scored(alloc)?,
        yes,
        no: Items::new(alloc),
    })
}

/// The learners get a notice.
fn notice(alloc: Global) -> Result<Action, NoMemory>
    ensures { IfOk result (λ action. action ≡ notifying) }
{
    let roles = one_reference(alloc, "learner")?;
    let subject = PlainText::of(alloc, "all")?;
    Ok(Action::Notify(Notice {
        roles,
        subject: Some(subject),
        activity: None,
    }))
}

/// Whether each learner has more than 29.
fn all_have_scored(alloc: Global) -> Result<Test, NoMemory>
    ensures { IfOk result (λ test. test ≡ all_have_scored) }
{
    let score = score(alloc)?;
    let least = whole(alloc, "29")?;
    let more = test(alloc, TestForm::GreaterThan(score, least))?;
    let role = id_of(alloc, "learner")?;
    let more = Box::new(alloc, more)?;
    test(alloc, TestForm::UsersInRole(role, more))
}
