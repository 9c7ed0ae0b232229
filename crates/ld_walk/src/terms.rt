//! Terms.
ghost use Rattle.std.specs.Prelude.{◌≡◌, ◌∷◌, ◌++◌, [], false, OnOk};
ghost use Rattle.ld_model.specs.Expressions.{terms_from};
ghost use Rattle.ld_walk.specs.ExpressionParts.{reads_clock, any_reads_clock, leaf_parts, clock_parts, term_parts, terms_parts};
ghost use Rattle.ld_walk.specs.ExpressionParts.{plain_part};
ghost use Rattle.ld_walk.specs.Parts.{Leaf};
ghost use Rattle.ld_walk.specs.Places.{member, nth};
ghost use Rattle.ld_walk.specs.Walks.{added};

use crate::items::list_reference;
use crate::kind::Wanted;
use crate::part::What;
use crate::walk::Walk;
use ld_base::{Id, NoMemory, number};
use ld_model::{Level, Term, TermForm};

/// Whether the term looks at the moment of the command.
#[cycle(clock)]
pub fn reads_clock(term: &Term) -> bool
    ensures { result ≡ reads_clock term.now }
{
    match &*term.form {
        TermForm::CurrentDatetime => true,
        TermForm::Sum(terms) => any_reads_clock(terms),
        TermForm::Multiply(terms) => any_reads_clock(terms),
        TermForm::Subtract(a, b) => reads_clock(a) || reads_clock(b),
        TermForm::Divide(a, b) => reads_clock(a) || reads_clock(b),
        TermForm::Property(_)
        | TermForm::Text(_)
        | TermForm::Integer(_)
        | TermForm::Boolean(_)
        | TermForm::Datetime(_)
        | TermForm::Duration(_)
        | TermForm::DatetimeActivityStarted(_)
        | TermForm::TimeUnitOfLearningStarted => false,
    }
}

/// Whether one of the terms does.
#[cycle(clock)]
fn any_reads_clock(terms: &[Term]) -> bool
    ensures { result ≡ any_reads_clock (terms_from terms.now) }
{
    for term in terms {
        if reads_clock(term) {
            return true;
        }
    }
    false
}

/// Lists a leaf that refers to nothing.
pub fn list_plain_leaf<'a>(walk: &mut Walk<'a>, of_members: bool) -> Result<(), NoMemory>
    ensures { OnOk result
        (walk.new ≡ added walk.old (plain_part walk.old.at (Leaf of_members) ∷ [])) }
{
    walk.put(Level::A, What::Leaf(of_members))
}

/// Lists a leaf and what it refers to.
pub fn list_leaf<'a>(
    walk: &mut Walk<'a>,
    of_members: bool,
    name: &'static str,
    wanted: Wanted,
    target: &'a Id,
) -> Result<(), NoMemory>
    ensures { OnOk result
        (walk.new ≡ added walk.old (leaf_parts walk.old.at of_members name.now wanted target.now)) }
{
    list_plain_leaf(walk, of_members)?;
    list_reference(walk, name, wanted, target)
}

/// Lists the moment of the command, which is left out but where it is compared.
fn list_clock<'a>(walk: &mut Walk<'a>, of_members: bool, clock: bool) -> Result<(), NoMemory>
    ensures { OnOk result (walk.new ≡ added walk.old (clock_parts walk.old.at of_members clock)) }
{
    list_plain_leaf(walk, of_members)?;
    if clock {
        return Ok(());
    }
    walk.put(Level::A, What::LeftOut)
}

/// Lists a term: whether it is asked of each member of a role, and whether it may be the moment of
/// the command.
#[cycle(terms)]
pub fn list_term<'a>(
    walk: &mut Walk<'a>,
    of_members: bool,
    clock: bool,
    term: &'a Term,
) -> Result<(), NoMemory>
    ensures { OnOk result
        (walk.new ≡ added walk.old (term_parts walk.old.at of_members clock term.now)) }
{
    match &*term.form {
        TermForm::Property(id) => list_leaf(walk, of_members, "property", Wanted::Property, id),
        TermForm::Sum(terms) => list_terms(walk, of_members, "sum", terms),
        TermForm::Multiply(terms) => list_terms(walk, of_members, "multiply", terms),
        TermForm::Subtract(a, b) => list_pair(walk, of_members, "subtract", a, b),
        TermForm::Divide(a, b) => list_pair(walk, of_members, "divide", a, b),
        TermForm::CurrentDatetime => list_clock(walk, of_members, clock),
        TermForm::DatetimeActivityStarted(id) => {
            let name = "datetime-activity-started";
            list_leaf(walk, of_members, name, Wanted::Activity, id)
        }
        TermForm::Text(_)
        | TermForm::Integer(_)
        | TermForm::Boolean(_)
        | TermForm::Datetime(_)
        | TermForm::Duration(_)
        | TermForm::TimeUnitOfLearningStarted => list_plain_leaf(walk, of_members),
    }
}

/// Lists the term of this number in the member of this name.
#[cycle(terms)]
pub fn list_operand<'a>(
    walk: &mut Walk<'a>,
    of_members: bool,
    clock: bool,
    name: &'static str,
    index: u32,
    term: &'a Term,
) -> Result<(), NoMemory>
    ensures { OnOk result
        (walk.new
        ≡ added walk.old (term_parts (nth walk.old.at name.now index) of_members clock term.now)) }
{
    walk.enter_nth(name, index)?;
    list_term(walk, of_members, clock, term)?;
    walk.leave();
    Ok(())
}

/// Lists the terms in the member of this name.
#[cycle(terms)]
fn list_terms<'a>(
    walk: &mut Walk<'a>,
    of_members: bool,
    name: &'static str,
    terms: &'a [Term],
) -> Result<(), NoMemory>
    ensures { OnOk result
        (walk.new ≡ added walk.old
        (terms_parts (member walk.old.at name.now) of_members 0 (terms_from terms.now))) }
{
    for (i, term) in terms.iter().enumerate() {
        list_operand(walk, of_members, false, name, number(i)?, term)?;
    }
    Ok(())
}

/// Lists the two terms in the member of this name.
#[cycle(terms)]
fn list_pair<'a>(
    walk: &mut Walk<'a>,
    of_members: bool,
    name: &'static str,
    a: &'a Term,
    b: &'a Term,
) -> Result<(), NoMemory>
    ensures { OnOk result
        (walk.new ≡ added walk.old (term_parts (nth walk.old.at name.now 0) of_members false a.now
        ++ term_parts (nth walk.old.at name.now 1) of_members false b.now)) }
{
    list_operand(walk, of_members, false, name, 0, a)?;
    list_operand(walk, of_members, false, name, 1, b)
}
