//! Terms of expressions.
#![tactic(auto, using(ld_formats::proofs::Unrolled::term_is, ld_json::proofs::Elements::drop_at, ld_json::proofs::First::says_more, ld_shape::proofs::Pairs::both_nodes, ld_shape::proofs::Passing::one_more))]

ghost use Rattle.std.specs.Prelude.{◌≡◌, codes, length, IfOk, IfErr};
ghost use Rattle.ld_formats.specs.Terms.{term, literal_cases, plain_term_cases, term_cases, difference, product, quotient, sum};
ghost use Rattle.ld_json.specs.Access.{IsArray, IsObject, item_nodes};
ghost use Rattle.ld_json.specs.Fault.{SaysFirst};
ghost use Rattle.ld_shape.specs.Lists.{each, list_of, pair_of};
ghost use Rattle.ld_shape.specs.Objects.{needed_in};
ghost use Rattle.ld_shape.specs.Reading.{GivesOrSays, Gives, mapped};
ghost use Rattle.ld_shape.specs.Soles.{chosen, sole};

use crate::completions::ValueText;
use ld_json::{Code, Node, ReadFault};
use ld_model::{Term, TermForm, making};
use ld_shape::{Identifier, Reads, True, count_from, count_two, needed_at};
use std::alloc::Global;

/// A term.
pub struct TermShape;

impl Reads for TermShape {
    type Value = Term;

    ghost shape = { term };

    fn read(alloc: Global, node: &Node<'_, '_>) -> Result<Term, ReadFault> {
        read_term(alloc, node)
    }
}

/// The term that the node stands for, or its first fault. (docs/FORMATS.md, "Documents")
#[cycle(terms)]
pub fn read_term(alloc: Global, node: &Node<'_, '_>) -> Result<Term, ReadFault>
    ensures { GivesOrSays (term.reading node.now) result }
{
    read_one(alloc, &*node)
}

/// A term, made of terms or of none.
#[cycle(terms)]
fn read_one(alloc: Global, node: &Node<'_, '_>) -> Result<Term, ReadFault>
    ensures { GivesOrSays ((sole (term_cases term)).reading node.now) result }
{
    match node.sole(alloc)? {
        "sum" => sum_at(alloc, node),
        "multiply" => product_at(alloc, node),
        "subtract" => difference_at(alloc, node),
        "divide" => quotient_at(alloc, node),
        name => read_plain_term(alloc, node, name),
    }
}

/// The sum at the member of that name.
#[cycle(terms)]
fn sum_at(alloc: Global, node: &Node<'_, '_>) -> Result<Term, ReadFault>
    requires { IsObject node.now }
    ensures { GivesOrSays (mapped sum ((needed_in (codes "sum") (list_of 2 term)).reading node.now))
        result }
{
    let terms = terms_at(alloc, node, "sum")?;
    let sum = making::term(alloc, TermForm::Sum(terms))?;
    Ok(sum)
}

/// The product at the member `multiply`.
#[cycle(terms)]
fn product_at(alloc: Global, node: &Node<'_, '_>) -> Result<Term, ReadFault>
    requires { IsObject node.now }
    ensures { GivesOrSays
        (mapped product ((needed_in (codes "multiply") (list_of 2 term)).reading node.now)) result }
{
    let terms = terms_at(alloc, node, "multiply")?;
    let product = making::term(alloc, TermForm::Multiply(terms))?;
    Ok(product)
}

/// The difference at the member `subtract`.
#[cycle(terms)]
fn difference_at(alloc: Global, node: &Node<'_, '_>) -> Result<Term, ReadFault>
    requires { IsObject node.now }
    ensures { GivesOrSays
        (mapped difference ((needed_in (codes "subtract") (pair_of term)).reading node.now))
        result }
{
    let (a, b) = pair_at(alloc, node, "subtract")?;
    let difference = making::difference(alloc, a, b)?;
    Ok(difference)
}

/// The quotient at the member `divide`.
#[cycle(terms)]
fn quotient_at(alloc: Global, node: &Node<'_, '_>) -> Result<Term, ReadFault>
    requires { IsObject node.now }
    ensures { GivesOrSays
        (mapped quotient ((needed_in (codes "divide") (pair_of term)).reading node.now)) result }
{
    let (a, b) = pair_at(alloc, node, "divide")?;
    let quotient = making::quotient(alloc, a, b)?;
    Ok(quotient)
}

/// The terms at the member of this name, which are two or more.
#[cycle(terms)]
fn terms_at(alloc: Global, node: &Node<'_, '_>, name: &str) -> Result<Vec<Term>, ReadFault>
    requires { IsObject node.now }
    ensures value { IfOk result
        (λ terms. Gives ((needed_in name.now (list_of 2 term)).reading node.now) terms.items) }
    ensures first { IfErr result
        (SaysFirst ((needed_in name.now (list_of 2 term)).reading node.now).faults) }
{
    let list = (&*node).member(alloc, &*name)?;
    read_terms(alloc, &list)
}

/// The terms of an array of two or more.
#[cycle(terms)]
fn read_terms(alloc: Global, node: &Node<'_, '_>) -> Result<Vec<Term>, ReadFault>
    ensures value { IfOk result (λ terms. Gives ((list_of 2 term).reading node.now) terms.items) }
    ensures first { IfErr result (SaysFirst ((list_of 2 term).reading node.now).faults) }
{
    let count = count_from(alloc, node, 2)?;
    read_each(alloc, node, count)
}

/// The terms of the `count` elements of an array.
#[cycle(terms)]
fn read_each(alloc: Global, node: &Node<'_, '_>, count: usize) -> Result<Vec<Term>, ReadFault>
    requires array { IsArray node.now }
    requires whole { count ≡ length (item_nodes node.now) }
    ensures value { IfOk result (λ terms. Gives (each term (item_nodes node.now)) terms.items) }
    ensures first { IfErr result (SaysFirst (each term (item_nodes node.now)).faults) }
{
    let mut terms = Vec::new(alloc);
    for index in 0..count {
        let term = read_term(alloc, &node.item(index))?;
        terms.push(term)?;
    }
    Ok(terms)
}

/// The two terms at the member of this name.
#[cycle(terms)]
fn pair_at(alloc: Global, node: &Node<'_, '_>, name: &str) -> Result<(Term, Term), ReadFault>
    requires { IsObject node.now }
    ensures { GivesOrSays ((needed_in name.now (pair_of term)).reading node.now) result }
{
    let pair = (&*node).member(alloc, &*name)?;
    read_pair(alloc, &pair)
}

/// The two terms of an array.
#[cycle(terms)]
fn read_pair(alloc: Global, node: &Node<'_, '_>) -> Result<(Term, Term), ReadFault>
    ensures { GivesOrSays ((pair_of term).reading node.now) result }
{
    count_two(alloc, node)?;
    let a = read_term(alloc, &node.item(0))?;
    let b = read_term(alloc, &node.item(1))?;
    Ok((a, b))
}

/// A term that is made of no others, by the name of its member.
fn read_plain_term(alloc: Global, node: &Node<'_, '_>, name: &str) -> Result<Term, ReadFault>
    requires { IsObject node.now }
    ensures { GivesOrSays (chosen plain_term_cases node.now name.now) result }
{
    let form = match name {
        "property" => TermForm::Property(needed_at::<Identifier>(alloc, node, "property")?),
        "current-datetime" => {
            needed_at::<True>(alloc, node, "current-datetime")?;
            TermForm::CurrentDatetime
        }
        "datetime-activity-started" => {
            let activity = needed_at::<Identifier>(alloc, node, "datetime-activity-started")?;
            TermForm::DatetimeActivityStarted(activity)
        }
        "time-unit-of-learning-started" => {
            needed_at::<True>(alloc, node, "time-unit-of-learning-started")?;
            TermForm::TimeUnitOfLearningStarted
        }
        _ => return read_literal(alloc, node, name),
    };
    let term = making::term(alloc, form)?;
    Ok(term)
}

/// A literal, by the name of its member, which tells the datatype.
fn read_literal(alloc: Global, node: &Node<'_, '_>, name: &str) -> Result<Term, ReadFault>
    requires { IsObject node.now }
    ensures { GivesOrSays (chosen literal_cases node.now name.now) result }
{
    let form = match name {
        "text" => TermForm::Text(needed_at::<ValueText>(alloc, node, "text")?),
        "integer" => TermForm::Integer(needed_at::<ValueText>(alloc, node, "integer")?),
        "boolean" => TermForm::Boolean(needed_at::<ValueText>(alloc, node, "boolean")?),
        "datetime" => TermForm::Datetime(needed_at::<ValueText>(alloc, node, "datetime")?),
        "duration" => TermForm::Duration(needed_at::<ValueText>(alloc, node, "duration")?),
        _ => return Err(node.fault(alloc, Code::UnknownMember)),
    };
    let term = making::term(alloc, form)?;
    Ok(term)
}
