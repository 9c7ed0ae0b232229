//! Terms.
ghost use Rattle.std.specs.Prelude.{◌≡◌, IfOk, map};
ghost use Rattle.serde_json.specs.Data.{array};
ghost use Rattle.serde_json.specs.View.{view, items_of};
ghost use Rattle.ld_canon.specs.Canonical.{canonical_term, canonical_terms};
ghost use Rattle.ld_canon.specs.Terms.{sole_tree, two_trees, term_tree, term_trees};
ghost use Rattle.ld_model.specs.Expressions.{terms_from};

use crate::soles::{pair_tree, sole, sole_id, sole_text, sole_true};
use ld_base::NoMemory;
use ld_model::{Term, TermForm};
use ld_value::Kind;
use serde_json::Value;
use std::alloc::Global;

/// The tree of a term, its value texts as their values are printed.
#[cycle(terms)]
pub(crate) fn tree_of_term(alloc: Global, term: &Term) -> Result<Value, NoMemory>
    ensures { IfOk result (λ tree. view tree ≡ term_tree (canonical_term term.now)) }
{
    match &*term.form {
        TermForm::Property(id) => sole_id(alloc, "property", id),
        TermForm::Text(text) => sole_text(alloc, "text", Kind::Text, text),
        TermForm::Integer(text) => sole_text(alloc, "integer", Kind::Integer, text),
        TermForm::Boolean(text) => sole_text(alloc, "boolean", Kind::Boolean, text),
        TermForm::Datetime(text) => sole_text(alloc, "datetime", Kind::Datetime, text),
        TermForm::Duration(text) => sole_text(alloc, "duration", Kind::Duration, text),
        TermForm::Sum(terms) => tree_of_list(alloc, "sum", terms),
        TermForm::Multiply(terms) => tree_of_list(alloc, "multiply", terms),
        TermForm::Subtract(a, b) => tree_of_pair(alloc, "subtract", a, b),
        TermForm::Divide(a, b) => tree_of_pair(alloc, "divide", a, b),
        TermForm::CurrentDatetime => sole_true(alloc, "current-datetime"),
        TermForm::DatetimeActivityStarted(id) => sole_id(alloc, "datetime-activity-started", id),
        TermForm::TimeUnitOfLearningStarted => sole_true(alloc, "time-unit-of-learning-started"),
    }
}

/// The object of one member, the list of the terms.
#[cycle(terms)]
fn tree_of_list(alloc: Global, name: &str, terms: &[Term]) -> Result<Value, NoMemory>
    ensures { IfOk result (λ tree. view tree ≡ sole_tree name.now
        (array (items_of (term_trees (canonical_terms (terms_from terms.now)))))) }
{
    let trees = trees_of_terms(alloc, terms)?;
    sole(alloc, name, Value::from(trees))
}

/// The trees of terms.
#[cycle(terms)]
fn trees_of_terms(alloc: Global, terms: &[Term]) -> Result<Vec<Value>, NoMemory>
    ensures { IfOk result (λ trees.
        map view trees.items ≡ term_trees (canonical_terms (terms_from terms.now))) }
{
    let mut trees = Vec::new(alloc);
    for term in terms {
        let tree = tree_of_term(alloc, term)?;
        trees.push(tree)?;
    }
    Ok(trees)
}

/// The object of one member, the list of two terms.
#[cycle(terms)]
fn tree_of_pair(alloc: Global, name: &str, a: &Term, b: &Term) -> Result<Value, NoMemory>
    ensures { IfOk result (λ tree. view tree ≡ sole_tree name.now
        (two_trees (term_tree (canonical_term a.now)) (term_tree (canonical_term b.now)))) }
{
    let first = tree_of_term(alloc, a)?;
    let second = tree_of_term(alloc, b)?;
    let pair = pair_tree(alloc, first, second)?;
    sole(alloc, name, pair)
}
