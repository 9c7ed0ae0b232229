//! The values of terms.
ghost use Rattle.std.specs.Prelude.{◌≡◌, ◌+◌, ◌≤◌, length, IfOk, OnErr, Some, true, option_map};
ghost use Rattle.ld_model.specs.Expressions.{list_term, pair_term, terms_from};
ghost use Rattle.ld_value.specs.Datum.{datum_of, is_text_datum};
ghost use Rattle.ld_expr.specs.Looks.{property_looks, term_looks, terms_looks};
ghost use Rattle.ld_expr.specs.OperandView.{meant_by};
ghost use Rattle.ld_expr.specs.Operators.{list_operator_of, pair_operator_of};
ghost use Rattle.ld_expr.specs.Terms.{property_value, term_value};

use crate::arithmetic::{ListOperator, PairOperator};
use crate::cells::{cell_of_property, thing_number};
use crate::operand::Operand;
use crate::scope::Scope;
use ld_base::{Id, NoMemory, Steps};
use ld_model::{CellName, Owner, Term, TermForm, View};
use ld_value::{Kind, Value};
use std::alloc::Global;
use std::sync::ledger::Ledger;

impl<'a, V: View> Scope<'a, V> {
    /// The value of the term for the owner; `Ok(None)` exactly where it has none. The only error is
    /// out of memory, and it comes for a text alone. It takes at most a step for each cell at which
    /// the term looks. (docs/MEANING.md, "Terms and tests")
    pub fn value_of<L: Ledger>(
        &self,
        alloc: Global,
        owner: Owner,
        term: &Term,
        steps: &mut Steps<L>,
    ) -> Result<Option<Value>, NoMemory>
        ensures value { IfOk result (λ value. option_map datum_of value
            ≡ term_value self.now.unit.now (V.seen self.now.view.now) owner term.now) }
        ensures memory { OnErr result (option_map is_text_datum
            (term_value self.now.unit.now (V.seen self.now.view.now) owner term.now) ≡ Some true) }
        ensures cost { steps.new ≤ steps.old + length (term_looks self.now.unit.now
            (V.seen self.now.view.now) owner term.now) }
    {
        match self.operand_of(owner, term, steps) {
            Some(operand) => Ok(Some(operand.into_value(alloc)?)),
            None => Ok(None),
        }
    }

    /// The value of the term for the owner, looked at where it stands; None exactly where it has
    /// none. It takes no memory.
    #[cycle(terms)]
    pub(crate) fn operand_of<'t, L: Ledger>(
        &'t self,
        owner: Owner,
        term: &'t Term,
        steps: &mut Steps<L>,
    ) -> Option<Operand<'t>>
        ensures value { option_map meant_by result
            ≡ term_value self.now.unit.now (V.seen self.now.view.now) owner term.now }
        ensures cost { steps.new ≤ steps.old + length (term_looks self.now.unit.now
            (V.seen self.now.view.now) owner term.now) }
    {
        match &*term.form {
            TermForm::Property(id) => self.of_property(owner, id, steps),
            TermForm::Text(text) => Operand::of_text(text.as_str()),
            TermForm::Integer(text) => Operand::of_scalar(Kind::Integer, text.as_str()),
            TermForm::Boolean(text) => Operand::of_scalar(Kind::Boolean, text.as_str()),
            TermForm::Datetime(text) => Operand::of_scalar(Kind::Datetime, text.as_str()),
            TermForm::Duration(text) => Operand::of_scalar(Kind::Duration, text.as_str()),
            TermForm::Sum(terms) => self.of_list(owner, ListOperator::Adding, terms, steps),
            TermForm::Multiply(terms) => {
                self.of_list(owner, ListOperator::Multiplying, terms, steps)
            }
            TermForm::Subtract(a, b) => self.of_pair(owner, PairOperator::Subtracting, a, b, steps),
            TermForm::Divide(a, b) => self.of_pair(owner, PairOperator::Dividing, a, b, steps),
            TermForm::CurrentDatetime => of_cell(self.view, CellName::Now, steps),
            TermForm::DatetimeActivityStarted(id) => {
                let thing = thing_number(self.unit, self.names, id)?;
                of_cell(self.view, CellName::Opened(thing, owner), steps)
            }
            TermForm::TimeUnitOfLearningStarted => of_cell(self.view, CellName::Started, steps),
        }
    }

    /// The value of an operation on the terms, from left to right.
    #[cycle(terms)]
    fn of_list<'t, L: Ledger>(
        &'t self,
        owner: Owner,
        operator: ListOperator,
        terms: &'t [Term],
        steps: &mut Steps<L>,
    ) -> Option<Operand<'t>>
        ensures value { option_map meant_by result
            ≡ term_value self.now.unit.now (V.seen self.now.view.now) owner
            (list_term (list_operator_of operator) (terms_from terms.now)) }
        ensures cost { steps.new
            ≤ steps.old + length (terms_looks self.now.unit.now
            (V.seen self.now.view.now) owner (terms_from terms.now)) }
    {
        let (first, more) = terms.split_first()?;
        let mut total = self.operand_of(owner, first, steps)?;
        for term in more {
            let next = self.operand_of(owner, term, steps)?;
            total = operator.apply(total, next)?;
        }
        Some(total)
    }

    /// The value of an operation on two terms.
    #[cycle(terms)]
    fn of_pair<'t, L: Ledger>(
        &'t self,
        owner: Owner,
        operator: PairOperator,
        a: &'t Term,
        b: &'t Term,
        steps: &mut Steps<L>,
    ) -> Option<Operand<'t>>
        ensures value { option_map meant_by result
            ≡ term_value self.now.unit.now (V.seen self.now.view.now) owner
            (pair_term (pair_operator_of operator) a.now b.now) }
        ensures cost { steps.new ≤ steps.old + length (term_looks self.now.unit.now
            (V.seen self.now.view.now) owner
            (pair_term (pair_operator_of operator) a.now b.now)) }
    {
        let first = self.operand_of(owner, a, steps)?;
        let second = self.operand_of(owner, b, steps)?;
        operator.apply(first, second)
    }

    /// The value of the property that the identifier names, for the owner.
    fn of_property<L: Ledger>(
        &self,
        owner: Owner,
        id: &Id,
        steps: &mut Steps<L>,
    ) -> Option<Operand<'a>>
        ensures value { option_map meant_by result
            ≡ property_value self.now.unit.now (V.seen self.now.view.now) owner id.now }
        ensures cost { steps.new
            ≤ steps.old + length (property_looks self.now.unit.now
            (V.seen self.now.view.now) owner id.now) }
    {
        let cell = cell_of_property(self.unit, self.names, owner, id)?;
        of_cell(self.view, cell, steps)
    }
}

/// The value of the cell.
fn of_cell<'a, V: View, L: Ledger>(
    view: &'a V,
    cell: CellName,
    steps: &mut Steps<L>,
) -> Option<Operand<'a>>
    ensures value { option_map meant_by result ≡ (V.seen view.now).value cell }
    ensures cost { steps.new ≡ steps.old + 1 }
{
    Some(Operand::of(view.get(cell, steps)?))
}
