//! The types of terms.
#![tactic(auto, using(ld_json::proofs::First::first_of_both))]

ghost use Rattle.std.specs.Prelude.{◌≡◌, [], IfErr, IfOk, OnOk, option_map};
ghost use Rattle.ld_json.specs.declared.code.Code.TheVariants.{BadType};
ghost use Rattle.ld_json.specs.Fault.{SaysFirst};
ghost use Rattle.ld_model.specs.Expressions.{list_term, pair_term, terms_from};
ghost use Rattle.ld_walk.specs.Places.{member};
ghost use Rattle.ld_types.specs.Faults.{fault_if};
ghost use Rattle.ld_types.specs.Operators.{checked_list_operator_of, checked_pair_operator_of};
ghost use Rattle.ld_types.specs.TermFaults.{is_no_list, is_no_pair, is_no_value, term_faults, terms_faults};
ghost use Rattle.ld_types.specs.Types.{known_pair_type, term_type, term_types};
ghost use Rattle.ld_types.specs.TypingView.{find_by};

use crate::literals::is_no_value;
use crate::types::{ListOperator, PairOperator, ValueType};
use crate::typing::Typing;
use ld_base::{NoMemory, PlainText};
use ld_json::{Code, ReadFault};
use ld_model::{Term, TermForm};
use ld_value::Kind;
use ld_walk::Spot;
use std::alloc::Global;

impl<'a> Typing<'a> {
    /// The type of the term, where it has one.
    #[cycle(types)]
    pub(crate) fn term_type(
        &self,
        alloc: Global,
        term: &Term,
    ) -> Result<Option<ValueType>, NoMemory>
        ensures { IfOk result (λ type. type ≡ term_type (find_by self.now) term.now) }
    {
        match &*term.form {
            TermForm::Property(id) => Ok(self.type_named(id)),
            TermForm::Text(_) => Ok(Some(ValueType::Text)),
            TermForm::Integer(_) => Ok(Some(ValueType::Integer)),
            TermForm::Boolean(_) => Ok(Some(ValueType::Boolean)),
            TermForm::Duration(_) => Ok(Some(ValueType::Duration)),
            TermForm::Sum(terms) => self.list_type(alloc, ListOperator::Adding, terms),
            TermForm::Multiply(terms) => self.list_type(alloc, ListOperator::Multiplying, terms),
            TermForm::Subtract(a, b) => self.pair_type(alloc, PairOperator::Subtracting, a, b),
            TermForm::Divide(a, b) => self.pair_type(alloc, PairOperator::Dividing, a, b),
            TermForm::Datetime(_)
            | TermForm::CurrentDatetime
            | TermForm::DatetimeActivityStarted(_)
            | TermForm::TimeUnitOfLearningStarted => Ok(Some(ValueType::Datetime)),
        }
    }

    /// The type of a sum or a product of the terms.
    #[cycle(types)]
    fn list_type(
        &self,
        alloc: Global,
        operator: ListOperator,
        terms: &[Term],
    ) -> Result<Option<ValueType>, NoMemory>
        ensures { IfOk result (λ type. type ≡ term_type (find_by self.now)
            (list_term (checked_list_operator_of operator) (terms_from terms.now))) }
    {
        match self.term_types(alloc, terms)? {
            Some(types) => Ok(operator.type_of(types.as_slice())),
            None => Ok(None),
        }
    }

    /// The type of a difference or a quotient of the terms.
    #[cycle(types)]
    fn pair_type(
        &self,
        alloc: Global,
        operator: PairOperator,
        a: &Term,
        b: &Term,
    ) -> Result<Option<ValueType>, NoMemory>
        ensures { IfOk result (λ type. type ≡ term_type (find_by self.now)
            (pair_term (checked_pair_operator_of operator) a.now b.now)) }
    {
        let first = self.term_type(alloc, a)?;
        let second = self.term_type(alloc, b)?;
        Ok(known_pair_type(operator, first, second))
    }

    /// The types of all the terms, where each has one.
    #[cycle(types)]
    fn term_types(&self, alloc: Global, terms: &[Term]) -> Result<Option<Vec<ValueType>>, NoMemory>
        ensures { IfOk result (λ types. option_map (λ list. list.items) types
            ≡ term_types (find_by self.now) (terms_from terms.now)) }
    {
        let mut types = Vec::new(alloc);
        for term in terms {
            let Some(one) = self.term_type(alloc, term)? else {
                return Ok(None);
            };
            types.push(one)?;
        }
        Ok(Some(types))
    }
}

/// The type of a difference or a quotient, where the types of both operands are known.
fn known_pair_type(
    operator: PairOperator,
    a: Option<ValueType>,
    b: Option<ValueType>,
) -> Option<ValueType>
    ensures { result ≡ known_pair_type (checked_pair_operator_of operator) a b }
{
    operator.type_of(a?, b?)
}

impl<'a> Typing<'a> {
    /// That the term at the place has no fault, in a place of the run as a whole or of a person.
    #[cycle(terms)]
    pub(crate) fn check_term(
        &self,
        alloc: Global,
        at: &Spot<'_>,
        of_run: bool,
        term: &Term,
    ) -> Result<(), ReadFault>
        ensures faultless { OnOk result
            (term_faults (find_by self.now) of_run at.now term.now ≡ []) }
        ensures first { IfErr result
            (SaysFirst (term_faults (find_by self.now) of_run at.now term.now)) }
    {
        match &*term.form {
            TermForm::Property(id) => {
                if of_run && self.is_persons(id) {
                    return Err(at.member("property").fault(alloc, Code::BadType));
                }
                Ok(())
            }
            TermForm::DatetimeActivityStarted(_) => {
                if of_run {
                    return Err(at.fault(alloc, Code::BadType));
                }
                Ok(())
            }
            TermForm::Text(text) => check_literal(alloc, at, Kind::Text, "text", text),
            TermForm::Integer(text) => check_literal(alloc, at, Kind::Integer, "integer", text),
            TermForm::Boolean(text) => check_literal(alloc, at, Kind::Boolean, "boolean", text),
            TermForm::Datetime(text) => check_literal(alloc, at, Kind::Datetime, "datetime", text),
            TermForm::Duration(text) => check_literal(alloc, at, Kind::Duration, "duration", text),
            TermForm::Sum(terms) => self.check_list(alloc, at, of_run, ListOperator::Adding, terms),
            TermForm::Multiply(terms) => {
                self.check_list(alloc, at, of_run, ListOperator::Multiplying, terms)
            }
            TermForm::Subtract(a, b) => {
                self.check_pair(alloc, at, of_run, PairOperator::Subtracting, a, b)
            }
            TermForm::Divide(a, b) => {
                self.check_pair(alloc, at, of_run, PairOperator::Dividing, a, b)
            }
            TermForm::CurrentDatetime | TermForm::TimeUnitOfLearningStarted => Ok(()),
        }
    }

    /// That a sum or a product at the place has no fault.
    #[cycle(terms)]
    fn check_list(
        &self,
        alloc: Global,
        at: &Spot<'_>,
        of_run: bool,
        operator: ListOperator,
        terms: &[Term],
    ) -> Result<(), ReadFault>
        ensures faultless { OnOk result (term_faults (find_by self.now) of_run at.now
            (list_term (checked_list_operator_of operator) (terms_from terms.now)) ≡ []) }
        ensures first { IfErr result (SaysFirst (term_faults (find_by self.now) of_run at.now
            (list_term (checked_list_operator_of operator) (terms_from terms.now)))) }
    {
        if is_no_list(operator, &self.term_types(alloc, terms)?) {
            return Err(at.fault(alloc, Code::BadType));
        }
        self.check_terms(alloc, &at.member(operator.word()), of_run, terms)?;
        Ok(())
    }

    /// That the terms of the list at the place have no fault.
    #[cycle(terms)]
    fn check_terms(
        &self,
        alloc: Global,
        at: &Spot<'_>,
        of_run: bool,
        terms: &[Term],
    ) -> Result<(), ReadFault>
        ensures faultless { OnOk result
            (terms_faults (find_by self.now) of_run at.now 0 (terms_from terms.now) ≡ []) }
        ensures first { IfErr result
            (SaysFirst (terms_faults (find_by self.now) of_run at.now 0 (terms_from terms.now))) }
    {
        for (i, term) in terms.iter().enumerate() {
            self.check_term(alloc, &at.item(i), of_run, term)?;
        }
        Ok(())
    }

    /// That a difference or a quotient at the place has no fault.
    #[cycle(terms)]
    fn check_pair(
        &self,
        alloc: Global,
        at: &Spot<'_>,
        of_run: bool,
        operator: PairOperator,
        a: &Term,
        b: &Term,
    ) -> Result<(), ReadFault>
        ensures faultless { OnOk result (term_faults (find_by self.now) of_run at.now
            (pair_term (checked_pair_operator_of operator) a.now b.now) ≡ []) }
        ensures first { IfErr result (SaysFirst (term_faults (find_by self.now) of_run at.now
            (pair_term (checked_pair_operator_of operator) a.now b.now))) }
    {
        let first = self.term_type(alloc, a)?;
        let second = self.term_type(alloc, b)?;
        if is_no_pair(operator, first, second) {
            return Err(at.fault(alloc, Code::BadType));
        }
        let list = at.member(operator.word());
        self.check_term(alloc, &list.item(0), of_run, a)?;
        self.check_term(alloc, &list.item(1), of_run, b)?;
        Ok(())
    }
}

/// That the literal at the place has a value.
fn check_literal(
    alloc: Global,
    at: &Spot<'_>,
    kind: Kind,
    word: &'static str,
    text: &PlainText,
) -> Result<(), ReadFault>
    ensures faultless { OnOk result
        (fault_if (is_no_value kind text.now) BadType (member at.now word.now) ≡ []) }
    ensures first { IfErr result
        (SaysFirst (fault_if (is_no_value kind text.now) BadType (member at.now word.now))) }
{
    if is_no_value(alloc, kind, text)? {
        return Err(at.member(word).fault(alloc, Code::BadType));
    }
    Ok(())
}

/// Whether no sum or product of operands of these types is in the table.
fn is_no_list(operator: ListOperator, types: &Option<Vec<ValueType>>) -> bool
    ensures { result ≡ is_no_list (checked_list_operator_of operator)
        (option_map (λ list. list.items) types.now) }
{
    match types {
        Some(types) => operator.type_of(types.as_slice()).is_none(),
        None => false,
    }
}

/// Whether no difference or quotient of operands of these types is in the table.
fn is_no_pair(operator: PairOperator, a: Option<ValueType>, b: Option<ValueType>) -> bool
    ensures { result ≡ is_no_pair (checked_pair_operator_of operator) a b }
{
    match (a, b) {
        (Some(a), Some(b)) => operator.type_of(a, b).is_none(),
        _ => false,
    }
}
