//! The types of values, and what operations make of them.
ghost use Rattle.std.specs.Prelude.{◌≡◌};
ghost use Rattle.std.specs.List.{list_all};
ghost use Rattle.ld_walk.specs.ExpressionParts.{comparison_word, list_operator_word, pair_operator_word};
ghost use Rattle.ld_types.specs.Operators.{checked_comparison_of, checked_list_operator_of, checked_pair_operator_of};
ghost use Rattle.ld_types.specs.TermFaults.{are_comparable};
ghost use Rattle.ld_types.specs.Types.{is_ordered, list_type, others_of, pair_type, same_type, type_of};

use ld_value::Kind;

/// What kind of value a term has.
#[derive(Clone, Copy)]
pub(crate) enum ValueType {
    Text,
    Boolean,
    Integer,
    Datetime,
    Duration,
}

/// An operation on a list of terms.
#[derive(Clone, Copy)]
pub(crate) enum ListOperator {
    Adding,
    Multiplying,
}

/// An operation on two terms.
#[derive(Clone, Copy)]
pub(crate) enum PairOperator {
    Subtracting,
    Dividing,
}

/// How two terms are compared.
#[derive(Clone, Copy)]
pub(crate) enum Comparison {
    Equal,
    Different,
    Greater,
    Less,
}

impl ValueType {
    /// The type of the values of a datatype.
    pub(crate) fn of(kind: Kind) -> ValueType
        ensures { result ≡ type_of kind }
    {
        match kind {
            Kind::String | Kind::Text | Kind::Uri => ValueType::Text,
            Kind::Boolean => ValueType::Boolean,
            Kind::Integer => ValueType::Integer,
            Kind::Datetime => ValueType::Datetime,
            Kind::Duration => ValueType::Duration,
        }
    }

    /// Whether the two are one type.
    pub(crate) fn is(self, other: ValueType) -> bool
        ensures { result ≡ same_type self other }
    {
        match (self, other) {
            (ValueType::Text, ValueType::Text)
            | (ValueType::Boolean, ValueType::Boolean)
            | (ValueType::Integer, ValueType::Integer)
            | (ValueType::Datetime, ValueType::Datetime)
            | (ValueType::Duration, ValueType::Duration) => true,
            _ => false,
        }
    }

    /// Whether the values of the type have an order.
    pub(crate) fn is_ordered(self) -> bool
        ensures { result ≡ is_ordered self }
    {
        match self {
            ValueType::Text | ValueType::Boolean => false,
            ValueType::Integer | ValueType::Datetime | ValueType::Duration => true,
        }
    }
}

impl ListOperator {
    /// The member that holds the terms.
    pub(crate) fn word(self) -> &'static str
        ensures { result.now ≡ list_operator_word (checked_list_operator_of self) }
    {
        match self {
            ListOperator::Adding => "sum",
            ListOperator::Multiplying => "multiply",
        }
    }

    /// The type of a sum or a product of operands of these types, if there is one.
    pub(crate) fn type_of(self, operands: &[ValueType]) -> Option<ValueType>
        ensures { result ≡ list_type (checked_list_operator_of self) operands.now }
    {
        let (first, more) = operands.split_first()?;
        let other = self.others(*first)?;
        if are_all(other, more) {
            return Some(*first);
        }
        None
    }

    /// What the other operands are, where the first is of this type.
    fn others(self, first: ValueType) -> Option<ValueType>
        ensures { result ≡ others_of (checked_list_operator_of self) first }
    {
        match (self, first) {
            (_, ValueType::Integer) => Some(ValueType::Integer),
            (ListOperator::Adding, ValueType::Datetime | ValueType::Duration) => {
                Some(ValueType::Duration)
            }
            _ => None,
        }
    }
}

/// Whether all the types are this one.
fn are_all(one: ValueType, types: &[ValueType]) -> bool
    ensures { result ≡ list_all (same_type one) types.now }
{
    types.iter().all(|each| one.is(*each))
}

impl PairOperator {
    /// The member that holds the terms.
    pub(crate) fn word(self) -> &'static str
        ensures { result.now ≡ pair_operator_word (checked_pair_operator_of self) }
    {
        match self {
            PairOperator::Subtracting => "subtract",
            PairOperator::Dividing => "divide",
        }
    }

    /// The type of a difference or a quotient of two operands of these types, if there is one.
    pub(crate) fn type_of(self, a: ValueType, b: ValueType) -> Option<ValueType>
        ensures { result ≡ pair_type (checked_pair_operator_of self) a b }
    {
        match (self, a, b) {
            (_, ValueType::Integer, ValueType::Integer) => Some(ValueType::Integer),
            (PairOperator::Subtracting, ValueType::Datetime, ValueType::Duration) => {
                Some(ValueType::Datetime)
            }
            (PairOperator::Subtracting, ValueType::Datetime, ValueType::Datetime)
            | (PairOperator::Subtracting, ValueType::Duration, ValueType::Duration) => {
                Some(ValueType::Duration)
            }
            _ => None,
        }
    }
}

impl Comparison {
    /// The member that holds the terms.
    pub(crate) fn word(self) -> &'static str
        ensures { result.now ≡ comparison_word (checked_comparison_of self) }
    {
        match self {
            Comparison::Equal => "is",
            Comparison::Different => "is-not",
            Comparison::Greater => "greater-than",
            Comparison::Less => "less-than",
        }
    }

    /// Whether two values of these types can be compared so.
    pub(crate) fn compares(self, a: ValueType, b: ValueType) -> bool
        ensures { result ≡ are_comparable (checked_comparison_of self) a b }
    {
        match self {
            Comparison::Equal | Comparison::Different => a.is(b),
            Comparison::Greater | Comparison::Less => a.is(b) && a.is_ordered(),
        }
    }
}
