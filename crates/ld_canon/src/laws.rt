//! What canonical documents are good for.
ghost use Rattle.ld_canon.specs.Documents.{SameUnitsHaveOneForm, TextsAreComparedByValue};

/// The same units have the same canonical documents: two courses are compared by comparing them.
/// (docs/FORMATS.md, "Canonical documents")
#[tactic(auto, using(crate::proofs::Standing::same_documents))]
pub fn same_units_have_one_form()
    ensures { SameUnitsHaveOneForm }
{}

/// What it means that units are the same: their value texts are compared by the values that they
/// have. `PT90M` and `PT1H30M` are one; `7` and `07` are one as integers, and two as strings.
#[tactic(auto, using(crate::proofs::Standing::compared_by_value))]
pub fn texts_are_compared_by_value()
    ensures { TextsAreComparedByValue }
{}
