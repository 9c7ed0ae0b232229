//! What stands at one place of the documents, as far as anything beyond its shape is asked of it.
use crate::kind::{Kind, Wanted};
use ld_base::{Id, PlainText};
use ld_model::{Level, Property, Term, Test};

/// What is to have the right types.
#[derive(Clone, Copy)]
pub enum Typed<'a> {
    /// The initial value and the restrictions of a property.
    Declared(&'a Property),
    /// The text of a value of the property.
    ValueOf(&'a Id, &'a PlainText),
    /// A property that is named for the run as a whole.
    OfRun(&'a Id),
    /// The property gets the value of the term: for the run as a whole, or for one person.
    Changed(bool, &'a Id, &'a Term),
    Tested(&'a Test),
}

/// What stands at a place.
#[derive(Clone, Copy)]
pub enum What<'a> {
    /// An object with an identifier, and whether it is visible at first, where it is shown and
    /// hidden.
    Declares(Kind, &'a Id, Option<bool>),
    /// A reference.
    Refers(Wanted, &'a Id),
    /// A list of references.
    Lists(Wanted, &'a [Id]),
    /// The name of a value that all runs share.
    Shares(&'a PlainText),
    /// When a thing is completed.
    Completes(Kind),
    /// What follows a completion, and whether it is said when that is.
    Follows(bool),
    /// The condition of this number.
    Judges(u32),
    /// A leaf of an expression, and whether it is asked of each member of a role.
    Leaf(bool),
    /// What this engine leaves out.
    LeftOut,
    /// What is to have the right types.
    Types(Typed<'a>),
    Other,
}

/// What stands at the place of a number, and the lowest level of units that have it.
#[derive(Clone, Copy)]
pub struct PartRow<'a> {
    pub at: u32,
    pub level: Level,
    pub what: What<'a>,
}
