//! Why a unit is refused.
ghost use Rattle.std.specs.Prelude.{◌≡◌};
ghost use Rattle.ld_json.specs.Codes.{word_of};

/// What is wrong at the place of a fault.
#[derive(Clone, Copy, Debug, PartialEq, Eq)]
pub enum Code {
    /// A required file is not there.
    Absent,
    /// A file, or what a role-part or the unit expands to, is over its limit.
    TooBig,
    /// The bytes of a file are no JSON.
    NotJson,
    /// A value has not the stated shape, form or range.
    WrongShape,
    /// An object has a member that its table does not list.
    UnknownMember,
    /// A required member is not there.
    Missing,
    /// An element that this engine leaves out.
    NotInProfile,
    /// Two equal identifiers, or two equal references in one list.
    RepeatedId,
    /// Two properties of one uri.
    RepeatedUri,
    /// A reference that names nothing.
    UnknownRef,
    /// A reference to a thing of another kind than its table allows.
    WrongKindOfRef,
    /// An environment or a structure that reaches itself.
    Cycle,
    /// An element that the level of the unit does not have.
    AboveLevel,
    /// A value or an operation of another type than its place wants.
    BadType,
    /// One thing more than a limit allows.
    TooMany,
    /// An earlier unit has the identifier.
    RepeatedUnit,
    /// An earlier unit declares the property's uri with other contents.
    GlobalDiffers,
}

impl Code {
    /// The word that a printed refusal has for the code.
    pub fn word(self) -> &'static str
        ensures { result.now ≡ word_of self }
    {
        match self {
            Code::Absent => "absent",
            Code::TooBig => "too-big",
            Code::NotJson => "not-json",
            Code::WrongShape => "wrong-shape",
            Code::UnknownMember => "unknown-member",
            Code::Missing => "missing",
            Code::NotInProfile => "not-in-profile",
            Code::RepeatedId => "repeated-id",
            Code::RepeatedUri => "repeated-uri",
            Code::UnknownRef => "unknown-ref",
            Code::WrongKindOfRef => "wrong-kind-of-ref",
            Code::Cycle => "cycle",
            Code::AboveLevel => "above-level",
            Code::BadType => "bad-type",
            Code::TooMany => "too-many",
            Code::RepeatedUnit => "repeated-unit",
            Code::GlobalDiffers => "global-differs",
        }
    }
}
