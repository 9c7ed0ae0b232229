//! The person of a key that is to be written.
ghost use Rattle.std.specs.Prelude.{◌≡◌, option_copied};
ghost use Rattle.ld_globals.specs.Given.{IsLent, given_text};

use ld_base::Id;

/// The person of a key that is to be written: none, one whose identifier the store may keep, or
/// one whose identifier it may only copy.
#[derive(Drop)]
pub(crate) enum Given<'a> {
    Nobody,
    Own(Id),
    Lent(&'a Id),
}

impl<'a> Given<'a> {
    /// The person whose identifier the store may keep, where there is one.
    pub(crate) fn own(person: Option<Id>) -> Given<'a>
        ensures text { given_text result ≡ person }
        ensures own { IsLent result → ⊥ }
    {
        match person {
            Some(id) => Given::Own(id),
            None => Given::Nobody,
        }
    }

    /// The person whose identifier the store may only copy, where there is one.
    pub(crate) fn lent(person: Option<&'a Id>) -> Given<'a>
        ensures { given_text result ≡ option_copied person.entry }
    {
        match person {
            Some(id) => Given::Lent(id),
            None => Given::Nobody,
        }
    }

    /// The person's identifier, where there is one.
    pub(crate) fn id(&self) -> Option<&Id>
        ensures { option_copied result ≡ given_text self.now }
    {
        match self {
            Given::Nobody => None,
            Given::Own(id) => Some(id),
            Given::Lent(id) => Some(*id),
        }
    }
}
