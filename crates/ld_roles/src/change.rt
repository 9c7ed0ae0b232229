//! What was done to a roster since its savepoint.

/// What was done since the savepoint; persons and roles by their numbers.
#[derive(Clone, Copy)]
pub(crate) enum Change {
    Nothing,
    /// A person was enrolled.
    Enrolled,
    /// The person was given the role.
    Gave(usize, usize),
    /// The role was taken from the person.
    Took(usize, usize),
}
