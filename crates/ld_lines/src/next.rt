//! What comes next in a source of lines.

/// What comes next in a source of lines.
#[derive(Clone, Copy, Debug, PartialEq, Eq)]
pub enum Next<'a> {
    /// A line of at most 65,536 bytes, without its line feed. It is not blank.
    Whole(&'a [u8]),
    /// A line of more than 65,536 bytes, which was passed over.
    Over,
    /// No line is left.
    End,
}
