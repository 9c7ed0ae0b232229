//! What was cut off the front of the held bytes.

/// What was cut off the front of the held bytes.
#[derive(Clone, Copy, Debug, PartialEq, Eq)]
pub(crate) enum Cut {
    /// A piece of at most 65,536 bytes, which stands in the buffer as its line.
    Whole,
    /// A piece of more than 65,536 bytes, of which the buffer may have let go.
    Over,
    /// Nothing: the source told its end, and no byte is left.
    End,
}
