//! Why no line can be handed out.
use thiserror::Error;

/// Why no line can be handed out.
#[derive(Clone, Copy, Debug, PartialEq, Eq, Error)]
pub enum LineStop {
    /// The source failed.
    #[error("the input cannot be read")]
    ReadFault,
    /// 2^40 bytes were taken, no line that a line feed ends is left among them, and the source has
    /// not told its end.
    #[error("the input has too many bytes")]
    InputTooLong,
}
