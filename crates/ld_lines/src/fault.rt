//! Why bytes gave no command.

/// Why bytes gave no command.
#[derive(Clone, Copy, Debug, PartialEq, Eq)]
pub enum LineFault {
    /// The bytes are no command line.
    BadLine,
    /// Memory ran out.
    NoMemory,
}
