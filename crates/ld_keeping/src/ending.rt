//! How the answering of lines over a journal ends.

/// How it ends. (docs/COMMANDS.md, "Statuses")
#[derive(Clone, Copy)]
pub enum KeepEnding {
    /// All lines of the source were answered.
    Done,
    /// The source failed.
    ReadFault,
    /// The sink failed.
    WriteFault,
    /// Out of memory before the first line of input was asked for.
    NoMemory,
    /// 2^40 bytes were taken and the source had not told its end.
    InputTooLong,
    /// The disk failed.
    DiskFault,
    /// A line of the journal is refused.
    JournalDiffers,
    /// A line that is done does not fit into the journal.
    JournalFull,
}
