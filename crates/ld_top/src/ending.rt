//! How a call of the program ends.
ghost use Rattle.std.specs.Prelude.{◌≡◌};
ghost use Rattle.ld_top.specs.Endings.{number_of};

/// How a call ends. Each ending has a number, which is the exit status of the program
/// (docs/COMMANDS.md, "Statuses").
#[derive(Clone, Copy)]
pub enum Ending {
    /// The form was done.
    Done,
    /// The words have none of the forms.
    BadWords,
    /// The shelf failed.
    ShelfFault,
    /// The folder was refused.
    UnitRefused,
    /// The source failed.
    ReadFault,
    /// The sink failed.
    WriteFault,
    /// Out of memory before the first line of input was asked for.
    NoMemory,
    /// 2^40 bytes were taken and the source had not told its end.
    InputTooLong,
    /// The disk failed.
    DiskFault,
    /// A line of the journal is refused.
    JournalDiffers,
    /// A line that is done does not fit into the journal.
    JournalFull,
}

impl Ending {
    /// The ending's number.
    pub fn number(self) -> u8
        ensures { result ≡ number_of self }
    {
        match self {
            Ending::Done => 0,
            Ending::BadWords => 2,
            Ending::ShelfFault => 3,
            Ending::UnitRefused => 4,
            Ending::ReadFault => 5,
            Ending::WriteFault => 6,
            Ending::NoMemory => 7,
            Ending::InputTooLong => 8,
            Ending::DiskFault => 9,
            Ending::JournalDiffers => 10,
            Ending::JournalFull => 11,
        }
    }
}
