//! What is wrong with a unit: a file, a place in it and a code.
ghost use Rattle.std.specs.Prelude.{◌≡◌};
ghost use Rattle.ld_json.specs.Places.{printed_place};

use crate::code::Code;
use crate::file::FileNo;
use ld_base::{NoMemory, Text};
use std::alloc::{AllocError, AllocFailed};
use std::fmt;

/// The fault at one place of a file. The place is a JSON pointer, empty for the whole document.
#[derive(Drop)]
pub struct Fault {
    pub file: FileNo,
    pub place: Text,
    pub code: Code,
}

impl Fault {
    /// The place as it is printed: `.` for the whole document.
    pub fn place_text(&self) -> &str
        ensures { result.now ≡ printed_place self.now.place.bytes }
    {
        let place = self.place.as_str();
        if place.is_empty() {
            return ".";
        }
        place
    }
}

impl fmt::Debug for Fault {
    fn fmt<W: fmt::Write>(&self, f: &mut fmt::Formatter<W>) -> fmt::Result {
        let (file, place, code) = (self.file.name(), self.place_text(), self.code.word());
        write!(f, "{file} {place} {code}")
    }
}

/// Why a unit was not read: its first fault, or that memory ran out.
#[derive(Debug, Drop)]
pub enum ReadFault {
    Refused(Fault),
    NoMemory,
}

impl From<NoMemory> for ReadFault {
    ghost use Rattle.std.specs.Prelude.{◌≡◌};
    ghost use Rattle.ld_json.specs.declared.fault.ReadFault.TheVariants as read_fault;

    ghost from_gives = { λ _ error. error ≡ read_fault.NoMemory };

    fn from(_error: NoMemory) -> ReadFault {
        ReadFault::NoMemory
    }
}

impl From<AllocError> for ReadFault {
    ghost use Rattle.std.specs.Prelude.{◌≡◌};
    ghost use Rattle.ld_json.specs.declared.fault.ReadFault.TheVariants as read_fault;

    ghost from_gives = { λ _ error. error ≡ read_fault.NoMemory };

    fn from(_error: AllocError) -> ReadFault {
        ReadFault::NoMemory
    }
}

impl<T: Drop> From<AllocFailed<T>> for ReadFault {
    ghost use Rattle.std.specs.Prelude.{◌≡◌};
    ghost use Rattle.ld_json.specs.declared.fault.ReadFault.TheVariants as read_fault;

    ghost from_gives = { λ _ error. error ≡ read_fault.NoMemory };

    fn from(_error: AllocFailed<T>) -> ReadFault {
        ReadFault::NoMemory
    }
}
