//! Reading command lines.
#![tactic(auto, using(crate::proofs::Arrays::command_of_tokens, crate::proofs::Arrays::no_command))]

ghost use Rattle.std.specs.Prelude.{◌≡◌, Some, None, IfOk, Err};
ghost use Rattle.ld_lines.specs.Commands.{command_of};
ghost use Rattle.ld_lines.specs.LineMoment.{moment_of_line};
ghost use Rattle.ld_value.specs.Calendar.{IsMoment};

use crate::fault::LineFault;
use crate::line::Line;
use crate::verbs::read_line;
use crate::words::Words;
use json::Scratch;
use std::alloc::Global;

/// Reads command lines, one after the other, in memory that is kept from line to line: 16 KB, and
/// one byte for each of the longest line.
#[derive(Drop)]
pub struct CommandReader {
    scratch: Scratch,
}

impl CommandReader {
    /// A reader that has read nothing. It takes no memory.
    pub fn new(alloc: Global) -> CommandReader {
        CommandReader {
            scratch: Scratch::new(alloc),
        }
    }

    /// The command that the bytes of a line are: a JSON array of texts, which are a moment, a verb
    /// and the verb's words (docs/COMMANDS.md).
    ///
    /// # Errors
    /// `BadLine` only where the bytes are no command line, else `NoMemory`. Each call stands for
    /// itself, whatever an earlier one answered.
    pub fn read(&mut self, alloc: Global, bytes: &[u8]) -> Result<Line, LineFault>
        ensures ok { IfOk result (λ line. command_of bytes.now ≡ Some line) }
        ensures bad { result ≡ Err LineFault.BadLine → command_of bytes.now ≡ None }
        ensures years { IfOk result (λ line. IsMoment (moment_of_line line).0) }
    {
        let Ok(text) = str::from_utf8(bytes) else {
            return Err(LineFault::BadLine);
        };
        let mut words = Words::of(alloc, text, &mut self.scratch)?;
        read_line(&mut words)
    }
}
