//! Telling which folder of a call is refused, and for what.
ghost use Rattle.std.specs.Prelude.{◌≡◌, ◌≤◌, IfOk};
ghost use Rattle.ld_base.specs.Outside.{Rose, then_piece, AddsPrefix};
ghost use Rattle.ld_json.specs.Fault.{told_by};
ghost use Rattle.ld_top.specs.Endings.{IsRefusalEnding};
ghost use Rattle.ld_world.specs.Published.{refused_line};

use crate::ending::Ending;
use itoa::Buffer;
use ld_base::{NoMemory, Sink, Text, write_all};
use ld_json::Fault;
use std::alloc::Global;

/// Writes the line that tells which folder is refused, by its number, and for what. Where memory
/// runs out for it nothing is written, and where the sink fails a beginning of it.
pub fn refuse<K: Sink>(alloc: Global, number: usize, fault: &Fault, output: &mut K) -> Ending
    ensures endings { IsRefusalEnding result }
    ensures written { result ≡ Ending.UnitRefused → K.written output.new
        ≡ then_piece (K.written output.old)
        (refused_line (record { folder = number; fault = told_by fault.now })) }
    ensures cut { result ≡ Ending.WriteFault
        → AddsPrefix (K.written output.old)
        (refused_line (record { folder = number; fault = told_by fault.now }))
        (K.written output.new) }
    ensures no_memory { result ≡ Ending.NoMemory → output.new ≡ output.old }
    ensures cause { result ≡ Ending.WriteFault → Rose (K.faults output.old) (K.faults output.new) }
    ensures counts { K.faults output.old ≤ K.faults output.new }
{
    let Ok(line) = line_of_refusal(alloc, number, fault) else {
        return Ending::NoMemory;
    };
    match write_all(output, line.as_str().as_bytes()) {
        Ok(()) => Ending::UnitRefused,
        Err(_) => Ending::WriteFault,
    }
}

/// The line that tells which folder is refused: its number, and the file, the place and the code of
/// the fault.
fn line_of_refusal(alloc: Global, number: usize, fault: &Fault) -> Result<Text, NoMemory>
    ensures { IfOk result (λ line. line.bytes
        ≡ refused_line (record { folder = number; fault = told_by fault.now })) }
{
    let mut line = Text::of(alloc, "refused ")?;
    line.push(Buffer::new().format(number))?;
    line.push(" ")?;
    line.push(fault.file.name())?;
    line.push(" ")?;
    line.push(fault.place_text())?;
    line.push(" ")?;
    line.push(fault.code.word())?;
    line.push("\n")?;
    Ok(line)
}
