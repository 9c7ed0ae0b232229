//! What the generator's lines come to.
ghost use Rattle.std.specs.Prelude.{◌≡◌, ◌≤◌, ◌∷◌, []};
ghost use Rattle.ld_base.specs.Outside.{AddsPrefix, Rose, then_piece};
ghost use Rattle.ld_generator.specs.Tallies.{generated_line};
ghost use Rattle.ld_top.specs.Completeness.{DidNotFail};
ghost use Rattle.ld_top.specs.Endings.{IsGeneratorEnding, IsOneOf, NothingWritten, number_of};

use crate::ending::Ending;
use ld_base::{Sink, Steps, write_all};
use ld_generator::generated_line;
use std::alloc::Global;
use std::sync::ledger::Ledger;

/// Answers the lines that the number chooses for so many persons, and writes what they come to.
/// Where memory runs out nothing is written, and where the sink fails a beginning.
pub(crate) fn generate<K: Sink, L: Ledger>(
    alloc: Global,
    number: u32,
    persons: u8,
    output: &mut K,
    steps: &mut Steps<L>,
) -> Ending
    ensures endings { IsGeneratorEnding result }
    ensures done { result ≡ Ending.Done → K.written output.new
        ≡ then_piece (K.written output.old) (generated_line number persons) }
    ensures cut { result ≡ Ending.WriteFault → AddsPrefix (K.written output.old)
        (generated_line number persons) (K.written output.new) }
    ensures complete { DidNotFail (K.faults output.old) (K.faults output.new)
        → IsOneOf (0 ∷ 7 ∷ []) (number_of result) }
    ensures not_written { NothingWritten (number_of result) → output.new ≡ output.old }
    ensures write_fault { result ≡ Ending.WriteFault
        → Rose (K.faults output.old) (K.faults output.new) }
    ensures sink_counts { K.faults output.old ≤ K.faults output.new }
{
    let Ok(line) = generated_line(alloc, number, persons, steps) else {
        return Ending::NoMemory;
    };
    match write_all(output, line.as_str().as_bytes()) {
        Ok(()) => Ending::Done,
        Err(_) => Ending::WriteFault,
    }
}
