//! Writing all of some bytes into a sink.
#![tactic(auto, using(crate::proofs::Pieces::written_more))]

ghost use Rattle.std.specs.Prelude.{◌≤◌, OnOk, OnErr, ◌≡◌};
ghost use Rattle.ld_base.specs.Outside.{Rose, AddsPrefix, then_piece};

use crate::sink::{Sink, SinkFailed};

/// Puts all the bytes into the sink, in as many pieces as the sink asks for. It takes no memory.
///
/// # Errors
/// `SinkFailed` only where the count of faults of the sink rose. A beginning of the bytes was
/// written then. A sink that takes none of them has failed too.
pub fn write_all<K: Sink>(sink: &mut K, bytes: &[u8]) -> Result<(), SinkFailed>
    ensures ok { OnOk result (K.written sink.new ≡ then_piece (K.written sink.old) bytes.now) }
    ensures err { OnErr result (AddsPrefix (K.written sink.old) bytes.now (K.written sink.new)) }
    ensures cause { OnErr result (Rose (K.faults sink.old) (K.faults sink.new)) }
    ensures counts { K.faults sink.old ≤ K.faults sink.new }
{
    let mut done = 0;
    while done < bytes.len() {
        let count = sink.put(&bytes[done..])?;
        if count == 0 {
            return Err(SinkFailed);
        }
        done += count;
    }
    Ok(())
}
