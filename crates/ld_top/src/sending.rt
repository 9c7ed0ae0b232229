//! Replies on their way into a sink: short ones wait for one another, so that many are written at
//! once.
ghost use Rattle.std.specs.Prelude.{◌≡◌, ◌≤◌, ◌++◌, [], length, true, false, OnErr, OnOk};
ghost use Rattle.ld_base.specs.Outside.{AddsPrefix, Rose, then_piece};
ghost use Rattle.ld_top.specs.Sending.{AddsFront};
ghost use Rattle.ld_top.specs.declared.sending.TheConstants.{WAITING_ROOM};

use ld_base::{Sink, SinkFailed, Text, write_all};

/// The most bytes of a reply that may wait, and the most that may wait before it.
const WAITING_LIMIT: usize = 8_192;

/// The room for all that may wait: for as much before a reply as a reply may have.
pub(crate) const WAITING_ROOM: usize = 16_384;

/// Sends a reply behind those that wait. All of them are written, unless this one may wait and is
/// short, and they are few.
///
/// # Errors
/// `SinkFailed` only where the count of faults of the sink rose. A beginning of the replies was
/// written then; what waits is of no use from then on.
pub(crate) fn send<K: Sink>(
    reply: &Text,
    may_wait: bool,
    waiting: &mut Text,
    sink: &mut K,
) -> Result<(), SinkFailed>
    requires few { length waiting.old.bytes ≤ WAITING_ROOM }
    ensures ok { OnOk result (AddsFront (K.written sink.old)
        (waiting.old.bytes ++ reply.now.bytes) (K.written sink.new) waiting.new.bytes) }
    ensures none { OnOk result (may_wait ≡ false → waiting.new.bytes ≡ []) }
    ensures few { length waiting.new.bytes ≤ WAITING_ROOM }
    ensures err { OnErr result (AddsPrefix (K.written sink.old)
        (waiting.old.bytes ++ reply.now.bytes) (K.written sink.new)) }
    ensures cause { OnErr result (Rose (K.faults sink.old) (K.faults sink.new)) }
    ensures counts { K.faults sink.old ≤ K.faults sink.new }
{
    if put_behind(reply, waiting) {
        return write_unless(may_wait, waiting, sink);
    }
    write_waiting(waiting, sink)?;
    write_all(sink, reply.as_str().as_bytes())?;
    Ok(())
}

/// Puts the reply behind those that wait, if it is short and they are few, and says whether it did.
/// Else, or where memory runs out, they stay as they are.
fn put_behind(reply: &Text, waiting: &mut Text) -> bool
    requires few { length waiting.old.bytes ≤ WAITING_ROOM }
    ensures yes { result ≡ true → waiting.new.bytes ≡ waiting.old.bytes ++ reply.now.bytes }
    ensures no { result ≡ false → waiting.new.bytes ≡ waiting.old.bytes }
    ensures few { length waiting.new.bytes ≤ WAITING_ROOM }
{
    let reply = reply.as_str();
    if reply.len() > WAITING_LIMIT || waiting.as_str().len() > WAITING_LIMIT {
        return false;
    }
    waiting.push(reply).is_ok()
}

/// Writes the replies that wait, unless they may wait on.
///
/// # Errors
/// As `write_waiting`.
fn write_unless<K: Sink>(may_wait: bool, waiting: &mut Text, sink: &mut K) -> Result<(), SinkFailed>
    requires few { length waiting.old.bytes ≤ WAITING_ROOM }
    ensures ok { OnOk result (AddsFront (K.written sink.old) waiting.old.bytes
        (K.written sink.new) waiting.new.bytes) }
    ensures none { OnOk result (may_wait ≡ false → waiting.new.bytes ≡ []) }
    ensures few { length waiting.new.bytes ≤ WAITING_ROOM }
    ensures err { OnErr result
        (AddsPrefix (K.written sink.old) waiting.old.bytes (K.written sink.new)) }
    ensures cause { OnErr result (Rose (K.faults sink.old) (K.faults sink.new)) }
    ensures counts { K.faults sink.old ≤ K.faults sink.new }
{
    if may_wait {
        return Ok(());
    }
    write_waiting(waiting, sink)?;
    Ok(())
}

/// Writes the replies that wait, and none waits then.
///
/// # Errors
/// `SinkFailed` only where the count of faults of the sink rose. A beginning of them was written,
/// and they stay as they are.
fn write_waiting<K: Sink>(waiting: &mut Text, sink: &mut K) -> Result<(), SinkFailed>
    ensures ok { OnOk result
        (K.written sink.new ≡ then_piece (K.written sink.old) waiting.old.bytes) }
    ensures none { OnOk result (waiting.new.bytes ≡ []) }
    ensures err { OnErr result
        (AddsPrefix (K.written sink.old) waiting.old.bytes (K.written sink.new)) }
    ensures left { OnErr result (waiting.new.bytes ≡ waiting.old.bytes) }
    ensures cause { OnErr result (Rose (K.faults sink.old) (K.faults sink.new)) }
    ensures counts { K.faults sink.old ≤ K.faults sink.new }
{
    write_all(sink, waiting.as_str().as_bytes())?;
    waiting.clear();
    Ok(())
}
