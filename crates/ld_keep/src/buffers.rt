//! What a disk in memory does to its buffers, all within the memory that they have.
ghost use Rattle.std.specs.Prelude.{◌≡◌, ◌≤◌, ◌<◌, ◌+◌, ◌-◌, [], ◌∷◌, ◌++◌, IfOk, length, take, drop, reverse, vec_len, vec_capacity};
ghost use Rattle.ld_keep.specs.Disk.{overwritten};
ghost use Rattle.ld_keep.specs.Past.{replayed};
ghost use Rattle.ld_keep.specs.Steps.{past_of, count_of, step_count, redone};

use crate::step::Step;
use ld_base::memory::NoMemory;
use std::alloc::Global;

/// A copy of the bytes with so much room.
///
/// # Errors
/// `NoMemory` where there is no memory for it.
pub(crate) fn roomy_copy(alloc: Global, bytes: &[u8], room: usize) -> Result<Vec<u8>, NoMemory>
    ensures bytes { IfOk result (λ copy. copy.items ≡ bytes.now) }
    ensures room { IfOk result (λ copy. room ≤ vec_capacity copy) }
{
    let mut copy = Vec::with_capacity(alloc, room)?;
    copy.extend_from_slice(bytes)?;
    Ok(copy)
}

/// Puts the other bytes in place of those that are there.
pub(crate) fn replace(bytes: &mut Vec<u8>, others: &[u8])
    requires room { length others.now ≤ vec_capacity bytes.old }
    ensures bytes { bytes.new.items ≡ others.now }
    ensures room { vec_capacity bytes.old ≤ vec_capacity bytes.new }
{
    bytes.clear();
    add_all(bytes, others);
}

/// Adds the piece at the end.
pub(crate) fn add_all(bytes: &mut Vec<u8>, piece: &[u8])
    requires room { vec_len bytes.old + length piece.now ≤ vec_capacity bytes.old }
    ensures bytes { bytes.new.items ≡ bytes.old.items ++ piece.now }
    ensures room { vec_capacity bytes.old ≤ vec_capacity bytes.new }
{
    let Ok(()) = bytes.extend_from_slice(piece) else {
        unreachable!()
    };
}

/// Adds the step at the end.
pub(crate) fn add_step(steps: &mut Vec<Step>, step: Step)
    requires room { vec_len steps.old + 1 ≤ vec_capacity steps.old }
    ensures steps { steps.new.items ≡ steps.old.items ++ step ∷ [] }
    ensures room { vec_capacity steps.old ≤ vec_capacity steps.new }
{
    let Ok(()) = steps.push(step) else {
        unreachable!()
    };
}

/// Copies the bytes from a place on over all of `into`.
pub(crate) fn copy_part(bytes: &[u8], at: usize, into: &mut [u8])
    requires { at + length into.old ≤ length bytes.now }
    ensures { into.new ≡ take (length into.old) (drop at bytes.now) }
{
    let end = at + into.len();
    into.copy_from_slice(&bytes[at..end]);
}

/// Writes the piece over the bytes from a place on, and past the end.
pub(crate) fn overwrite(bytes: &mut Vec<u8>, at: usize, piece: &[u8])
    requires room { vec_len bytes.old + length piece.now ≤ vec_capacity bytes.old }
    ensures bytes { bytes.new.items ≡ overwritten at piece.now bytes.old.items }
    ensures size { vec_len bytes.new ≤ vec_len bytes.old + length piece.now }
    ensures room { vec_capacity bytes.old ≤ vec_capacity bytes.new }
{
    let at = at.min(bytes.len());
    let inside = piece.len().min(bytes.len() - at);
    copy_into(bytes.as_mut_slice(), at, &piece[..inside]);
    add_all(bytes, &piece[inside..]);
}

/// Copies the piece over the bytes from a place on.
fn copy_into(bytes: &mut [u8], at: usize, piece: &[u8])
    requires { at + length piece.now ≤ length bytes.old }
    ensures { bytes.new ≡ overwritten at piece.now bytes.old }
{
    let end = at + piece.len();
    bytes[at..end].copy_from_slice(piece);
}

/// Does the steps again over the bytes that they began with. Of all that they wrote, the first
/// `limit` bytes are written.
pub(crate) fn replay(first: &mut Vec<u8>, steps: &[Step], written: &[u8], limit: usize)
    requires counted { count_of steps.now ≡ length written.now }
    requires room { vec_len first.old + length written.now ≤ vec_capacity first.old }
    ensures bytes { first.new.items
        ≡ replayed first.old.items (past_of (reverse steps.now) written.now) limit }
    ensures size { vec_len first.new ≤ vec_len first.old + length written.now }
    ensures room { vec_capacity first.old ≤ vec_capacity first.new }
{
    let mut start = 0;
    for step in steps {
        start = redo(first, *step, written, start, limit);
    }
}

/// Does a step again whose bytes begin at `start`, and gives where those of the next begin.
fn redo(first: &mut Vec<u8>, step: Step, written: &[u8], start: usize, limit: usize) -> usize
    requires within { start + step_count step ≤ length written.now }
    requires room { vec_len first.old + step_count step ≤ vec_capacity first.old }
    ensures next { result ≡ start + step_count step }
    ensures bytes { first.new.items
        ≡ redone step (take (step_count step) (drop start written.now)) (limit - start)
        first.old.items }
    ensures size { vec_len first.new ≤ vec_len first.old + step_count step }
    ensures room { vec_capacity first.old ≤ vec_capacity first.new }
{
    let Step::Write { at, count } = step else {
        return start;
    };
    let kept = count.min(limit.saturating_sub(start));
    overwrite(first, at, &written[start..start + kept]);
    start + count
}
