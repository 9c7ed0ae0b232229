//! What stands at a gate of a file.
ghost use Rattle.std.specs.Prelude.{◌≡◌, ◌≤◌, ◌<◌, ◌+◌, ◌^◌, IfOk, IfSome, OnOk, OnErr, length, take, drop, slice_get, Some};
ghost use Rattle.ld_base.specs.Outside.{Rose};
ghost use Rattle.ld_keep.specs.Disk.{IsQuiet};
ghost use Rattle.ld_keep.specs.Kept.{reach, record_in, record_here};
ghost use Rattle.ld_keep.specs.Window.{IsOfFile, Holds};

use crate::disk::{Disk, DiskFailed};
use crate::window::Window;

/// The most bytes of a line.
const LINE_LIMIT: u32 = 65_536;

/// The length of the line of the record at the place, if one stands there. The limit is the number
/// of bytes of the file that may hold records.
///
/// # Errors
/// `DiskFailed` only where the disk's count of faults rose.
pub(crate) fn record_at<D: Disk>(
    window: &mut Window,
    disk: &mut D,
    place: u64,
    limit: u64,
) -> Result<Option<u32>, DiskFailed>
    requires within { place ≤ limit }
    requires limit { IfSome (D.model.bytes disk.old) (λ bytes. limit ≡ length (reach bytes)) }
    requires near { Holds window.old place 0 }
    requires of_file { IfSome (D.model.bytes disk.old) (IsOfFile window.old) }
    ensures found { IfOk result (λ found. IfSome (D.model.bytes disk.old)
        (λ bytes. found ≡ record_here (drop place (reach bytes)))) }
    ensures some { IfOk result (λ found. IfSome found (λ n. (1 ≤ n) × (n ≤ 65536))) }
    ensures fits { IfOk result (λ found. IfSome found (λ n. place + 5 + n < limit)) }
    ensures near { Holds window.new place 0 }
    ensures of_file { IfSome (D.model.bytes disk.old) (IsOfFile window.new) }
    ensures quiet { IsQuiet D.model disk.old disk.new }
    ensures tells { D.model.tells_images disk.new ≡ D.model.tells_images disk.old }
    ensures cause { OnErr result (Rose (D.faults disk.old) (D.faults disk.new)) }
    ensures counts { D.faults disk.old ≤ D.faults disk.new }
{
    if limit - place < 5 {
        return Ok(None);
    }
    window.hold(disk, place, 5, limit)?;
    Ok(record_length(window.part(place, 5), limit - place))
}

/// The length of the line of the record whose first five bytes these are, if they begin one. The
/// count is of all bytes from its gate on.
fn record_length(head: &[u8], count: u64) -> Option<u32>
    requires whole { length head.now ≡ 5 }
    requires more { 5 ≤ count }
    ensures value { result ≡ record_in head.now count }
    ensures some { IfSome result (λ n. (1 ≤ n) × (n ≤ 65536)) }
    ensures fits { IfSome result (λ n. 5 + n < count) }
{
    let [1, a, b, c, d] = head else {
        return None;
    };
    let length = u32::from_be_bytes([*a, *b, *c, *d]);
    if length < 1 || length > LINE_LIMIT || u64::from(length) >= count - 5 {
        return None;
    }
    Some(length)
}

/// The byte at the place.
///
/// # Errors
/// `DiskFailed` only where the disk's count of faults rose.
pub(crate) fn gate_at<D: Disk>(disk: &mut D, place: u64) -> Result<u8, DiskFailed>
    requires { IfSome (D.model.bytes disk.old) (λ bytes. place < length bytes) }
    ensures gate { IfOk result (λ gate. IfSome (D.model.bytes disk.old)
        (λ bytes. slice_get bytes place ≡ Some gate)) }
    ensures quiet { IsQuiet D.model disk.old disk.new }
    ensures tells { D.model.tells_images disk.new ≡ D.model.tells_images disk.old }
    ensures cause { OnErr result (Rose (D.faults disk.old) (D.faults disk.new)) }
    ensures counts { D.faults disk.old ≤ D.faults disk.new }
{
    let mut gate = [0u8; 1];
    disk.read(place, &mut gate)?;
    Ok(gate[0])
}
