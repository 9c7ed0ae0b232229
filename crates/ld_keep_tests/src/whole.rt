//! Whole openings, and lines kept one after the other.
ghost use Rattle.std.specs.Prelude.{◌≡◌, ◌≤◌, ◌<◌, ◌++◌, [], ℕ, List, map, get_or, IfOk, IfSome, OnOk, All, length, true, false, Ok, IsTrue};
ghost use Rattle.ld_keep.specs.Disk.{IsSettled, IsQuiet, OnHonest, LeavesOnly};
ghost use Rattle.ld_keep.specs.Journal.{IsAtRest, kept_on, then_line};
ghost use Rattle.ld_keep.specs.Kept.{kept_lines, lines_from, KeepsOrAdds};
ghost use Rattle.ld_keep.specs.Opening.{IsAtGate};
ghost use Rattle.ld_keep_tests.specs.Texts.{texts, words, KeepsFrom};

use ld_keep::{Disk, Journal, OpenFault, Opening};
use std::alloc::Global;

/// Puts the next line after those that were read, and answers whether there was one.
fn read_on<D: Disk>(
    alloc: Global,
    opening: &mut Opening,
    disk: &mut D,
    lines: &mut Vec<Vec<u8>>,
) -> Result<bool, OpenFault>
    requires { IfSome (D.model.bytes disk.old) (IsAtGate opening.old) }
    ensures at_gate { OnOk result (IfSome (D.model.bytes disk.old) (IsAtGate opening.new)) }
    ensures ended { result ≡ Ok false → IsTrue opening.new.ended }
    ensures progress { result ≡ Ok true → opening.old.place < opening.new.place }
    ensures within { result ≡ Ok true → opening.new.place ≤ opening.new.limit }
    ensures limit { OnOk result (opening.new.limit ≡ opening.old.limit) }
    ensures lines { OnOk result (IfSome (D.model.bytes disk.old) (λ file.
        texts lines.new.items ++ lines_from opening.new.place file
        ≡ texts lines.old.items ++ lines_from opening.old.place file)) }
    ensures quiet { IsQuiet D.model disk.old disk.new }
    ensures tells { D.model.tells_images disk.new ≡ D.model.tells_images disk.old }
{
    match opening.next(disk) {
        Err(_) => Err(OpenFault::DiskFault),
        Ok(None) => Ok(false),
        Ok(Some(line)) => {
            let Ok(line) = line.to_vec(alloc) else {
                return Err(OpenFault::NoMemory);
            };
            let Ok(()) = lines.push(line) else {
                return Err(OpenFault::NoMemory);
            };
            Ok(true)
        }
    }
}

/// The journal of the disk, and its lines. A crash at any moment of the call leaves the same lines,
/// where nothing is pending at first.
pub(crate) fn open<D: Disk>(
    alloc: Global,
    disk: &mut D,
) -> Result<(Journal, Vec<Vec<u8>>), OpenFault>
    ensures at_rest { IfOk result (λ found. IfSome (D.model.bytes disk.new) (IsAtRest found.0)) }
    ensures settled { OnOk result (IsSettled D.model disk.new) }
    ensures lines { IfOk result (λ found. IfSome (D.model.bytes disk.old) (λ file.
        texts found.1.items ≡ kept_lines file)) }
    ensures any_moment { IsSettled D.model disk.old → OnHonest D.model disk.old (λ file.
        LeavesOnly D.model disk.old disk.new (λ image. kept_lines image ≡ kept_lines file)) }
{
    let mut lines = Vec::new(alloc);
    let mut opening = Opening::start(alloc, disk)?;
    while read_on(alloc, &mut opening, disk, &mut lines)? {}
    match opening.finish(disk) {
        Ok(journal) => Ok((journal, lines)),
        Err(_) => Err(OpenFault::DiskFault),
    }
}

/// Keeps the lines one after the other, and gives how many were. A crash at any moment of the call
/// leaves the old lines and some of these after them, none left out; a crash at its end leaves all
/// that were counted.
pub(crate) fn keep_all<D: Disk>(disk: &mut D, journal: Journal, lines: &[&str]) -> usize
    requires at_rest { IfSome (D.model.bytes disk.old) (IsAtRest journal) }
    requires settled { IsSettled D.model disk.old }
    ensures any_moment { OnHonest D.model disk.old (λ file.
        LeavesOnly D.model disk.old disk.new (KeepsFrom 0 (kept_lines file) (words lines.now))) }
    ensures counted { OnHonest D.model disk.old (λ file. (image : List ℕ)
        → D.model.may_leave disk.new image
        → KeepsFrom result (kept_lines file) (words lines.now) image) }
{
    let mut journal = journal;
    for count in 0..lines.len() {
        if !keep_at(disk, &mut journal, lines, count) {
            return count;
        }
    }
    lines.len()
}

/// Keeps the line at this place, if it may be kept, and says whether it was.
fn keep_at<D: Disk>(disk: &mut D, journal: &mut Journal, lines: &[&str], index: usize) -> bool
    requires at_rest { IfSome (D.model.bytes disk.old) (IsAtRest journal.old) }
    requires settled { IsSettled D.model disk.old }
    requires within { index < length lines.now }
    ensures at_rest { IsTrue result → IfSome (D.model.bytes disk.new) (IsAtRest journal.new) }
    ensures settled { IsTrue result → IsSettled D.model disk.new }
    ensures kept { IsTrue result → kept_on (D.model.bytes disk.new)
        ≡ then_line (kept_on (D.model.bytes disk.old)) (get_or (words lines.now) index []) }
    ensures any_moment { OnHonest D.model disk.old (λ file. LeavesOnly D.model disk.old disk.new
        (KeepsOrAdds (kept_lines file) (get_or (words lines.now) index []))) }
    ensures tells { D.model.tells_images disk.new ≡ D.model.tells_images disk.old }
{
    keep_one(disk, journal, lines[index].as_bytes())
}

/// Keeps one line, if it may be kept, and says whether it was.
fn keep_one<D: Disk>(disk: &mut D, journal: &mut Journal, line: &[u8]) -> bool
    requires at_rest { IfSome (D.model.bytes disk.old) (IsAtRest journal.old) }
    requires settled { IsSettled D.model disk.old }
    ensures at_rest { IsTrue result → IfSome (D.model.bytes disk.new) (IsAtRest journal.new) }
    ensures settled { IsTrue result → IsSettled D.model disk.new }
    ensures kept { IsTrue result → kept_on (D.model.bytes disk.new)
        ≡ then_line (kept_on (D.model.bytes disk.old)) line.now }
    ensures any_moment { OnHonest D.model disk.old (λ file. LeavesOnly D.model disk.old disk.new
        (KeepsOrAdds (kept_lines file) line.now)) }
    ensures tells { D.model.tells_images disk.new ≡ D.model.tells_images disk.old }
{
    if line.is_empty() {
        return false;
    }
    if line.len() > 65_536 {
        return false;
    }
    if let Err(_) = journal.keep(disk, line) {
        return false;
    }
    true
}
