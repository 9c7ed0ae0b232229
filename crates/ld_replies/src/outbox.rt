//! The lines of an outbox.
ghost use Rattle.std.specs.Prelude.{◌≡◌, ◌<◌, ◌+◌, ◌^◌, fold, nat_eq, OnOk};
ghost use Rattle.std.specs.List.{list_any};
ghost use Rattle.ld_model.specs.Counting.{each_numbered};
ghost use Rattle.ld_state.specs.Notices.{notice_of, notices_of};
ghost use Rattle.ld_replies.specs.Printed.{printed_after};
ghost use Rattle.ld_replies.specs.Printing.{AreNoticesOf, IsNoticeOf};
ghost use Rattle.ld_replies.specs.Reports.{activity_of_notice, notice_lines};

use crate::printed::Lines;
use ld_base::{NoMemory, PersonNo};
use ld_names::Named;
use ld_rules::PreparedUnit;
use ld_state::OutNotice;
use std::alloc::Global;

/// Puts the lines of the notices that reach the person. (docs/COMMANDS.md, "Replies")
pub(crate) fn put_outbox(
    alloc: Global,
    unit: &PreparedUnit,
    notices: &[OutNotice],
    person: PersonNo,
    lines: &mut Lines,
) -> Result<(), NoMemory>
    requires { AreNoticesOf unit.now (notices_of notices.now) }
    ensures { OnOk result (lines.new ≡ fold printed_after lines.old
        (each_numbered (notice_lines unit.now person.0) (notices_of notices.now))) }
{
    for (index, notice) in notices.iter().enumerate() {
        put_if_reached(alloc, unit, index, notice, person, lines)?;
    }
    Ok(())
}

/// Puts the line of the notice at this index, where it reaches the person.
fn put_if_reached(
    alloc: Global,
    unit: &PreparedUnit,
    index: usize,
    notice: &OutNotice,
    person: PersonNo,
    lines: &mut Lines,
) -> Result<(), NoMemory>
    requires few { index + 1 < 2 ^ 64 }
    requires notice { IsNoticeOf unit.now (notice_of notice.now) }
    ensures { OnOk result (lines.new ≡ fold printed_after lines.old
        (notice_lines unit.now person.0 index (notice_of notice.now))) }
{
    if !reaches(notice, person) {
        return Ok(());
    }
    lines.begin("notice")?;
    lines.add_number(index as u64 + 1)?;
    lines.add_moment(notice.moment)?;
    lines.add(activity_of(unit, notice))?;
    lines.add_text(alloc, notice.subject.as_str())?;
    Ok(())
}

/// Whether the notice reaches the person.
fn reaches(notice: &OutNotice, person: PersonNo) -> bool
    ensures { result ≡ list_any (nat_eq person.0) (notice_of notice.now).to }
{
    for other in notice.to.as_slice() {
        if person == *other {
            return true;
        }
    }
    false
}

/// The identifier of the notice's activity, or `-` where it has none.
fn activity_of<'a>(unit: &'a PreparedUnit, notice: &OutNotice) -> &'a str
    requires { IsNoticeOf unit.now (notice_of notice.now) }
    ensures { result.now ≡ activity_of_notice unit.now (notice_of notice.now) }
{
    match notice.activity {
        Some(thing) => unit.names().id(Named::Thing(thing)).as_str(),
        None => "-",
    }
}
