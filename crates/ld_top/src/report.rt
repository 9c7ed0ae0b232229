//! Reports on the unit of one folder.
ghost use Rattle.std.specs.Prelude.{◌≡◌, ◌≤◌, IfOk};
ghost use Rattle.ld_base.specs.Outside.{Rose};
ghost use Rattle.ld_rank.specs.Printed.{IsReportText};
ghost use Rattle.ld_top.specs.Completeness.{DidNotFail, ReportEndsRefused, ReportEndsWell};
ghost use Rattle.ld_top.specs.Endings.{IsReportEnding, NothingWritten, number_of};
ghost use Rattle.ld_top.specs.Reports.{Prints, Reported, ReportCut, ReportRefused, check_line};

use crate::ending::Ending;
use crate::reader::folder::read_folder;
use crate::reader::stop::FolderStop;
use crate::refusal::refuse;
use itoa::Buffer;
use ld_base::{NoMemory, Shelf, Sink, Text, write_all};
use ld_canon::canonical_text;
use ld_rank::report_text;
use ld_refs::Checked;
use ld_rules::PreparedUnit;
use std::alloc::Global;

/// What is printed of a unit.
#[derive(Clone, Copy)]
pub enum Report {
    /// How many rules and leaves of expressions it has.
    Check,
    /// Its canonical documents.
    Canon,
    /// The ranks of its rules, or a loop of them.
    Rank,
}

impl Report {
    /// The text that is printed of the unit. (docs/COMMANDS.md, "Words")
    fn text(self, alloc: Global, checked: Checked) -> Result<Text, NoMemory>
        ensures { IfOk result (λ text. Prints self checked.unit text.bytes) }
    {
        match self {
            Report::Check => line_of_check(alloc, &checked),
            Report::Canon => canonical_text(alloc, checked.unit()),
            Report::Rank => ranks_of(alloc, checked),
        }
    }
}

/// The ranks of the unit's rules, or a loop of them. (docs/RANKS.md)
fn ranks_of(alloc: Global, checked: Checked) -> Result<Text, NoMemory>
    ensures { IfOk result (λ text. IsReportText checked.unit text.bytes) }
{
    let unit = PreparedUnit::new(alloc, checked)?;
    report_text(alloc, &unit)
}

/// `ok UNIT rules=N leaves=M`
fn line_of_check(alloc: Global, checked: &Checked) -> Result<Text, NoMemory>
    ensures { IfOk result (λ line. line.bytes ≡ check_line checked.now.unit) }
{
    let mut line = Text::of(alloc, "ok ")?;
    line.push(checked.unit().identifier.as_str())?;
    line.push(" rules=")?;
    line.push(Buffer::new().format(checked.rules()))?;
    line.push(" leaves=")?;
    line.push(Buffer::new().format(checked.leaves()))?;
    line.push("\n")?;
    Ok(line)
}

/// Reads the folder and writes the report on its unit, or the line that tells why the folder is
/// refused. Where memory runs out nothing is written, and where the sink fails a beginning.
pub(crate) fn report_on<H: Shelf, K: Sink>(
    alloc: Global,
    report: Report,
    folder: &str,
    shelf: &mut H,
    output: &mut K,
) -> Ending
    ensures endings { IsReportEnding result }
    ensures done { result ≡ Ending.Done → Reported report folder.now (H.files shelf.old)
        (K.written output.old) (K.written output.new) }
    ensures refused { result ≡ Ending.UnitRefused → ReportRefused folder.now (H.files shelf.old)
        (K.written output.old) (K.written output.new) }
    ensures cut { result ≡ Ending.WriteFault → ReportCut report folder.now (H.files shelf.old)
        (K.written output.old) (K.written output.new) }
    ensures complete { DidNotFail (H.faults shelf.old) (H.faults shelf.new)
        → DidNotFail (K.faults output.old) (K.faults output.new)
        → ReportEndsWell folder.now (H.files shelf.old) (number_of result) }
    ensures refuses { DidNotFail (H.faults shelf.old) (H.faults shelf.new)
        → DidNotFail (K.faults output.old) (K.faults output.new)
        → ReportEndsRefused folder.now (H.files shelf.old) (number_of result) }
    ensures not_written { NothingWritten (number_of result) → output.new ≡ output.old }
    ensures shelf_fault { result ≡ Ending.ShelfFault
        → Rose (H.faults shelf.old) (H.faults shelf.new) }
    ensures write_fault { result ≡ Ending.WriteFault
        → Rose (K.faults output.old) (K.faults output.new) }
    ensures files { H.files shelf.new ≡ H.files shelf.old }
    ensures shelf_counts { H.faults shelf.old ≤ H.faults shelf.new }
    ensures sink_counts { K.faults output.old ≤ K.faults output.new }
{
    let checked = match read_folder(alloc, shelf, folder) {
        Err(FolderStop::ShelfFault) => return Ending::ShelfFault,
        Err(FolderStop::NoMemory) => return Ending::NoMemory,
        Err(FolderStop::Refused(fault)) => return refuse(alloc, 1, &fault, output),
        Ok(checked) => checked,
    };
    let Ok(text) = report.text(alloc, checked) else {
        return Ending::NoMemory;
    };
    match write_all(output, text.as_str().as_bytes()) {
        Ok(()) => Ending::Done,
        Err(_) => Ending::WriteFault,
    }
}
