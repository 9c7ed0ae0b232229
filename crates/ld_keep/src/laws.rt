//! A law of the lines that a file keeps.
ghost use Rattle.ld_keep.specs.Laws.{RecordsAreKept};

/// Records that stand one after the other, and a closed gate after them, keep their lines, whatever
/// follows.
pub fn records_are_kept()
    ensures { RecordsAreKept }
{}
