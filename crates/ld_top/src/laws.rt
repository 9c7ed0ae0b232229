//! What the outside determines of a call. The function does nothing: it is there for what it
//! ensures.
ghost use Rattle.ld_top.specs.Completeness.{FoldersPublishOneThing};

/// Folders are read in one way: the same files publish the same units, or are refused for the same
/// fault of the same folder. So the status and the line of a refusal are told by the files alone.
/// (docs/FORMATS.md, "Order of faults")
pub fn folders_publish_one_thing()
    ensures { FoldersPublishOneThing }
{}
