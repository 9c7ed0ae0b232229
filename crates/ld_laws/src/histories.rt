//! Laws of whole histories: what the replies to a run depend on, and what the text that was written
//! tells.
//! The functions do nothing: each is there for what it ensures.
ghost use Rattle.ld_laws.specs.Histories.{RunsAreIsolated, TextTellsItsHistory};
ghost use Rattle.ld_laws.specs.WorldLaws.{NoReplyIsOutOfMemory, TextTellsTheWorld};

/// The replies to a run depend on what it meets, and on nothing else: if it meets the same in two
/// histories, the replies are the same. Lines for which memory ran out count as not given.
pub fn runs_are_isolated()
    ensures { RunsAreIsolated }
{}

/// The text that was written for lines tells what was written for each of them, and so for which of
/// them memory ran out.
pub fn text_tells_its_history()
    ensures { TextTellsItsHistory }
{}

/// The lines and the text that was written for them determine the world that is left.
pub fn text_tells_the_world()
    ensures { TextTellsTheWorld }
{}

/// No reply is `no 99 no-memory`, nor does one begin so.
pub fn no_reply_is_out_of_memory()
    ensures { NoReplyIsOutOfMemory }
{}
