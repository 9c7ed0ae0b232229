//! Laws of notices: which are sent, in what order, and how many.
//! The functions do nothing: each is there for what it ensures.
ghost use Rattle.ld_laws.specs.NoticeLaws.{CommandSends, FiringSends};

/// A firing sends each of its notices once, in order.
pub fn firing_sends()
    ensures { FiringSends }
{}

/// A command that is done sends the notices of its firings, in the order of the firings, and tells
/// their number.
pub fn command_sends()
    ensures { CommandSends }
{}
