//! Laws of refusals.
//! The functions do nothing: each is there for what it ensures.
ghost use Rattle.ld_laws.specs.RefusalLaws.{FirstCauseRefuses};

/// A command is refused for the first of its causes.
pub fn first_cause_refuses()
    ensures { FirstCauseRefuses }
{}
