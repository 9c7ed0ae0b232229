//! Laws of a run: what lasts, and what does not happen. Each is of every unit, every state and every
//! command that is done.
//! The functions do nothing: each is there for what it ensures.
ghost use Rattle.ld_laws.specs.RunLaws.{DoneStays, NoTurnsNoFiring, NothingBeforeTheStart, OpeningStays, StartStays, TimeGoesOn, UnstartedChangesAlone, YesStays};

/// What a rule that is no condition has once said yes to stays so.
pub fn yes_stays()
    ensures { YesStays }
{}

/// What is done stays done.
pub fn done_stays()
    ensures { DoneStays }
{}

/// A run that was started stays started, since the same moment.
pub fn start_stays()
    ensures { StartStays }
{}

/// The moment at which a person first opened an activity stays.
pub fn opening_stays()
    ensures { OpeningStays }
{}

/// A run never goes back in time.
pub fn time_goes_on()
    ensures { TimeGoesOn }
{}

/// In a run that is not started no rule has said yes, nothing was opened and no notice was sent.
pub fn nothing_before_the_start()
    ensures { NothingBeforeTheStart }
{}

/// A command that leaves its run unstarted makes its own change, and no rule fires.
pub fn unstarted_changes_alone()
    ensures { UnstartedChangesAlone }
{}

/// A command that tells of no turns makes its own change, and no rule fires.
pub fn no_turns_no_firing()
    ensures { NoTurnsNoFiring }
{}
