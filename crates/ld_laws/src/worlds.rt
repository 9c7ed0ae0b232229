//! Laws of a world of runs: in what they don't touch one another.
//! The functions do nothing: each is there for what it ensures.
ghost use Rattle.ld_laws.specs.WorldLaws.{SeatsPlayNoPart};
ghost use Rattle.ld_world.specs.Isolation.{OthersLeaveIt, OwnLineIsAlike, OwnLineSteps};

/// A line of another run, or of none, leaves a run as it was.
pub fn others_leave_a_run()
    ensures { OthersLeaveIt }
{}

/// A line of a run is answered by what its command does in the run's own state, over the store as it
/// then is, and leaves the run and the store as that does.
pub fn own_lines_step()
    ensures { OwnLineSteps }
{}

/// A line of a run depends on no values of the store but those of the unit's own global properties
/// for the run, for its persons and for who joins.
pub fn own_lines_are_alike()
    ensures { OwnLineIsAlike }
{}

/// As long as no run is full, the number of seats plays no part.
pub fn seats_play_no_part()
    ensures { SeatsPlayNoPart }
{}
