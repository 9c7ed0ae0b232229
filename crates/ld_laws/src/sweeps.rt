//! Laws of sweeps: the order in which sites are visited, and what a settling leaves.
//! The functions do nothing: each is there for what it ensures.
ghost use Rattle.ld_laws.specs.SweepLaws.{MarksTellTests, PersonsHaveSeats, SweepVisitsSitesInOrder};

/// A sweep visits the sites of a run in document order and does nothing else.
pub fn sweep_visits_sites_in_order()
    ensures { SweepVisitsSitesInOrder }
{}

/// Each person of a run has a seat.
pub fn persons_have_seats()
    ensures { PersonsHaveSeats }
{}

/// Between the commands of a started run each rule has said what its test says.
pub fn marks_tell_tests()
    ensures { MarksTellTests }
{}
