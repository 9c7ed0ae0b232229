//! Laws of what persons see.
//! The functions do nothing: each is there for what it ensures.
ghost use Rattle.ld_laws.specs.JoiningLaws.{EnrolmentJoins, JoiningIsNotSeen};
ghost use Rattle.ld_laws.specs.TreeLaws.{OpenIsNotDone, OpenIsTheirs, TheirsIsMine, TreeIsThePersons, TreeTellsDone};

/// A tree says of an activity that it is done exactly where it is done for the person.
pub fn tree_tells_done()
    ensures { TreeTellsDone }
{}

/// What is open for a person is not done for the person.
pub fn open_is_not_done()
    ensures { OpenIsNotDone }
{}

/// What is open for a person is the person's by a role.
pub fn open_is_theirs()
    ensures { OpenIsTheirs }
{}

/// What is a person's by a role is the person's in the words of rules.
pub fn theirs_is_mine()
    ensures { TheirsIsMine }
{}

/// A person's tree tells of nothing that is another person's alone.
pub fn tree_is_the_persons()
    ensures { TreeIsThePersons }
{}

/// The run and its persons are told the same just before a person joins and just after.
pub fn joining_is_not_seen()
    ensures { JoiningIsNotSeen }
{}

/// An enrolment lets the person join, and does nothing else where no rule fires.
pub fn enrolment_joins()
    ensures { EnrolmentJoins }
{}
