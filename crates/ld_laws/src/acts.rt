//! Laws of acts: when they are opened.
//! The functions do nothing: each is there for what it ensures.
ghost use Rattle.ld_laws.specs.ActLaws.{ActOpensNow, ActsOpenByTheirRules, ActsOpenOneAfterAnother, OpenedActStays, StartKeepsItsMoment, StartOpensFirstActs};

/// An act but the first of its play is opened only where the act before it is done.
pub fn acts_open_one_after_another()
    ensures { ActsOpenOneAfterAnother }
{}

/// An act is opened exactly where the rule that opens it has said yes.
pub fn acts_open_by_their_rules()
    ensures { ActsOpenByTheirRules }
{}

/// An act that was opened stays opened, since the same moment.
pub fn opened_act_stays()
    ensures { OpenedActStays }
{}

/// What a command opens is opened at the command's own moment.
pub fn act_opens_now()
    ensures { ActOpensNow }
{}

/// A start keeps its moment.
pub fn start_keeps_its_moment()
    ensures { StartKeepsItsMoment }
{}

/// A start opens the first act of each play.
pub fn start_opens_first_acts()
    ensures { StartOpensFirstActs }
{}
