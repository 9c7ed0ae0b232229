//! Laws of the next alarm: what a tick does before it, and what one does at it.
//! The functions do nothing: each is there for what it ensures.
ghost use Rattle.ld_laws.specs.AlarmLaws.{AlarmIsLater, NothingBeforeTheAlarm, RunsWaitAfterNext, SomethingAtTheAlarm};

/// The next alarm of a run is later than its last moment.
pub fn alarm_is_later()
    ensures { AlarmIsLater }
{}

/// Before it a tick fires nothing.
pub fn nothing_before_the_alarm()
    ensures { NothingBeforeTheAlarm }
{}

/// At it a tick fires something, or passes the budget.
pub fn something_at_the_alarm()
    ensures { SomethingAtTheAlarm }
{}

/// After each `next` a run waits for its alarm.
pub fn runs_wait_after_next()
    ensures { RunsWaitAfterNext }
{}
