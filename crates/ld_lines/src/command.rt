//! What a line asks of one run.
use ld_base::{Id, PlainText};

/// What a line asks of one run.
#[derive(Drop)]
pub enum RunCommand {
    /// The person joins the run.
    Enrol {
        person: Id,
    },
    /// The person holds the role from now on.
    Assign {
        person: Id,
        role: Id,
    },
    /// The person holds the role no longer.
    Drop {
        person: Id,
        role: Id,
    },
    /// The run starts.
    Start,
    /// The person opens the activity.
    Open {
        person: Id,
        activity: Id,
    },
    /// The person says that the activity is completed.
    Complete {
        person: Id,
        activity: Id,
    },
    /// The person gives the property the value that the text has.
    Set {
        person: Id,
        property: Id,
        value: PlainText,
    },
    /// The person takes the property's value away.
    Clear {
        person: Id,
        property: Id,
    },
    /// The person asks for the property's value.
    Get {
        person: Id,
        property: Id,
    },
    /// The person's activity tree is asked for.
    Tree {
        person: Id,
    },
    /// The notices to the person are asked for.
    Outbox {
        person: Id,
    },
    /// The state of the run is asked for.
    Report,
    /// Time passes.
    Tick,
    /// The first later moment at which time alone changes something is asked for.
    Next,
}
