//! What a line of the generator asks of its run.

/// What a line asks of the run. Persons and activities are counted from 0.
#[derive(Clone, Copy)]
pub enum Ask {
    /// The run is made.
    Create,
    /// The person joins.
    Enrol(u8),
    /// The person becomes a learner.
    Assign(u8),
    /// The run begins.
    Start,
    /// The first number's person completes the second number's activity.
    Complete(u8, u8),
}
