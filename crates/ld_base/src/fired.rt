//! What a site that fired tells.

/// What one firing did: how many of its changes were rejected, and how many notices it sent.
#[derive(Clone, Copy, Debug, PartialEq, Eq)]
pub struct Fired {
    pub rejected: u32,
    pub sent: u32,
}
