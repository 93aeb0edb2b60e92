//! What an event came to.

use quorum_protocol::{Outcome, Stored};

/// What an event came to: its result, and what a proposer learned with it. What was sent ends the world's messages.
#[derive(Debug, Drop)]
pub struct Happening {
    pub result: Outcome,
    pub stored: Option<Stored>,
}
