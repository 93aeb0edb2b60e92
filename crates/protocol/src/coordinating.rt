//! Single steps of a node that coordinates transactions.
#![tactic(auto, unfolding(crate::proofs::OpenAll::open_all))]

ghost use Rattle.protocol.specs.Steps.Coordinating.{Voted, Acknowledged, Changing, Hearing};

/// PREPARE_ACK acts from the leader of the shard's view.
pub fn voted()
    ensures { Voted }
{}

/// ACCEPT_ACK acts from a follower of the shard's view, and the last one that is missing decides.
pub fn acknowledged()
    ensures { Acknowledged }
{}

/// CONFIG_CHANGE replaces an older view alone.
pub fn changing()
    ensures { Changing }
{}

/// OUTCOME, REFUSED, and what is for the configuration service alone.
pub fn hearing()
    ensures { Hearing }
{}
